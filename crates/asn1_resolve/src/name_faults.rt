//! What is wrong in the names of types (X.680, sections 13 to 16; docs/PROFILE.md, section 11).

ghost use Rattle.std.specs.Prelude.{◌≡◌, ◌≢◌, IsFalse, IsTrue, List, None, Some};
ghost use Rattle.asn1_names.specs.CodeMeanings.{Means, module_meant, named_module, named_type};
ghost use Rattle.asn1_names.specs.ModuleFaults.{IsOtherType};
ghost use Rattle.asn1_names.specs.ModuleTerms.{ModuleTerm};
ghost use Rattle.asn1_names.specs.NameMeaning.{Meaning as NameMeaning, module_meaning};
ghost use Rattle.asn1_names.specs.NameMeaning.Meaning.{Nothing as NoMeaning};
ghost use Rattle.asn1_names.specs.NameMeaning.ModuleMeaning.{NoModule};
ghost use Rattle.asn1_names.specs.NodeCount.{IsNoType};
ghost use Rattle.asn1_names.specs.TermViews.{module_terms};
ghost use Rattle.asn1_resolve.specs.FaultSets.{In, IsFirstOf};
ghost use Rattle.asn1_resolve.specs.TypeFaults.{NameFaults};

use crate::faults::{Home, fault_at};
use asn1_names::first_fault::{FaultKind, ModuleFault};
use asn1_names::name_tables::{Meaning, ModuleMeaning, NameTables};
use asn1_names::type_words::is_other_type_word;
use asn1_syntax::plain_type::TypeName;
use token_grammar::Token;

/// Whether a name means a type.
fn is_type(meaning: Meaning) -> bool
    ensures one { IsTrue result → (ms : List ModuleTerm) → (means : NameMeaning) → Means ms meaning means →
        ¬ (IsNoType means) }
    ensures no_type { IsFalse result → (ms : List ModuleTerm) → (means : NameMeaning) → Means ms meaning means →
        IsNoType means }
{
    match meaning {
        Meaning::TypeAt(_) => true,
        Meaning::Standard(_) => true,
        Meaning::ValueAt(_) => false,
        Meaning::Nothing => false,
    }
}

/// Whether a name means nothing.
pub fn is_nothing(meaning: Meaning) -> bool
    ensures nothing { IsTrue result → (ms : List ModuleTerm) → (means : NameMeaning) → Means ms meaning means →
        means ≡ NoMeaning }
    ensures something { IsFalse result → (ms : List ModuleTerm) → (means : NameMeaning) → Means ms meaning means →
        means ≢ NoMeaning }
{
    match meaning {
        Meaning::Nothing => true,
        Meaning::TypeAt(_) => false,
        Meaning::ValueAt(_) => false,
        Meaning::Standard(_) => false,
    }
}

/// Whether a name is a word of ASN.1 for another type, which its module neither assigns nor imports.
fn is_other_type(tables: &NameTables, home: Home, name: &Token) -> bool
    ensures one { IsTrue result → IsOtherType (module_terms tables.now) home.module name.now }
    ensures no_other { IsFalse result → ¬ (IsOtherType (module_terms tables.now) home.module name.now) }
{
    let text = name.text.as_slice();
    if !is_other_type_word(text) {
        return false;
    }
    if tables.imports(home.module, text) {
        return false;
    }
    is_nothing(tables.assigned_in(home.module, text))
}

/// The fault of a name that stands alone.
fn judge_alone(tables: &NameTables, home: Home, name: &Token) -> Option<ModuleFault>
    ensures { IsFirstOf (In home.document (NameFaults (module_terms tables.now) home.module None name.now)) result }
{
    if is_type(tables.name_meaning(home.module, name.text.as_slice())) {
        return None;
    }
    if is_other_type(tables, home, name) {
        return Some(fault_at(home, name, FaultKind::TypeWord));
    }
    Some(fault_at(home, name, FaultKind::UnknownType))
}

/// The fault of a name within a module that is there.
fn judge_within(
    tables: &NameTables,
    home: Home,
    module_name: &Token,
    within: ModuleMeaning,
    name: &Token,
) -> Option<ModuleFault>
    ensures { module_meant within ≡ module_meaning (module_terms tables.now) module_name.now.text →
        module_meant within ≢ NoModule → IsFirstOf (In home.document
        (NameFaults (module_terms tables.now) home.module (Some module_name.now) name.now)) result }
{
    if is_type(tables.meaning_within(within, name.text.as_slice())) {
        return None;
    }
    Some(fault_at(home, name, FaultKind::UnknownType))
}

/// The fault of a name with its module.
fn judge_member(
    tables: &NameTables,
    home: Home,
    module_name: &Token,
    name: &Token,
) -> Option<ModuleFault>
    ensures { IsFirstOf (In home.document
        (NameFaults (module_terms tables.now) home.module (Some module_name.now) name.now)) result }
{
    let within = tables.module_meaning(module_name.text.as_slice());
    match within {
        ModuleMeaning::Nothing => Some(fault_at(home, module_name, FaultKind::UnknownModule)),
        ModuleMeaning::Standard => judge_within(tables, home, module_name, within, name),
        ModuleMeaning::At(_) => judge_within(tables, home, module_name, within, name),
    }
}

/// The fault of the name of a type.
pub fn judge_name(tables: &NameTables, home: Home, name: &TypeName) -> Option<ModuleFault>
    ensures { IsFirstOf (In home.document (NameFaults (module_terms tables.now) home.module (named_module name.now)
        (named_type name.now))) result }
{
    match &name.member {
        Some(member) => judge_member(tables, home, &name.name, member),
        None => judge_alone(tables, home, &name.name),
    }
}
