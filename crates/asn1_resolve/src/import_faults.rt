//! What is wrong in imports (X.680, section 13.1; docs/PROFILE.md, section 11).

ghost use Rattle.std.specs.Prelude.{◌≡◌, ◌≢◌, List, Some, map, slice_get};
ghost use Rattle.asn1_names.specs.CodeMeanings.{module_meant};
ghost use Rattle.asn1_names.specs.NameMeaning.{module_meaning};
ghost use Rattle.asn1_names.specs.NameMeaning.ModuleMeaning.{NoModule};
ghost use Rattle.asn1_names.specs.TermViews.{import_term, import_terms, module_terms};
ghost use Rattle.asn1_resolve.specs.AllFaults.{ImportFaults, SymbolFaults};
ghost use Rattle.asn1_resolve.specs.FaultSets.{AnyOf, In, IsFirstOf};

use crate::faults::{Home, earlier, fault_at};
use crate::name_faults::is_nothing;
use asn1_names::first_fault::{FaultKind, ModuleFault};
use asn1_names::name_tables::{ModuleMeaning, NameTables};
use asn1_syntax::module::{ImportedSymbols, Imports};
use token_grammar::Token;

/// The fault of a symbol that is imported from a module which is there.
fn judge_symbol(
    tables: &NameTables,
    home: Home,
    module_name: &Token,
    from: ModuleMeaning,
    symbol: &Token,
) -> Option<ModuleFault>
    ensures { module_meant from ≡ module_meaning (module_terms tables.now) module_name.now.text →
        module_meant from ≢ NoModule → IsFirstOf (In home.document
        (SymbolFaults (module_terms tables.now) module_name.now symbol.now)) result }
{
    if is_nothing(tables.meaning_within(from, symbol.text.as_slice())) {
        return Some(fault_at(home, symbol, FaultKind::UnknownType));
    }
    None
}

/// The first fault of the symbols that are imported from a module which is there.
fn judge_symbols(
    tables: &NameTables,
    home: Home,
    module_name: &Token,
    from: ModuleMeaning,
    symbols: &[Token],
) -> Option<ModuleFault>
    ensures { module_meant from ≡ module_meaning (module_terms tables.now) module_name.now.text →
        module_meant from ≢ NoModule → IsFirstOf (In home.document
        (AnyOf (SymbolFaults (module_terms tables.now) module_name.now) symbols.now)) result }
{
    let mut first = None;
    for symbol in symbols.iter() {
        first = earlier(first, judge_symbol(tables, home, module_name, from, symbol));
    }
    first
}

/// The first fault of what is imported from one module.
fn judge_import(tables: &NameTables, home: Home, group: &ImportedSymbols) -> Option<ModuleFault>
    ensures { IsFirstOf (In home.document (ImportFaults (module_terms tables.now) (import_term group.now))) result }
{
    let name = &group.module_name;
    let symbols = group.symbols.as_slice();
    let from = tables.module_meaning(name.text.as_slice());
    match from {
        ModuleMeaning::Nothing => Some(fault_at(home, name, FaultKind::UnknownModule)),
        ModuleMeaning::Standard => judge_symbols(tables, home, name, from, symbols),
        ModuleMeaning::At(_) => judge_symbols(tables, home, name, from, symbols),
    }
}

/// The first fault of further imports.
fn judge_groups(tables: &NameTables, home: Home, groups: &[ImportedSymbols]) -> Option<ModuleFault>
    ensures { IsFirstOf (In home.document
        (AnyOf (ImportFaults (module_terms tables.now)) (map import_term groups.now))) result }
{
    let mut first = None;
    for group in groups.iter() {
        first = earlier(first, judge_import(tables, home, group));
    }
    first
}

/// The first fault of the imports of a module.
pub fn judge_imports(
    tables: &NameTables,
    home: Home,
    imports: &Option<Imports>,
) -> Option<ModuleFault>
    ensures { IsFirstOf (In home.document
        (AnyOf (ImportFaults (module_terms tables.now)) (import_terms imports.now))) result }
{
    match imports {
        Some(imports) => {
            let own = judge_import(tables, home, &imports.first);
            let others = judge_groups(tables, home, imports.others.as_slice());
            earlier(own, others)
        }
        None => None,
    }
}
