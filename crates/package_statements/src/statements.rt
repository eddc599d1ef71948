//! What packages state of attributes: types by their places, values by the numbers of their assignments (X.722,
//! section 8.4; docs/PROFILE.md, section 18).

ghost use Rattle.std.specs.Prelude.{◌≡◌, ◌↔◌, ℕ, List, Some, IfOk, OnOk, false, true};
ghost use Rattle.std.specs.BTreeSet.{contains};
ghost use Rattle.std.specs.Ordering.{nat_cmp};
ghost use Rattle.asn1_names.specs.CodeMeanings.{IsValueNumber};
ghost use Rattle.asn1_names.specs.ModuleTerms.{ModuleTerm};
ghost use Rattle.linked_parts.specs.declared.linked.Linked.{Linked};
ghost use Rattle.linked_parts.specs.declared.linked.LinkedName.{LinkedName as NameTerm};
ghost use Rattle.filled_syntaxes.specs.AssignedValues.{AreAssignedValues};
ghost use Rattle.filled_syntaxes.specs.KnownThings.{AreNamedThings};
ghost use Rattle.filled_syntaxes.specs.LinkedMeanings.{linked_meaning};
ghost use Rattle.linked_types.specs.NotedDefaults.{BadDefaults};
ghost use Rattle.linked_types.specs.TypeTables.{IsTypeTable, NamesTypes};
ghost use Rattle.package_statements.specs.NamedValues.{TellsValueNumber, number_of};
ghost use Rattle.package_statements.specs.PackageStatements.{AreStated, AreStatementsOf, IsStatementOf};
ghost use Rattle.package_statements.specs.PackageStatements.{TellsHeld, TellsPlaces};

use asn1_names::Meaning;
use filled_syntaxes::{BadTexts, NamedThings};
use joined_properties::Statement;
use joined_statements::{AssignedValues, Held, Joined};
use linked_parts::linked::{LinkedName, LinkedPackage, LinkedUse};
use linked_types::TypeTable;
use std::alloc::{AllocError, Global};
use std::collections::BTreeSet;
use term_values::Value;

/// The number of the assignment of a value.
fn number_of(meaning: Meaning) -> Option<usize>
    ensures { result ≡ number_of meaning }
{
    match meaning {
        Meaning::TypeAt(_) => None,
        Meaning::ValueAt(number) => Some(number),
        Meaning::Standard(_) => None,
        Meaning::Nothing => None,
    }
}

/// The number of the assignment whose value a name means.
pub(crate) fn value_number(things: &NamedThings, name: &LinkedName) -> Option<usize>
    ensures { (ms : List ModuleTerm) (linked : Linked) → AreNamedThings ms linked things.now →
        TellsValueNumber ms linked name.now result }
{
    number_of(things.meaning(&name.meaning))
}

/// What is held of the assignment with this number.
fn held_at(values: &[Option<Value>], number: usize) -> Held
    ensures { (ms : List ModuleTerm) (linked : Linked) (name : NameTerm) → AreAssignedValues ms linked values.now →
        IsValueNumber ms number (linked_meaning ms name.meaning) → TellsHeld ms linked values.now (Some name) result }
{
    let assigned = AssignedValues { items: values };
    match assigned.value(number) {
        Some(_) => Held::One(number),
        None => Held::NoValue,
    }
}

/// What is held of a name that is stated.
fn named_held(things: &NamedThings, values: &[Option<Value>], name: &LinkedName) -> Held
    ensures { (ms : List ModuleTerm) (linked : Linked) → AreNamedThings ms linked things.now →
        AreAssignedValues ms linked values.now → TellsHeld ms linked values.now (Some name.now) result }
{
    match value_number(things, name) {
        Some(number) => held_at(values, number),
        None => Held::NoValue,
    }
}

/// What is held of a default, or an initial value.
fn held_by(things: &NamedThings, values: &[Option<Value>], name: &Option<LinkedName>) -> Held
    ensures { (ms : List ModuleTerm) (linked : Linked) → AreNamedThings ms linked things.now →
        AreAssignedValues ms linked values.now → TellsHeld ms linked values.now name.now result }
{
    match name {
        Some(name) => named_held(things, values, name),
        None => Held::Nothing,
    }
}

/// A place alone.
fn one_place(alloc: Global, place: usize) -> Result<BTreeSet<usize>, AllocError>
    ensures { IfOk result (λ places. (q : ℕ) → (contains nat_cmp places q ≡ true) ↔ (q ≡ place)) }
{
    let mut places = BTreeSet::new(alloc);
    places.insert(place)?;
    Ok(places)
}

/// The place of a type that is named, where one is.
fn type_places(
    things: &NamedThings,
    table: &mut TypeTable,
    name: &Option<LinkedName>,
    bad: &mut BadTexts,
) -> Result<BTreeSet<usize>, AllocError>
    ensures told { IfOk result (λ places. (ms : List ModuleTerm) (linked : Linked) →
        AreNamedThings ms linked things.now → IsTypeTable ms linked table.old →
        TellsPlaces ms linked table.new name.now places) }
    ensures names { OnOk result ((ms : List ModuleTerm) (linked : Linked) → AreNamedThings ms linked things.now →
        IsTypeTable ms linked table.old →
        NamesTypes ms linked (BadDefaults ms linked) table.old table.new bad.old.first bad.new.first) }
{
    match name {
        Some(name) => {
            let place = table.place(things, name, bad)?;
            Ok(one_place(things.alloc, place)?)
        }
        None => Ok(BTreeSet::new(things.alloc)),
    }
}

/// What is stated of an attribute.
fn statement_of(
    things: &NamedThings,
    values: &[Option<Value>],
    table: &mut TypeTable,
    stated: &LinkedUse,
    bad: &mut BadTexts,
) -> Result<Statement, AllocError>
    ensures told { IfOk result (λ statement. (ms : List ModuleTerm) (linked : Linked) →
        AreNamedThings ms linked things.now → AreAssignedValues ms linked values.now →
        IsTypeTable ms linked table.old → IsStatementOf ms linked table.new values.now stated.now statement) }
    ensures names { OnOk result ((ms : List ModuleTerm) (linked : Linked) → AreNamedThings ms linked things.now →
        IsTypeTable ms linked table.old →
        NamesTypes ms linked (BadDefaults ms linked) table.old table.new bad.old.first bad.new.first) }
{
    let permitted = type_places(things, table, &stated.permitted, bad)?;
    let required = type_places(things, table, &stated.required, bad)?;
    Ok(Statement {
        attribute: stated.attribute,
        joined: Joined {
            get: stated.get,
            replace: stated.replace,
            add: stated.add.is_some(),
            remove: stated.remove.is_some(),
            set_to_default: stated.set_to_default,
            default: held_by(things, values, &stated.default_value),
            initial: held_by(things, values, &stated.initial_value),
            permitted,
            required,
        },
    })
}

/// What a package states.
fn package_statements(
    things: &NamedThings,
    values: &[Option<Value>],
    table: &mut TypeTable,
    part: &LinkedPackage,
    bad: &mut BadTexts,
) -> Result<Vec<Statement>, AllocError>
    ensures told { IfOk result (λ statements. (ms : List ModuleTerm) (linked : Linked) →
        AreNamedThings ms linked things.now → AreAssignedValues ms linked values.now →
        IsTypeTable ms linked table.old → AreStatementsOf ms linked table.new values.now part.now statements) }
    ensures names { OnOk result ((ms : List ModuleTerm) (linked : Linked) → AreNamedThings ms linked things.now →
        IsTypeTable ms linked table.old →
        NamesTypes ms linked (BadDefaults ms linked) table.old table.new bad.old.first bad.new.first) }
{
    let mut statements = Vec::new(things.alloc);
    for stated in part.attributes.iter() {
        statements.push(statement_of(things, values, table, stated, bad)?)?;
    }
    Ok(statements)
}

/// What each package states, by its place. What stood in the table stays there; only texts of DEFAULT beside types are
/// noted that denote no value.
pub fn all_statements(
    things: &NamedThings,
    values: &[Option<Value>],
    table: &mut TypeTable,
    packages: &[LinkedPackage],
    bad: &mut BadTexts,
) -> Result<Vec<Vec<Statement>>, AllocError>
    ensures told { IfOk result (λ stated. (ms : List ModuleTerm) (linked : Linked) →
        AreNamedThings ms linked things.now → AreAssignedValues ms linked values.now →
        IsTypeTable ms linked table.old → AreStated ms linked table.new values.now packages.now stated.items) }
    ensures names { OnOk result ((ms : List ModuleTerm) (linked : Linked) → AreNamedThings ms linked things.now →
        IsTypeTable ms linked table.old →
        NamesTypes ms linked (BadDefaults ms linked) table.old table.new bad.old.first bad.new.first) }
{
    let mut statements = Vec::new(things.alloc);
    for part in packages {
        statements.push(package_statements(things, values, table, part, bad)?)?;
    }
    Ok(statements)
}
