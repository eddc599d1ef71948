//! What is wrong with the properties of classes: unequal defaults, and attributes of which no value is permitted
//! (X.722, section 8.4; docs/PROFILE.md, section 18).

ghost use Rattle.std.specs.Prelude.{◌≡◌, ◌++◌, ◌||◌, [], List, Some, true};
ghost use Rattle.std.specs.Prelude.{IfOk, MatchBool, OnOk, option_to_list};
ghost use Rattle.std.specs.Option.{option_copied};
ghost use Rattle.term_model.specs.WholeRecords.{IsNotEmpty};
ghost use Rattle.term_values.specs.Syntaxes.{TypeSyntax};
ghost use Rattle.asn1_names.specs.ModuleTerms.{ModuleTerm};
ghost use Rattle.class_faults.specs.FaultSets.{Notes, OneFault};
ghost use Rattle.class_faults.specs.NotedFaults.{kind_of};
ghost use Rattle.permitted_bounds.specs.LeftBounds.{IsLeft};
ghost use Rattle.joined_properties.specs.ClassProperties.{ArePropertiesOfAll};
ghost use Rattle.joined_properties.specs.OwnStatements.{Stated};
ghost use Rattle.linked_types.specs.KnownParts.{AreClosingParts};
ghost use Rattle.linked_types.specs.TypeTables.{syntax_at};
ghost use Rattle.package_statements.specs.PackageStatements.{AreStated};
ghost use Rattle.property_faults.specs.PropertyFaults.{PropertyFaults};
ghost use Rattle.property_faults.specs.TableFaults.{NothingLeft, SomeEmpty, SomeUnequal, TableFaults};
ghost use Rattle.property_faults.specs.TableFaults.{is_any_unequal, is_unequal, types_at};

use class_faults::{FaultKind, Faults};
use joined_statements::{Held, Joined, JoinedAttributes};
use linked_parts::linked::LinkedHead;
use linked_types::{ClosingParts, TypeTable};
use permitted_bounds::Permitted;
use std::alloc::{AllocError, Global};
use std::collections::BTreeSet;
use term_values::Syntax;

/// Whether unequal values are held.
fn is_unequal(held: Held) -> bool
    ensures { result ≡ is_unequal held }
{
    match held {
        Held::Unequal => true,
        _ => false,
    }
}

/// Whether two defaults, or two initial values, are unequal.
fn is_any_unequal(joined: &Joined) -> bool
    ensures { result ≡ is_any_unequal joined.now }
{
    is_unequal(joined.default) || is_unequal(joined.initial)
}

/// Whether those of some attribute are.
fn is_some_unequal(properties: &JoinedAttributes) -> bool
    ensures { MatchBool result (SomeUnequal properties.now) (¬ SomeUnequal properties.now) }
{
    for (_, joined) in properties.iter() {
        let unequal = is_any_unequal(joined);
        if unequal {
            return true;
        }
    }
    false
}

/// What the type at a place leaves.
fn narrowed_by(
    alloc: Global,
    table: &TypeTable,
    before: Permitted,
    place: usize,
) -> Result<Permitted, AllocError>
    ensures { IfOk result (λ left. (syntax : TypeSyntax) (types : List TypeSyntax) → IsLeft syntax types before →
        IsLeft syntax (types ++ option_to_list (syntax_at table.now (Some place))) left) }
{
    match table.syntax(Some(place)) {
        Some(further) => before.narrowed(alloc, further),
        None => Ok(before),
    }
}

/// What the types at places leave.
fn narrowed(
    alloc: Global,
    table: &TypeTable,
    permitted: Permitted,
    places: &BTreeSet<usize>,
) -> Result<Permitted, AllocError>
    ensures { IfOk result (λ left. (syntax : TypeSyntax) → IsLeft syntax [] permitted →
        IsLeft syntax (types_at table.now places.now.keys) left) }
{
    let mut left = permitted;
    for place in places.iter() {
        left = narrowed_by(alloc, table, left, *place)?;
    }
    Ok(left)
}

/// Whether the types at places leave nothing of a syntax.
fn is_emptied(
    alloc: Global,
    table: &TypeTable,
    syntax: &Syntax,
    places: &BTreeSet<usize>,
) -> Result<bool, AllocError>
    ensures { IfOk result (λ empty. MatchBool empty
        (¬ IsNotEmpty syntax.now (types_at table.now places.now.keys))
        (IsNotEmpty syntax.now (types_at table.now places.now.keys))) }
{
    match Permitted::of(alloc, syntax)? {
        Some(permitted) => {
            let left = narrowed(alloc, table, permitted, places)?;
            Ok(left.is_empty())
        }
        None => Ok(false),
    }
}

/// Whether they leave nothing of the syntax of an attribute.
fn is_nothing_left(
    parts: &ClosingParts,
    attribute: usize,
    places: &BTreeSet<usize>,
) -> Result<bool, AllocError>
    ensures { IfOk result (λ empty. (ms : List ModuleTerm) → AreClosingParts ms parts.now → MatchBool empty
        (NothingLeft ms parts.now.linked.now parts.now.table.now attribute places.now)
        (¬ NothingLeft ms parts.now.linked.now parts.now.table.now attribute places.now)) }
{
    match parts.attribute_syntax(attribute) {
        Some(syntax) => is_emptied(parts.alloc, parts.table, syntax, places),
        None => Ok(false),
    }
}

/// Whether of some attribute no value is permitted.
fn is_some_empty(parts: &ClosingParts, properties: &JoinedAttributes) -> Result<bool, AllocError>
    ensures { IfOk result (λ empty. (ms : List ModuleTerm) → AreClosingParts ms parts.now → MatchBool empty
        (SomeEmpty ms parts.now.linked.now parts.now.table.now properties.now)
        (¬ SomeEmpty ms parts.now.linked.now parts.now.table.now properties.now)) }
{
    for (attribute, joined) in properties.iter() {
        let empty = is_nothing_left(parts, *attribute, &joined.permitted)?;
        if empty {
            return Ok(true);
        }
    }
    Ok(false)
}

/// Notes that this is wrong at the label of a class, where it was found.
fn note_where(found: bool, head: &LinkedHead, kind: FaultKind, faults: &mut Faults)
    ensures { Notes (OneFault (found ≡ true) (kind_of kind) head.now.document head.now.label.at)
        faults.old.first faults.new.first }
{
    if found {
        return faults.note(head.document, &head.label, kind);
    }
}

/// Notes what is wrong with the properties of a class, by its table, where it has one.
fn note_class(
    parts: &ClosingParts,
    head: &LinkedHead,
    properties: Option<&JoinedAttributes>,
    faults: &mut Faults,
) -> Result<(), AllocError>
    ensures { OnOk result ((ms : List ModuleTerm) → AreClosingParts ms parts.now → Notes
        (TableFaults ms parts.now.linked.now parts.now.table.now (option_copied properties.entry) head.now)
        faults.old.first faults.new.first) }
{
    let Some(own) = properties else {
        return Ok(());
    };
    let unequal = is_some_unequal(own);
    let empty = is_some_empty(parts, own)?;
    note_where(unequal, head, FaultKind::UnequalDefault, faults);
    note_where(empty, head, FaultKind::EmptyPermitted, faults);
    Ok(())
}

/// Notes what is wrong with the properties of classes, each at its label.
pub fn note_classes(
    parts: &ClosingParts,
    properties: &[JoinedAttributes],
    faults: &mut Faults,
) -> Result<(), AllocError>
    ensures { OnOk result ((ms : List ModuleTerm) (stated : Stated) → AreClosingParts ms parts.now →
        AreStated ms parts.now.linked.now parts.now.table.now parts.now.values.now
        parts.now.linked.now.packages.items stated → ArePropertiesOfAll parts.now.values.now
        parts.now.linked.now.classes.items stated properties.now →
        Notes (PropertyFaults ms parts.now.linked.now) faults.old.first faults.new.first) }
{
    let classes = parts.linked.classes.as_slice();
    for (place, class) in classes.iter().enumerate() {
        note_class(parts, &class.head, properties.get(place), faults)?;
    }
    Ok(())
}
