//! With which first names the object identifiers begin that stand in the value of a CMISFilter (X.711, section 7.5).

ghost use Rattle.std.specs.Prelude.{◌≡◌, ◌↔◌, option_map};
ghost use Rattle.token_grammar.specs.declared.token.Token.{Token as AToken};
ghost use Rattle.token_grammar.specs.Form.{Tree};
ghost use Rattle.term_values.specs.CmipTypes.{attribute, piece};
ghost use Rattle.term_values.specs.Syntaxes.{TypeSyntax};
ghost use Rattle.asn1_names.specs.StandardModule.{is_same_name};
ghost use Rattle.asn1_values_syntax.specs.ValueTrees.{part_tree, value_tree};
ghost use Rattle.gdmo_names.specs.ValueNames.{BeginsIn};
ghost use Rattle.gdmo_begun_names.specs.BegunMarks.{Marks};
ghost use Rattle.gdmo_begun_names.specs.FilterPlaces.{BeginsAt, BeginsNamed, BeginsPlace, OwnArcs, filter_called};
ghost use Rattle.gdmo_begun_names.specs.FilterPlaces.{identifier_called, item_called, place_called, place_syntax};
ghost use Rattle.gdmo_begun_names.specs.FilterPlaces.{substring_called};
ghost use Rattle.gdmo_begun_names.specs.PartNames.{BeginsPart, CanBePart, IsElement};

use crate::begun_names::{BegunNames, is_named};
use asn1_values_syntax::value::{BracesText, NamedValue, ValuePart, ValueText};

/// What can stand in a filter that object identifiers stand in.
#[derive(Clone, Copy, Drop)]
pub enum FilterPlace {
    /// A filter.
    Filter,
    /// The filters that `and` or `or` joins.
    Members,
    /// An item.
    Item,
    /// An assertion of an attribute.
    Assertion,
    /// The identifier of an attribute.
    Identifier,
    /// The pieces of a substrings item.
    Substrings,
    /// One of these.
    Substring,
    /// What stands in it.
    Piece,
    /// The identifier in globalForm.
    Arcs,
    /// The identifier in localForm.
    Number,
}

/// What stands in the alternative of a filter.
#[tactic(auto, unfolding(crate::specs::FilterPlaces::filter_called))]
fn filter_called(name: &[u8]) -> Option<FilterPlace>
    ensures { option_map place_syntax result ≡ filter_called name.now }
{
    if is_named(name, "item") {
        Some(FilterPlace::Item)
    } else if is_named(name, "and") {
        Some(FilterPlace::Members)
    } else if is_named(name, "or") {
        Some(FilterPlace::Members)
    } else if is_named(name, "not") {
        Some(FilterPlace::Filter)
    } else {
        None
    }
}

/// What stands in the alternative of an item.
#[tactic(auto, unfolding(crate::specs::FilterPlaces::item_called))]
fn item_called(name: &[u8]) -> Option<FilterPlace>
    ensures { option_map place_syntax result ≡ item_called name.now }
{
    if is_named(name, "equality") {
        Some(FilterPlace::Assertion)
    } else if is_named(name, "substrings") {
        Some(FilterPlace::Substrings)
    } else if is_named(name, "greaterOrEqual") {
        Some(FilterPlace::Assertion)
    } else if is_named(name, "lessOrEqual") {
        Some(FilterPlace::Assertion)
    } else if is_named(name, "present") {
        Some(FilterPlace::Identifier)
    } else if is_named(name, "subsetOf") {
        Some(FilterPlace::Assertion)
    } else if is_named(name, "supersetOf") {
        Some(FilterPlace::Assertion)
    } else if is_named(name, "nonNullSetIntersection") {
        Some(FilterPlace::Assertion)
    } else {
        None
    }
}

/// What stands in the alternative of a piece of a substrings item.
#[tactic(auto, unfolding(crate::specs::FilterPlaces::substring_called))]
fn substring_called(name: &[u8]) -> Option<FilterPlace>
    ensures { option_map place_syntax result ≡ substring_called name.now }
{
    if is_named(name, "initial") {
        Some(FilterPlace::Piece)
    } else if is_named(name, "any") {
        Some(FilterPlace::Piece)
    } else if is_named(name, "final") {
        Some(FilterPlace::Piece)
    } else {
        None
    }
}

/// What stands in the alternative of an identifier.
#[tactic(auto, unfolding(crate::specs::FilterPlaces::identifier_called))]
fn identifier_called(name: &[u8]) -> Option<FilterPlace>
    ensures { option_map place_syntax result ≡ identifier_called name.now }
{
    if is_named(name, "globalForm") {
        Some(FilterPlace::Arcs)
    } else if is_named(name, "localForm") {
        Some(FilterPlace::Number)
    } else {
        None
    }
}

/// What stands in the alternative of a name.
fn place_called(place: FilterPlace, name: &[u8]) -> Option<FilterPlace>
    ensures { option_map place_syntax result ≡ place_called place name.now }
{
    match place {
        FilterPlace::Filter => filter_called(name),
        FilterPlace::Item => item_called(name),
        FilterPlace::Substring => substring_called(name),
        FilterPlace::Identifier => identifier_called(name),
        FilterPlace::Members => None,
        FilterPlace::Assertion => None,
        FilterPlace::Substrings => None,
        FilterPlace::Piece => None,
        FilterPlace::Arcs => None,
        FilterPlace::Number => None,
    }
}

/// A place, where a part has no name.
fn where_unnamed(name: &[u8], place: FilterPlace) -> Option<FilterPlace>
    ensures { (value : Tree) (first : AToken) → BeginsAt result value first ↔
        ((syntax : TypeSyntax) × IsElement (place_syntax place) name.now syntax × BeginsIn first syntax value) }
{
    if name.is_empty() { Some(place) } else { None }
}

/// What stands in a component of a piece.
fn piece_part(name: &[u8]) -> Option<FilterPlace>
    ensures { (value : Tree) (first : AToken) → BeginsAt result value first ↔
        BeginsNamed piece name.now value first }
{
    if name.is_empty() {
        Some(FilterPlace::Identifier)
    } else {
        None
    }
}

/// What stands in a component of an assertion.
fn assertion_part(name: &[u8]) -> Option<FilterPlace>
    ensures { (value : Tree) (first : AToken) → BeginsAt result value first ↔
        BeginsNamed attribute name.now value first }
{
    if is_named(name, "attributeId") {
        Some(FilterPlace::Identifier)
    } else {
        None
    }
}

/// What stands in a part that has this name, empty where it has none.
fn place_of_part(place: FilterPlace, name: &[u8]) -> Option<FilterPlace>
    ensures { (value : Tree) (first : AToken) → BeginsAt result value first ↔
        BeginsNamed (place_syntax place) name.now value first }
{
    match place {
        FilterPlace::Members => where_unnamed(name, FilterPlace::Filter),
        FilterPlace::Substrings => where_unnamed(name, FilterPlace::Substring),
        FilterPlace::Piece => piece_part(name),
        FilterPlace::Assertion => assertion_part(name),
        FilterPlace::Filter => None,
        FilterPlace::Item => None,
        FilterPlace::Substring => None,
        FilterPlace::Identifier => None,
        FilterPlace::Arcs => None,
        FilterPlace::Number => None,
    }
}

/// Marks the name of a place that is an object identifier.
fn mark_own(names: &mut BegunNames, place: FilterPlace, value: &ValueText)
    ensures { Marks (OwnArcs place (value_tree value.now)) names.old names.new }
{
    match place {
        FilterPlace::Arcs => names.mark_arcs(value),
        FilterPlace::Filter => {}
        FilterPlace::Members => {}
        FilterPlace::Item => {}
        FilterPlace::Assertion => {}
        FilterPlace::Identifier => {}
        FilterPlace::Substrings => {}
        FilterPlace::Substring => {}
        FilterPlace::Piece => {}
        FilterPlace::Number => {}
    }
}

/// Marks the names in a part of a value in a filter.
#[cycle(begun_filters)]
fn mark_part_at(names: &mut BegunNames, place: FilterPlace, part: &ValuePart)
    ensures { Marks (BeginsPart (CanBePart (place_syntax place)) (part_tree part.now)) names.old names.new }
{
    match part {
        ValuePart::Named { name, value } => match place_of_part(place, name.text.as_slice()) {
            Some(own) => mark_at(names, own, value),
            None => {}
        },
        ValuePart::Unnamed(value) => match place_of_part(place, "".as_bytes()) {
            Some(own) => mark_at(names, own, value),
            None => {}
        },
    }
}

/// Marks the names in a value that stands in a filter.
#[cycle(begun_filters)]
pub(crate) fn mark_at(names: &mut BegunNames, place: FilterPlace, value: &ValueText)
    ensures { Marks (BeginsPlace place (value_tree value.now)) names.old names.new }
{
    mark_own(names, place, value);
    match value {
        ValueText::Literal(_) => {}
        ValueText::Number(_) => {}
        ValueText::Named(named) => match named {
            NamedValue::Name(_) => {}
            NamedValue::Choice { name, value } => match place_called(place, name.text.as_slice()) {
                Some(own) => mark_at(names, own, value),
                None => {}
            },
        },
        ValueText::Braces { content, .. } => match content {
            BracesText::Nothing => {}
            BracesText::Parts(parts) => {
                for part in parts.iter() {
                    mark_part_at(names, place, part);
                }
            }
            BracesText::Arcs(_) => {}
            BracesText::NamedArcs { .. } => {}
        },
    }
}
