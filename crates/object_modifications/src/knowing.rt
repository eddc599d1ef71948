//! What is known of the values of an object's attributes, so that none is tried anew at each modification: X.711, section
//! 7.4, m-Set.

ghost use Rattle.std.specs.Prelude.{◌≡◌, ℕ, List, IfOk, get_or, replicate, set};
ghost use Rattle.term_values.specs.Lengths.{counted, octet_count};
ghost use Rattle.term_values.specs.Syntaxes.{TypeSyntax};
ghost use Rattle.term_values.specs.Written.{der};
ghost use Rattle.object_modifications.specs.declared.knowing.Knowledge.TheVariants as known;
ghost use Rattle.object_modifications.specs.Knowing.{Counts, Knows, forgotten};

use attribute_rules::permitted::is_permitted;
use fitting_members::{count_octets, length_by};
use std::alloc::{AllocError, Global};
use term_model::Property;
use term_values::{Syntax, Value, der_len};
use value_fits::fits;

/// What is known of an attribute's value.
#[derive(Clone, Copy)]
pub(crate) enum Knowledge {
    /// Nothing.
    Untried,
    /// It fits its syntax and is permitted, and the encodings of its members, where it is a set, take so many octets.
    Fits(u64),
    /// It doesn't fit, or isn't permitted.
    Misfits,
}

/// Nothing is known of so many values.
pub(crate) fn untried(alloc: Global, count: usize) -> Result<Vec<Knowledge>, AllocError>
    ensures { IfOk result (λ knowledge. knowledge.items ≡ replicate count known.Untried) }
{
    vec![in alloc; Knowledge::Untried; count]
}

/// What is known of the value at a place.
pub(crate) fn known_at(knowledge: &[Knowledge], place: usize) -> Knowledge
    ensures { result ≡ get_or knowledge.now place known.Untried }
{
    if place < knowledge.len() {
        knowledge[place]
    } else {
        Knowledge::Untried
    }
}

/// Notes what is known of the value at a place.
pub(crate) fn note(knowledge: &mut Vec<Knowledge>, place: usize, told: Knowledge)
    ensures { knowledge.new.items ≡ set knowledge.old.items place told }
{
    if place < knowledge.as_slice().len() {
        knowledge[place] = told;
    }
}

/// Forgets what is known of the values at these places.
pub(crate) fn forget(knowledge: &mut Vec<Knowledge>, places: &[usize])
    ensures { knowledge.new.items ≡ forgotten places.now knowledge.old.items }
{
    for place in places {
        note(knowledge, *place, Knowledge::Untried);
    }
}

/// What is known of a value that fits and is permitted, by the octets of its members: more than can be counted are not
/// known.
pub(crate) fn known_by(octets: u64) -> Knowledge
    ensures { (count : ℕ) → octets ≡ counted count → Counts count result }
{
    if octets < u64::MAX {
        Knowledge::Fits(octets)
    } else {
        Knowledge::Untried
    }
}

/// What is known of a value once it is tried.
fn tried_anew(
    alloc: Global,
    syntax: &Syntax,
    property: &Property,
    value: &Value,
) -> Result<Knowledge, AllocError>
    ensures { IfOk result (Knows syntax.now property.now.permitted value.now) }
{
    if !fits(alloc, syntax, value)? {
        return Ok(Knowledge::Misfits);
    }
    if !is_permitted(alloc, &property.permitted, value)? {
        return Ok(Knowledge::Misfits);
    }
    Ok(known_by(count_octets(syntax, value)))
}

/// What is known of a value, which is tried where nothing is known yet.
pub(crate) fn tried_once(
    alloc: Global,
    syntax: &Syntax,
    property: &Property,
    value: &Value,
    told: Knowledge,
) -> Result<Knowledge, AllocError>
    requires { Knows syntax.now property.now.permitted value.now told }
    ensures { IfOk result (Knows syntax.now property.now.permitted value.now) }
{
    match told {
        Knowledge::Untried => tried_anew(alloc, syntax, property, value),
        Knowledge::Fits(_) | Knowledge::Misfits => Ok(told),
    }
}

/// How many octets a value takes, by what is known of it.
pub(crate) fn known_length(syntax: &Syntax, value: &Value, told: Knowledge) -> u64
    ensures { (permitted : List TypeSyntax) → Knows syntax.now permitted value.now told
        → result ≡ octet_count (der syntax.now value.now) }
{
    match told {
        Knowledge::Fits(octets) => length_by(syntax, value, octets),
        Knowledge::Untried | Knowledge::Misfits => der_len(syntax, value),
    }
}
