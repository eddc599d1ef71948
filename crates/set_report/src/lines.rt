//! The lines of a report (docs/PROFILE.md, section 19).

ghost use Rattle.std.specs.Prelude.{◌≡◌, ◌++◌, ℕ, [], OnOk, codes, decimal, flat_map};
ghost use Rattle.std.specs.Option.{option_copied, option_map_or};
ghost use Rattle.term_model.specs.LineTexts.{line_feed};
ghost use Rattle.set_report.specs.Labels.{label_in};
ghost use Rattle.set_report.specs.ReportLines.{attribute_line, bound_line, dotted, entry_line, entry_lines};
ghost use Rattle.set_report.specs.ReportLines.{letter, operations};
ghost use Rattle.set_report.specs.ReportLines.{type_lines, unregistered_line, unregistered_lines, yes_or_no};

use crate::labels::{Labels, label_of};
use itoa::Buffer;
use std::alloc::AllocError;
use term_model::Property;
use term_values::{Bytes, Oid};

/// The byte that ends each line.
const LINE_FEED: u8 = 10;

/// Appends an arc in decimal digits, without leading zeros.
fn write_arc(arc: u32, into: &mut Vec<u8>) -> Result<(), AllocError>
    ensures { OnOk result (into.new.items ≡ into.old.items ++ decimal arc) }
{
    let mut buffer = Buffer::new();
    into.extend_from_slice(buffer.format(arc).as_bytes())
}

/// Appends arcs, a point before each.
fn write_further_arcs(arcs: &[u32], into: &mut Vec<u8>) -> Result<(), AllocError>
    ensures { OnOk result (into.new.items
        ≡ into.old.items ++ flat_map (λ (arc : ℕ). codes "." ++ decimal arc) arcs.now) }
{
    for arc in arcs {
        into.extend_from_slice(b".")?;
        write_arc(*arc, into)?;
    }
    Ok(())
}

/// Appends an identifier in decimal arcs, with points between them.
pub(crate) fn write_dotted(id: &Oid, into: &mut Vec<u8>) -> Result<(), AllocError>
    ensures { OnOk result (into.new.items ≡ into.old.items ++ dotted id.now) }
{
    match id.arcs() {
        [] => Ok(()),
        [first, others @ ..] => {
            write_arc(*first, into)?;
            write_further_arcs(others, into)
        }
    }
}

/// Appends one line.
pub(crate) fn write_line(
    word: &[u8],
    id: &Oid,
    text: &[u8],
    into: &mut Vec<u8>,
) -> Result<(), AllocError>
    ensures { OnOk result (into.new.items ≡ into.old.items ++ entry_line word.now id.now text.now) }
{
    into.extend_from_slice(word)?;
    write_dotted(id, into)?;
    into.extend_from_slice(b" ")?;
    into.extend_from_slice(text)?;
    into.push(LINE_FEED)?;
    Ok(())
}

/// Appends a line for each identifier, with its label.
pub(crate) fn write_lines(
    word: &[u8],
    labels: &Labels,
    ids: &[Oid],
    into: &mut Vec<u8>,
) -> Result<(), AllocError>
    ensures { OnOk result (into.new.items
        ≡ into.old.items ++ entry_lines word.now (label_in labels.now) ids.now) }
{
    for id in ids {
        write_line(word, id, label_of(labels, id), into)?;
    }
    Ok(())
}

/// Appends a line for each type that is named for an identifier.
pub(crate) fn write_types(
    word: &[u8],
    id: &Oid,
    types: &[Bytes],
    into: &mut Vec<u8>,
) -> Result<(), AllocError>
    ensures { OnOk result (into.new.items ≡ into.old.items ++ type_lines word.now id.now types.now) }
{
    for of_type in types {
        write_line(word, id, of_type.as_slice(), into)?;
    }
    Ok(())
}

/// Appends a word, a text, and the end of the line.
fn write_words(word: &[u8], text: &[u8], into: &mut Vec<u8>) -> Result<(), AllocError>
    ensures { OnOk result (into.new.items ≡ into.old.items ++ (word.now ++ (text.now ++ line_feed))) }
{
    into.extend_from_slice(word)?;
    into.extend_from_slice(text)?;
    into.push(LINE_FEED)?;
    Ok(())
}

/// Appends the line of a package that isn't registered.
#[tactic(auto, unfolding(crate::specs::ReportLines::unregistered_line))]
fn write_dash(label: &[u8], into: &mut Vec<u8>) -> Result<(), AllocError>
    ensures { OnOk result (into.new.items ≡ into.old.items ++ unregistered_line label.now) }
{
    write_words(b" conditional - ", label, into)
}

/// Appends a line for each package that isn't registered.
pub(crate) fn write_unregistered(labels: &[Bytes], into: &mut Vec<u8>) -> Result<(), AllocError>
    ensures { OnOk result (into.new.items ≡ into.old.items ++ unregistered_lines labels.now) }
{
    for label in labels {
        write_dash(label.as_slice(), into)?;
    }
    Ok(())
}

/// Appends the letter of an operation that is allowed.
fn write_letter(allowed: bool, of_operation: u8, into: &mut Vec<u8>) -> Result<(), AllocError>
    ensures { OnOk result (into.new.items ≡ into.old.items ++ letter allowed of_operation) }
{
    if allowed {
        into.push(of_operation)?;
    }
    Ok(())
}

/// Appends the operations that managers may ask for.
fn write_operations(property: &Property, into: &mut Vec<u8>) -> Result<(), AllocError>
    ensures { OnOk result (into.new.items ≡ into.old.items ++ operations property.now) }
{
    write_letter(property.get, b'G', into)?;
    write_letter(property.replace, b'R', into)?;
    write_letter(property.add, b'A', into)?;
    write_letter(property.remove, b'M', into)?;
    write_letter(property.set_to_default, b'D', into)
}

/// Appends the operations of an attribute, where it has properties, and ends the line.
fn end_with_operations(property: Option<&Property>, into: &mut Vec<u8>) -> Result<(), AllocError>
    ensures { OnOk result (into.new.items
        ≡ into.old.items ++ (option_map_or operations (option_copied property.entry) [] ++ line_feed)) }
{
    if let Some(property) = property {
        write_operations(property, into)?;
    }
    into.push(LINE_FEED)?;
    Ok(())
}

/// Appends the line of an attribute.
#[tactic(auto, unfolding(crate::specs::ReportLines::attribute_line))]
pub(crate) fn write_attribute_line(
    id: &Oid,
    label: &[u8],
    property: Option<&Property>,
    into: &mut Vec<u8>,
) -> Result<(), AllocError>
    ensures { OnOk result (into.new.items
        ≡ into.old.items ++ attribute_line id.now label.now (option_copied property.entry)) }
{
    into.extend_from_slice(b" attribute ")?;
    write_dotted(id, into)?;
    into.extend_from_slice(b" ")?;
    into.extend_from_slice(label)?;
    into.extend_from_slice(b" ")?;
    end_with_operations(property, into)
}

/// Appends whether the class with a label is one that the agent acts on.
pub(crate) fn write_bound(label: &[u8], bound: bool, into: &mut Vec<u8>) -> Result<(), AllocError>
    ensures { OnOk result (into.new.items ≡ into.old.items ++ bound_line label.now bound) }
{
    into.extend_from_slice(b"bound ")?;
    into.extend_from_slice(label)?;
    into.extend_from_slice(b" ")?;
    into.extend_from_slice(if bound { b"yes" } else { b"no" })?;
    into.push(LINE_FEED)?;
    Ok(())
}
