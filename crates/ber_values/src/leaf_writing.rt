//! Writes values that hold no others in their one form, the last octet first: X.690, sections 8.2 to 8.8, 8.19 and
//! 8.23.
#![tactic(auto, using(ber_tree::proofs::Extending::extending))]

ghost use Rattle.std.specs.Prelude.{◌≡◌, ◌++◌, ◌≤◌, ◌-◌, OnOk, reverse, length, false};
ghost use Rattle.ber_tree.specs.Writing.{Extends};
ghost use Rattle.term_values.specs.Der.{encoded, identifier_octets, length_octets};
ghost use Rattle.term_values.specs.ValueContents.{truth_contents, whole_contents, bits_contents, octets_contents};
ghost use Rattle.term_values.specs.ValueContents.{identifier_contents, text_contents, time_contents, raw_octets};

use ber_tree::tree_writing::{
    reverse_from, write_backwards, write_header_backwards, write_integer_contents,
    write_oid_contents,
};
use std::alloc::AllocError;
use term_values::{Tag, Value, ValueForm};

fn truth_contents(value: &Value, into: &mut Vec<u8>) -> Result<(), AllocError>
    ensures written { OnOk result (into.new.items ≡ into.old.items ++ reverse (truth_contents value.now)) }
    ensures begun { Extends into.old.items into.new.items }
{
    match &value.form {
        ValueForm::Bool(holds) => into.push(if *holds { 255 } else { 0 })?,
        _ => {}
    }
    Ok(())
}

/// Appends a BOOLEAN, the last octet first.
pub fn write_truth(tag: Tag, value: &Value, into: &mut Vec<u8>) -> Result<(), AllocError>
    ensures written { OnOk result
        (into.new.items ≡ into.old.items ++ reverse (encoded false tag (truth_contents value.now))) }
    ensures begun { Extends into.old.items into.new.items }
{
    let start = into.as_slice().len();
    truth_contents(value, into)?;
    let size = into.as_slice().len() - start;
    write_header_backwards(false, tag, size, into)
}

fn whole_contents(value: &Value, into: &mut Vec<u8>) -> Result<(), AllocError>
    ensures written { OnOk result (into.new.items ≡ into.old.items ++ reverse (whole_contents value.now)) }
    ensures begun { Extends into.old.items into.new.items }
{
    let start = into.as_slice().len();
    match &value.form {
        ValueForm::Int(number) => write_integer_contents(*number, into)?,
        _ => {}
    }
    reverse_from(start, into);
    Ok(())
}

/// Appends an INTEGER or an ENUMERATED, the last octet first.
pub fn write_whole(tag: Tag, value: &Value, into: &mut Vec<u8>) -> Result<(), AllocError>
    ensures written { OnOk result
        (into.new.items ≡ into.old.items ++ reverse (encoded false tag (whole_contents value.now))) }
    ensures begun { Extends into.old.items into.new.items }
{
    let start = into.as_slice().len();
    whole_contents(value, into)?;
    let size = into.as_slice().len() - start;
    write_header_backwards(false, tag, size, into)
}

fn bits_contents(value: &Value, into: &mut Vec<u8>) -> Result<(), AllocError>
    ensures written { OnOk result (into.new.items ≡ into.old.items ++ reverse (bits_contents value.now)) }
    ensures begun { Extends into.old.items into.new.items }
{
    match &value.form {
        ValueForm::Bits(octets, unused) => {
            write_backwards(octets.as_slice(), into)?;
            into.push(*unused)?;
            Ok(())
        }
        _ => Ok(()),
    }
}

/// Appends a BIT STRING, the last octet first.
pub fn write_bits(tag: Tag, value: &Value, into: &mut Vec<u8>) -> Result<(), AllocError>
    ensures written { OnOk result
        (into.new.items ≡ into.old.items ++ reverse (encoded false tag (bits_contents value.now))) }
    ensures begun { Extends into.old.items into.new.items }
{
    let start = into.as_slice().len();
    bits_contents(value, into)?;
    let size = into.as_slice().len() - start;
    write_header_backwards(false, tag, size, into)
}

fn octets_contents(value: &Value, into: &mut Vec<u8>) -> Result<(), AllocError>
    ensures written { OnOk result (into.new.items ≡ into.old.items ++ reverse (octets_contents value.now)) }
    ensures begun { Extends into.old.items into.new.items }
{
    match &value.form {
        ValueForm::Octets(octets) => write_backwards(octets.as_slice(), into),
        _ => Ok(()),
    }
}

/// Appends an OCTET STRING, the last octet first.
pub fn write_octet_string(tag: Tag, value: &Value, into: &mut Vec<u8>) -> Result<(), AllocError>
    ensures written { OnOk result
        (into.new.items ≡ into.old.items ++ reverse (encoded false tag (octets_contents value.now))) }
    ensures begun { Extends into.old.items into.new.items }
{
    let start = into.as_slice().len();
    octets_contents(value, into)?;
    let size = into.as_slice().len() - start;
    write_header_backwards(false, tag, size, into)
}

fn identifier_contents(value: &Value, into: &mut Vec<u8>) -> Result<(), AllocError>
    ensures written { OnOk result (into.new.items ≡ into.old.items ++ reverse (identifier_contents value.now)) }
    ensures begun { Extends into.old.items into.new.items }
{
    let start = into.as_slice().len();
    match &value.form {
        ValueForm::Oid(id) => write_oid_contents(id, into)?,
        _ => {}
    }
    reverse_from(start, into);
    Ok(())
}

/// Appends an OBJECT IDENTIFIER, the last octet first.
pub fn write_identifier(tag: Tag, value: &Value, into: &mut Vec<u8>) -> Result<(), AllocError>
    ensures written { OnOk result
        (into.new.items ≡ into.old.items ++ reverse (encoded false tag (identifier_contents value.now))) }
    ensures begun { Extends into.old.items into.new.items }
{
    let start = into.as_slice().len();
    identifier_contents(value, into)?;
    let size = into.as_slice().len() - start;
    write_header_backwards(false, tag, size, into)
}

fn text_contents(value: &Value, into: &mut Vec<u8>) -> Result<(), AllocError>
    ensures written { OnOk result (into.new.items ≡ into.old.items ++ reverse (text_contents value.now)) }
    ensures begun { Extends into.old.items into.new.items }
{
    match &value.form {
        ValueForm::Text(octets) => write_backwards(octets.as_slice(), into),
        _ => Ok(()),
    }
}

/// Appends a text, the last octet first.
pub fn write_text(tag: Tag, value: &Value, into: &mut Vec<u8>) -> Result<(), AllocError>
    ensures written { OnOk result
        (into.new.items ≡ into.old.items ++ reverse (encoded false tag (text_contents value.now))) }
    ensures begun { Extends into.old.items into.new.items }
{
    let start = into.as_slice().len();
    text_contents(value, into)?;
    let size = into.as_slice().len() - start;
    write_header_backwards(false, tag, size, into)
}

fn time_contents(value: &Value, into: &mut Vec<u8>) -> Result<(), AllocError>
    ensures written { OnOk result (into.new.items ≡ into.old.items ++ reverse (time_contents value.now)) }
    ensures begun { Extends into.old.items into.new.items }
{
    match &value.form {
        ValueForm::Time(octets) => write_backwards(octets.as_slice(), into),
        _ => Ok(()),
    }
}

/// Appends a GeneralizedTime, the last octet first.
pub fn write_time(tag: Tag, value: &Value, into: &mut Vec<u8>) -> Result<(), AllocError>
    ensures written { OnOk result
        (into.new.items ≡ into.old.items ++ reverse (encoded false tag (time_contents value.now))) }
    ensures begun { Extends into.old.items into.new.items }
{
    let start = into.as_slice().len();
    time_contents(value, into)?;
    let size = into.as_slice().len() - start;
    write_header_backwards(false, tag, size, into)
}

/// Appends an ANY or a CMISFilter, the last octet first.
pub fn write_raw(value: &Value, into: &mut Vec<u8>) -> Result<(), AllocError>
    ensures written { OnOk result (into.new.items ≡ into.old.items ++ reverse (raw_octets value.now)) }
    ensures begun { Extends into.old.items into.new.items }
{
    match &value.form {
        ValueForm::Raw(octets) => write_backwards(octets.as_slice(), into),
        _ => Ok(()),
    }
}
