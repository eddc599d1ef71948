//! Writes the values of which APDUs are made: X.690, section 8.1. Written backwards, the contents stand there when
//! their length is written, so that no part goes from buffer to buffer.
#![tactic(auto, using(crate::proofs::Extending::extending))]

ghost use Rattle.std.specs.Prelude.{◌≡◌, ◌++◌, OnOk, false, reverse};
ghost use Rattle.term_values.specs.Der.{encoded};
ghost use Rattle.term_values.specs.Octets.{integer_contents};
ghost use Rattle.term_values.specs.Oid.{oid_contents};
ghost use Rattle.ber_tree.specs.Writing.{Extends};

use crate::tree_writing::{
    reverse_from, write_backwards, write_header_backwards, write_identifier,
    write_integer_contents, write_length, write_oid_contents,
};
use std::alloc::AllocError;
use term_values::{Oid, Tag};

/// Appends the value of this form and tag with these contents octets.
pub fn write_value(
    constructed: bool,
    tag: Tag,
    contents: &[u8],
    into: &mut Vec<u8>,
) -> Result<(), AllocError>
    ensures { OnOk result (into.new.items ≡ into.old.items ++ encoded constructed tag contents.now) }
{
    write_identifier(constructed, tag, into)?;
    write_length(contents.len(), into)?;
    into.extend_from_slice(contents)
}

/// Appends the value of this form and tag with these contents octets, the last octet first.
pub fn write_value_backwards(
    constructed: bool,
    tag: Tag,
    contents: &[u8],
    into: &mut Vec<u8>,
) -> Result<(), AllocError>
    ensures written { OnOk result
        (into.new.items ≡ into.old.items ++ reverse (encoded constructed tag contents.now)) }
    ensures begun { Extends into.old.items into.new.items }
{
    write_backwards(contents, into)?;
    write_header_backwards(constructed, tag, contents.len(), into)
}

fn integer_contents_backwards(number: i64, into: &mut Vec<u8>) -> Result<(), AllocError>
    ensures written { OnOk result (into.new.items ≡ into.old.items ++ reverse (integer_contents number)) }
    ensures begun { Extends into.old.items into.new.items }
{
    let start = into.as_slice().len();
    write_integer_contents(number, into)?;
    reverse_from(start, into);
    Ok(())
}

/// Appends an INTEGER or an ENUMERATED under this tag, the last octet first.
pub fn write_integer_backwards(tag: Tag, number: i64, into: &mut Vec<u8>) -> Result<(), AllocError>
    ensures written { OnOk result
        (into.new.items ≡ into.old.items ++ reverse (encoded false tag (integer_contents number))) }
    ensures begun { Extends into.old.items into.new.items }
{
    let start = into.as_slice().len();
    integer_contents_backwards(number, into)?;
    let size = into.as_slice().len() - start;
    write_header_backwards(false, tag, size, into)
}

fn oid_contents_backwards(oid: &Oid, into: &mut Vec<u8>) -> Result<(), AllocError>
    ensures written { OnOk result (into.new.items ≡ into.old.items ++ reverse (oid_contents oid.now)) }
    ensures begun { Extends into.old.items into.new.items }
{
    let start = into.as_slice().len();
    write_oid_contents(oid, into)?;
    reverse_from(start, into);
    Ok(())
}

/// Appends an OBJECT IDENTIFIER under this tag, the last octet first.
pub fn write_oid_backwards(tag: Tag, oid: &Oid, into: &mut Vec<u8>) -> Result<(), AllocError>
    ensures written { OnOk result
        (into.new.items ≡ into.old.items ++ reverse (encoded false tag (oid_contents oid.now))) }
    ensures begun { Extends into.old.items into.new.items }
{
    let start = into.as_slice().len();
    oid_contents_backwards(oid, into)?;
    let size = into.as_slice().len() - start;
    write_header_backwards(false, tag, size, into)
}
