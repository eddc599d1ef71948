//! Writes trees and contents octets in their one form: X.690, sections 8.1.2, 8.1.3, 8.3, 8.19 and 10.1.
#![tactic(auto, using(crate::proofs::Extending::extending))]

ghost use Rattle.std.specs.Prelude.{ℕ, ◌≡◌, ◌+◌, ◌<◌, ◌≤◌, ◌++◌, OnOk, OnErr, length, reverse, take, drop, vec_len};
ghost use Rattle.term_values.specs.Der.{identifier_octets, length_octets, written, written_all};
ghost use Rattle.term_values.specs.Octets.{count_unsigned, count_signed, integer_contents};
ghost use Rattle.term_values.specs.Oid.{subidentifier, oid_contents};
ghost use Rattle.ber_tree.specs.Writing.{group, last_octets, Extends};

use std::alloc::AllocError;
use term_values::oid::SECOND_ARCS;
use term_values::{Body, Oid, Tag, Tree, Trees};

/// How many classes there are, so that two bits hold one.
const CLASSES: u8 = 4;

/// The class stands above this bit of an identifier octet.
const CLASS_UNIT: u8 = 64;

/// The bit of an identifier octet that says that the value is constructed.
const CONSTRUCTED: u8 = 32;

/// The number in an identifier octet which says that the tag's number follows.
const HIGH_NUMBER: u32 = 31;

/// A length below this number is written in one octet.
const LONG_LENGTH: usize = 128;

/// Appends the group of seven bits that counts `unit`s, unless it and those before it are zero.
fn write_group(number: u32, unit: u32, into: &mut Vec<u8>) -> Result<(), AllocError>
    requires { 0 < unit }
    ensures written { OnOk result (into.new.items ≡ into.old.items ++ group unit number) }
    ensures begun { Extends into.old.items into.new.items }
{
    if number >= unit {
        into.push(128 + (number / unit % 128) as u8)?;
    }
    Ok(())
}

/// Appends a subidentifier: groups of seven bits, as few as hold the number. X.690, section 8.19.2.
pub fn write_subidentifier(number: u32, into: &mut Vec<u8>) -> Result<(), AllocError>
    ensures written { OnOk result (into.new.items ≡ into.old.items ++ subidentifier number) }
    ensures begun { Extends into.old.items into.new.items }
{
    write_group(number, 1 << 28, into)?;
    write_group(number, 1 << 21, into)?;
    write_group(number, 1 << 14, into)?;
    write_group(number, 1 << 7, into)?;
    into.push((number % 128) as u8)?;
    Ok(())
}

/// Appends the identifier octets of a tag: one for a number below 31, else the high form. X.690, section 8.1.2.
#[tactic(auto, using(crate::proofs::Extending::extending), unfolding(term_values::specs::Der::identifier_octets))]
pub fn write_identifier(constructed: bool, tag: Tag, into: &mut Vec<u8>) -> Result<(), AllocError>
    ensures written { OnOk result (into.new.items ≡ into.old.items ++ identifier_octets constructed tag) }
    ensures begun { Extends into.old.items into.new.items }
{
    let form = if constructed { CONSTRUCTED } else { 0 };
    let leading = tag.class % CLASSES * CLASS_UNIT + form;
    if tag.number < HIGH_NUMBER {
        into.push(leading + tag.number as u8)?;
        return Ok(());
    }
    into.push(leading + HIGH_NUMBER as u8)?;
    write_subidentifier(tag.number, into)
}

/// How many octets the number takes without a sign, at least one.
fn unsigned_octets(number: u64) -> u32
    ensures exact { result ≡ count_unsigned number }
    ensures within { result ≤ 8 }
{
    match number {
        0..=0xFF => 1,
        0x100..=0xFFFF => 2,
        0x1_0000..=0xFF_FFFF => 3,
        0x100_0000..=0xFFFF_FFFF => 4,
        0x1_0000_0000..=0xFF_FFFF_FFFF => 5,
        0x100_0000_0000..=0xFFFF_FFFF_FFFF => 6,
        0x1_0000_0000_0000..=0xFF_FFFF_FFFF_FFFF => 7,
        _ => 8,
    }
}

/// How many octets leave the first bit zero.
fn signed_octets(number: u64) -> u32
    ensures exact { result ≡ count_signed number }
    ensures within { result ≤ 8 }
{
    match number {
        0..=0x7F => 1,
        0x80..=0x7FFF => 2,
        0x8000..=0x7F_FFFF => 3,
        0x80_0000..=0x7FFF_FFFF => 4,
        0x8000_0000..=0x7F_FFFF_FFFF => 5,
        0x80_0000_0000..=0x7FFF_FFFF_FFFF => 6,
        0x8000_0000_0000..=0x7F_FFFF_FFFF_FFFF => 7,
        _ => 8,
    }
}

/// Appends the last `count` octets of a number, each with every bit turned where `turned` says so.
fn write_octets(count: u32, number: u64, turned: bool, into: &mut Vec<u8>) -> Result<(), AllocError>
    requires { count ≤ 8 }
    ensures written { OnOk result (into.new.items ≡ into.old.items ++ last_octets turned count number) }
    ensures begun { Extends into.old.items into.new.items }
{
    for place in (0..count).rev() {
        let octet = ((number >> (8 * place)) % 256) as u8;
        into.push(if turned { 255 - octet } else { octet })?;
    }
    Ok(())
}

/// Appends the length octets: the short form where it holds the length, else the long form. X.690, section 8.1.3.
#[tactic(auto, using(crate::proofs::Extending::extending), unfolding(term_values::specs::Der::length_octets))]
pub fn write_length(size: usize, into: &mut Vec<u8>) -> Result<(), AllocError>
    ensures written { OnOk result (into.new.items ≡ into.old.items ++ length_octets size) }
    ensures begun { Extends into.old.items into.new.items }
{
    if size < LONG_LENGTH {
        into.push(size as u8)?;
        return Ok(());
    }
    let count = unsigned_octets(size as u64);
    into.push(128 + count as u8)?;
    write_octets(count, size as u64, false, into)
}

/// Appends the contents octets of an INTEGER: two's complement, in as few octets as hold it. X.690, section 8.3.
#[tactic(auto, using(crate::proofs::Extending::extending), unfolding(term_values::specs::Octets::integer_contents))]
pub fn write_integer_contents(value: i64, into: &mut Vec<u8>) -> Result<(), AllocError>
    ensures written { OnOk result (into.new.items ≡ into.old.items ++ integer_contents value) }
    ensures begun { Extends into.old.items into.new.items }
{
    let negative = value < 0;
    let number = if negative {
        (-(value + 1)) as u64
    } else {
        value as u64
    };
    write_octets(signed_octets(number), number, negative, into)
}

/// Appends the contents octets of an OBJECT IDENTIFIER. X.690, section 8.19.
pub fn write_oid_contents(oid: &Oid, into: &mut Vec<u8>) -> Result<(), AllocError>
    ensures written { OnOk result (into.new.items ≡ into.old.items ++ oid_contents oid.now) }
    ensures begun { Extends into.old.items into.new.items }
{
    if let [first, second, others @ ..] = oid.arcs() {
        write_subidentifier(*first * SECOND_ARCS + *second, into)?;
        for arc in others {
            write_subidentifier(*arc, into)?;
        }
    }
    Ok(())
}

/// Turns the order of what stands behind the place `start`.
pub fn reverse_from(start: usize, into: &mut Vec<u8>)
    requires { start ≤ length into.old.items }
    ensures { into.new.items ≡ take start into.old.items ++ reverse (drop start into.old.items) }
{
    into[start..].reverse();
}

/// Appends the octets in their order from the back.
pub fn write_backwards(octets: &[u8], into: &mut Vec<u8>) -> Result<(), AllocError>
    ensures written { OnOk result (into.new.items ≡ into.old.items ++ reverse octets.now) }
    ensures begun { Extends into.old.items into.new.items }
{
    let start = into.as_slice().len();
    into.extend_from_slice(octets)?;
    reverse_from(start, into);
    Ok(())
}

/// Appends the identifier and length octets of a value, the last one first.
pub fn write_header_backwards(
    constructed: bool,
    tag: Tag,
    size: usize,
    into: &mut Vec<u8>,
) -> Result<(), AllocError>
    ensures written { OnOk result
        (into.new.items ≡ into.old.items ++ reverse (identifier_octets constructed tag ++ length_octets size)) }
    ensures begun { Extends into.old.items into.new.items }
{
    let start = into.as_slice().len();
    write_identifier(constructed, tag, into)?;
    write_length(size, into)?;
    reverse_from(start, into);
    Ok(())
}

/// Appends the octets of a tree, the last one first: the contents stand there when their length is written, so no part
/// of a tree is measured first, and each octet is moved three times at most.
#[cycle(writing)]
fn write_tree_backwards(tree: &Tree, into: &mut Vec<u8>) -> Result<(), AllocError>
    ensures written { OnOk result (into.new.items ≡ into.old.items ++ reverse (written tree.now)) }
    ensures begun { Extends into.old.items into.new.items }
{
    match &tree.body {
        Body::Prim(contents) => {
            let octets = contents.as_slice();
            write_backwards(octets, into)?;
            write_header_backwards(false, tree.tag, octets.len(), into)
        }
        Body::Cons(inside) => {
            let start = into.as_slice().len();
            write_trees_backwards(inside, into)?;
            let size = into.as_slice().len() - start;
            write_header_backwards(true, tree.tag, size, into)
        }
    }
}

/// Appends the octets of trees, the last one first.
#[cycle(writing)]
fn write_trees_backwards(trees: &Trees, into: &mut Vec<u8>) -> Result<(), AllocError>
    ensures written { OnOk result (into.new.items ≡ into.old.items ++ reverse (written_all trees.now)) }
    ensures begun { Extends into.old.items into.new.items }
{
    let items = trees.items.as_slice();
    for i in (0..items.len()).rev() {
        write_tree_backwards(&items[i], into)?;
    }
    Ok(())
}

/// Appends the octets of a tree in their one form. The cost is linear in what is appended. The only error is want of
/// memory, which leaves `into` as it was. X.690, sections 8.1.2, 8.1.3 and 10.1.
pub fn write_tree(tree: &Tree, into: &mut Vec<u8>) -> Result<(), AllocError>
    ensures written { OnOk result (into.new.items ≡ into.old.items ++ written tree.now) }
    ensures kept { OnErr result (into.new.items ≡ into.old.items) }
{
    let start = into.as_slice().len();
    match write_tree_backwards(tree, into) {
        Ok(()) => {
            reverse_from(start, into);
            Ok(())
        }
        Err(fault) => {
            into.truncate(start);
            Err(fault)
        }
    }
}
