//! Reads trees and contents octets: X.690, sections 8.1, 8.3 and 8.19.

ghost use Rattle.std.specs.Prelude.{ℕ, ℤ, List, [], ◌∷◌, ◌++◌, ◌≡◌, ◌+◌, ◌*◌, ◌^◌, ◌<◌, ◌≤◌, None, Some, Ok, Err, IfOk};
ghost use Rattle.std.specs.Prelude.{IfErr, IfSome, IfNone, IsTrue, option_map, nat_lt, if◌then◌else◌, length, take};
ghost use Rattle.std.specs.Prelude.{drop, map, slice_index, All, FitsSigned, true};
ghost use Rattle.std.specs.Int.{w64};
ghost use Rattle.term_values.specs.declared.ber_kind.BerKind.{BerKind};
ghost use Rattle.term_values.specs.FirstFault.{place_of, IsFirstFault};
ghost use Rattle.term_values.specs.BerReading.{stop_at, members, primitive_value, definite_value, indefinite_value};
ghost use Rattle.term_values.specs.BerReading.{reading, tree_at};
ghost use Rattle.term_values.specs.Ber.{most_depth};
ghost use Rattle.term_values.specs.Octets.{number, integer_contents, integer_in};
ghost use Rattle.term_values.specs.Tree.{TreeValue};
ghost use Rattle.ber_tree.specs.declared.ber_refusal.BerRefusal.TheVariants.{Fault};
ghost use Rattle.ber_tree.specs.Reading.{Answers, IsStop, IsFront, IsCause, Gives, body};
ghost use Rattle.term_values.specs.Oid.{subidentifier, oid_contents, is_oid, begins};
ghost use Rattle.ber_tree.specs.Subidentifiers.{grouped, IsSize};
ghost use Rattle.ber_tree.specs.Integers.{are_least, octet_turned};

use crate::ber_refusal::BerRefusal;
use crate::header_reading::{Header, read_header, when_cut};
use std::alloc::{AllocError, Global};
use term_values::oid::{MOST_ARCS, SECOND_ARCS};
use term_values::{BerKind, Bytes, Oid, Tag, Tree, Trees};

/// The most constructed values inside one another that are read, the outermost counted.
const MOST_DEPTH: usize = 32;

/// The most octets of an INTEGER of 64 bits.
const MOST_INTEGER_OCTETS: usize = 8;

/// The first bit of an octet, which is the sign of an INTEGER in its first octet.
const SIGN_BIT: u8 = 128;

/// The most octets of a subidentifier of 32 bits.
const MOST_SUBIDENTIFIER_OCTETS: usize = 5;

/// The first bit of an octet of a subidentifier, which says that more octets follow. The first octet has a further bit,
/// since there are as few octets as hold the number.
const MORE_FOLLOW: u8 = 128;

/// The greatest subidentifier that is read.
const MOST_SUBIDENTIFIER: u64 = 0xFFFF_FFFF;

/// The refusal that names a fault of what begins these octets, which stand before the place `end`.
fn refused(kind: BerKind, octets: &[u8], end: usize) -> BerRefusal
    requires { length octets.now ≤ end }
    ensures { result ≡ Fault (place_of kind octets.now end) kind }
{
    let at = match kind {
        BerKind::Truncated => end,
        _ => end - octets.len(),
    };
    BerRefusal::Fault {
        at: at as u64,
        kind,
    }
}

/// Where no further value of a constructed one begins, how many octets its end has, or the refusal; none where one
/// begins. `value` is the place of an indefinite one.
fn stop_at(
    value: Option<usize>,
    behind: Option<u32>,
    end: usize,
    octets: &[u8],
) -> Result<Option<usize>, BerRefusal>
    requires { length octets.now ≤ end }
    ensures { IsStop (stop_at value behind end octets.now) octets.now result }
{
    match (value, octets) {
        (None, []) => match behind {
            Some(0) => Ok(Some(0)),
            _ => Err(refused(BerKind::Truncated, octets, end)),
        },
        (None, _) => Ok(None),
        (Some(place), []) => Err(BerRefusal::Fault {
            at: place as u64,
            kind: BerKind::NoEnd,
        }),
        (Some(_), [0]) => Err(refused(when_cut(behind), octets, end)),
        (Some(_), [0, 0, ..]) => Ok(Some(2)),
        (Some(_), [0, ..]) => Err(refused(BerKind::BadLength, octets, end)),
        (Some(_), _) => Ok(None),
    }
}

/// The primitive value with this tag and length, whose contents begin these octets, and how many of them are its.
fn read_primitive(
    alloc: Global,
    octets: &[u8],
    end: usize,
    tag: Tag,
    extent: Option<u32>,
) -> Result<(Tree, usize), BerRefusal>
    requires { length octets.now ≤ end }
    ensures { Answers octets.now (primitive_value end tag extent octets.now) result }
{
    match extent {
        Some(size) if size as usize <= octets.len() => {
            let contents = Bytes::from_slice(alloc, &octets[..size as usize])?;
            Ok((Tree::primitive(tag, contents), size as usize))
        }
        _ => Err(refused(BerKind::Truncated, octets, end)),
    }
}

/// The value at the front of octets that stand before the place `end`, with at most `depth` constructed values inside
/// one another, and how many octets spell it.
#[cycle(reading)]
fn read_value(
    alloc: Global,
    octets: &[u8],
    behind: Option<u32>,
    end: usize,
    depth: usize,
) -> Result<(Tree, usize), BerRefusal>
    requires { length octets.now ≤ end }
    ensures { Answers octets.now (reading depth behind end octets.now) result }
{
    let header = match read_header(depth == 0, behind, octets) {
        Err(kind) => return Err(refused(kind, octets, end)),
        Ok(header) => header,
    };
    let place = end - octets.len();
    let (tree, size) = read_body(
        alloc,
        &octets[header.size..],
        behind,
        end,
        depth,
        place,
        header,
    )?;
    Ok((tree, header.size + size))
}

/// The value at this place with this header, whose contents begin these octets, and how many of them are its.
#[cycle(reading)]
fn read_body(
    alloc: Global,
    octets: &[u8],
    behind: Option<u32>,
    end: usize,
    depth: usize,
    place: usize,
    header: Header,
) -> Result<(Tree, usize), BerRefusal>
    requires { length octets.now ≤ end }
    ensures { Answers octets.now (body depth behind end place header octets.now) result }
{
    if depth == 0 || !header.constructed {
        return read_primitive(alloc, octets, end, header.tag, header.extent);
    }
    match header.extent {
        None => read_indefinite(alloc, octets, behind, end, depth - 1, place, header.tag),
        Some(size) => read_definite(alloc, octets, end, depth - 1, header.tag, size),
    }
}

/// The constructed value of this length, whose contents begin these octets, and how many of them are its.
#[cycle(reading)]
fn read_definite(
    alloc: Global,
    octets: &[u8],
    end: usize,
    depth: usize,
    tag: Tag,
    size: u32,
) -> Result<(Tree, usize), BerRefusal>
    requires { length octets.now ≤ end }
    ensures { Answers octets.now (definite_value (reading depth) end tag size octets.now) result }
{
    let there = octets.len().min(size as usize);
    let missing = size - there as u32;
    let stop = end - (octets.len() - there);
    let (inside, _) = read_inside(alloc, &octets[..there], Some(missing), stop, depth, None)?;
    Ok((Tree::constructed(tag, inside), there))
}

/// The constructed value of indefinite length at this place, whose contents begin these octets, and how many of them
/// are its.
#[cycle(reading)]
fn read_indefinite(
    alloc: Global,
    octets: &[u8],
    behind: Option<u32>,
    end: usize,
    depth: usize,
    place: usize,
    tag: Tag,
) -> Result<(Tree, usize), BerRefusal>
    requires { length octets.now ≤ end }
    ensures { Answers octets.now (indefinite_value (reading depth) behind end place tag octets.now) result }
{
    let (inside, size) = read_inside(alloc, octets, behind, end, depth, Some(place))?;
    Ok((Tree::constructed(tag, inside), size))
}

/// The values inside a constructed one, and how many octets spell them, with the end of contents of an indefinite one,
/// whose place is `value`.
#[cycle(reading)]
fn read_inside(
    alloc: Global,
    octets: &[u8],
    behind: Option<u32>,
    end: usize,
    depth: usize,
    value: Option<usize>,
) -> Result<(Trees, usize), BerRefusal>
    requires { length octets.now ≤ end }
    ensures { Answers octets.now
        (members (reading depth behind end) (stop_at value behind end) (length octets.now) octets.now) result }
{
    let mut items = Vec::new(alloc);
    let mut at = 0;
    'values: loop {
        if let Some(size) = stop_at(value, behind, end, &octets[at..])? {
            return Ok((Trees { items }, at + size));
        }
        let (tree, size) = read_value(alloc, &octets[at..], behind, end, depth)?;
        items.push(tree)?;
        at += size;
    }
}

/// The tree that the front of the bytes spells, and how many bytes spell it; or the first fault, where no front spells
/// a tree with at most 32 constructed values inside one another; or want of memory. The bytes are looked at once, from
/// the first one on, and contents octets are copied once. X.690, sections 8.1.2 to 8.1.5.
pub fn read_tree(alloc: Global, bytes: &[u8]) -> Result<(Tree, usize), BerRefusal>
    // what is answered is so
    ensures spells { IfOk result (IsFront bytes.now) }
    ensures fault { IfErr result (IsCause bytes.now) }

    // and what is so is answered
    ensures spelt { (tree : TreeValue) (size : ℕ) → IsFront bytes.now (tree, size) → Gives result (Ok (tree, size)) }
    ensures faulty { (at : ℕ) (kind : BerKind) → IsFirstFault bytes.now at kind → Gives result (Err (at, kind)) }

    // the reading says the same
    ensures read { Answers bytes.now (reading most_depth None (length bytes.now) bytes.now) result }
{
    read_value(alloc, bytes, None, bytes.len(), MOST_DEPTH)
}

/// The tree that the front of the bytes spells, and how many bytes spell it, or none. The only error is want of memory.
pub fn read_front_tree(alloc: Global, bytes: &[u8]) -> Result<Option<(Tree, usize)>, AllocError>
    ensures read { IfOk result
        (λ found. tree_at most_depth bytes.now ≡ option_map (λ f. (f.0, drop f.1 bytes.now)) found) }
    ensures within { IfOk result (λ found. IfSome found (λ f. f.1 ≤ length bytes.now)) }
{
    read_deep_tree(alloc, bytes, MOST_DEPTH)
}

/// The same of trees with at most `depth` constructed values inside one another. The recursion goes down what the bytes
/// nest, so a depth past 32 is for bytes that an operator's documents give, in values or in names.
pub fn read_deep_tree(
    alloc: Global,
    bytes: &[u8],
    depth: usize,
) -> Result<Option<(Tree, usize)>, AllocError>
    ensures read { IfOk result
        (λ found. tree_at depth bytes.now ≡ option_map (λ f. (f.0, drop f.1 bytes.now)) found) }
    ensures within { IfOk result (λ found. IfSome found (λ f. f.1 ≤ length bytes.now)) }
{
    match read_value(alloc, bytes, None, bytes.len(), depth) {
        Ok(found) => Ok(Some(found)),
        Err(BerRefusal::Fault { .. }) => Ok(None),
        Err(BerRefusal::Memory) => Err(AllocError),
    }
}

/// The first nine bits of the octets are not all equal, so that no octet can be left out. X.690, section 8.3.2.
fn are_least(octets: &[u8]) -> bool
    ensures { result ≡ are_least octets.now }
{
    match octets {
        [] => false,
        [_] => true,
        [first, second, ..] => {
            !(*first == 0 && *second < SIGN_BIT) && !(*first == 255 && *second >= SIGN_BIT)
        }
    }
}

/// The number that octets stand for, the bits of each turned where `negative` says so.
fn read_turned(octets: &[u8], negative: bool) -> u64
    requires { length octets.now ≤ 8 }
    ensures { result ≡ number (map (octet_turned negative) octets.now) }
{
    let mut value = 0u64;
    for octet in octets {
        let bits = if negative { 255 - *octet } else { *octet };
        value = value * 256 + u64::from(bits);
    }
    value
}

/// The value of an INTEGER's contents octets, or none where they are not the least octets that hold a value of 64 bits
/// in two's complement. X.690, section 8.3.
pub fn read_integer_contents(octets: &[u8]) -> Option<i64>
    ensures found { IfSome result (λ value. octets.now ≡ integer_contents value) }
    ensures none { IfNone result
        ((value : ℤ) → FitsSigned w64 value → octets.now ≡ integer_contents value → ⊥) }
    ensures value { result ≡ integer_in octets.now }
{
    if octets.len() > MOST_INTEGER_OCTETS || !are_least(octets) {
        return None;
    }
    let negative = *octets.first()? >= SIGN_BIT;
    let value = read_turned(octets, negative) as i64;
    Some(if negative { -1 - value } else { value })
}

/// How many octets stand up to the first one that says that no more follow, or none where these are more than five or
/// all say that more follow.
fn subidentifier_size(octets: &[u8]) -> Option<usize>
    ensures found { IfSome result (IsSize octets.now) }
    ensures none { IfNone result
        ((k : ℕ) → k < 5 → k < length octets.now → 128 ≤ slice_index octets.now k) }
{
    for (i, octet) in octets.iter().enumerate() {
        if i == MOST_SUBIDENTIFIER_OCTETS {
            return None;
        }
        if *octet < MORE_FOLLOW {
            return Some(i + 1);
        }
    }
    None
}

/// The number that groups of seven bits stand for.
fn read_groups(octets: &[u8]) -> u64
    requires { length octets.now ≤ 5 }
    ensures { result ≡ grouped octets.now }
{
    let mut value = 0u64;
    for octet in octets {
        value = value * 128 + u64::from(*octet % MORE_FOLLOW);
    }
    value
}

/// The subidentifier at the front, and how many octets spell it; none where it is cut off, takes more octets than hold
/// it or is above 32 bits. X.690, section 8.19.2.
fn read_subidentifier(octets: &[u8]) -> Option<(u32, usize)>
    ensures found { IfSome result
        (λ f. (f.1 ≤ length octets.now) × (0 < f.1) × (take f.1 octets.now ≡ subidentifier f.0)) }
    ensures none { IfNone result
        ((n : ℕ) (rest : List ℕ) → n < 2 ^ 32 → octets.now ≡ subidentifier n ++ rest → ⊥) }
{
    let size = subidentifier_size(octets)?;
    if octets[0] == MORE_FOLLOW {
        return None;
    }
    let value = read_groups(&octets[..size]);
    if value > MOST_SUBIDENTIFIER {
        return None;
    }
    Some((value as u32, size))
}

/// The first two arcs, which one subidentifier holds. X.690, section 8.19.4.
fn first_arcs(number: u32) -> (u32, u32)
    ensures arcs { result.0 * 40 + result.1 ≡ number }
    ensures begun { begins result.0 result.1 ≡ true }
{
    if number < SECOND_ARCS {
        (0, number)
    } else if number < 2 * SECOND_ARCS {
        (1, number - SECOND_ARCS)
    } else {
        (2, number - 2 * SECOND_ARCS)
    }
}

/// The identifier whose contents octets these are, or none where they are those of no identifier of 2 to 64 arcs. The
/// only error is want of memory. X.690, section 8.19.
pub fn read_oid_contents(alloc: Global, octets: &[u8]) -> Result<Option<Oid>, AllocError>
    ensures found { IfOk result (λ found. IfSome found (λ oid. octets.now ≡ oid_contents oid)) }
    ensures none { IfOk result (λ found. IfNone found
        ((arcs : List ℕ) → IsTrue (is_oid arcs) → All (λ arc. arc < 2 ^ 32) arcs →
        octets.now ≡ oid_contents arcs → ⊥)) }
{
    let (number, size) = match read_subidentifier(octets) {
        None => return Ok(None),
        Some(front) => front,
    };
    let (first, second) = first_arcs(number);
    let mut arcs = vec![in alloc; first, second]?;
    let mut at = size;
    while at < octets.len() {
        match read_subidentifier(&octets[at..]) {
            Some((arc, size)) if arcs.as_slice().len() < MOST_ARCS => {
                arcs.push(arc)?;
                at += size;
            }
            _ => return Ok(None),
        }
    }
    Ok(Oid::from_arcs(arcs))
}
