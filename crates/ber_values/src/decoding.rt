//! The value of a syntax that a tree denotes: X.690, section 8.

ghost use Rattle.std.specs.Prelude.{◌≡◌, ◌<◌, true, false, not, zero, IfOk, IfSome, IfNone, Err, Some, None, drop};
ghost use Rattle.std.specs.Prelude.{length, get_or, set as list_set, option_map, option_and_then};
ghost use Rattle.ber_values.specs.Left.{slot_left_out, next_begins, left_of, next_slot};
ghost use Rattle.ber_values.specs.declared.decode_refusal.DecodeRefusal.TheVariants.{Misfit};
ghost use Rattle.term_values.specs.Beginnings.{begins};
ghost use Rattle.term_values.specs.Decoding.{denoted, value_in, under, within, one_in, picked_in, parts_in};
ghost use Rattle.term_values.specs.Decoding.{unordered_in, members_in, rising_by, sized_members, taken_out};
ghost use Rattle.term_values.specs.Der.{written};
ghost use Rattle.term_values.specs.LeafReading.{no_trees};
ghost use Rattle.term_values.specs.Syntaxes.TypeSyntax.{Any, Filter};
ghost use Rattle.term_values.specs.Tree.{TreeValue, listed};
ghost use Rattle.term_values.specs.Typed.TypedValue.{Parts as PartsValue, Raw};
ghost use Rattle.term_values.specs.UniversalTags.{sequence, set};
ghost use Rattle.term_values.specs.Written.{der};

use crate::decode_refusal::DecodeRefusal;
use crate::filter_reading::is_filter;
use crate::leaf_reading::{
    read_bit_string, read_identifier, read_named, read_null, read_octet_string, read_text,
    read_time, read_truth, read_whole,
};
use crate::member_order::rising_members;
use crate::tagging::{begins, is_due};
use ber_tree::tree_writing::write_tree;
use std::alloc::{AllocError, Global};
use std::boxed::Box;
use term_values::{
    Body, Bytes, Part, Parts, Ranges, Slot, Slots, Syntax, SyntaxForm, Tag, Tree, Trees, Value,
    ValueForm, Values,
};

/// The octets of a tree as an ANY keeps them.
fn raw(alloc: Global, tree: &Tree) -> Result<Value, AllocError>
    ensures { IfOk result (λ value. value ≡ Raw (written tree.now)) }
{
    let mut items = Vec::new(alloc);
    write_tree(tree, &mut items)?;
    Ok(Value {
        form: ValueForm::Raw(Bytes { items }),
    })
}

fn read_any(alloc: Global, replaced: bool, tree: &Tree) -> Result<Option<Value>, AllocError>
    ensures { IfOk result (λ found. found ≡ denoted replaced Any tree.now) }
{
    if replaced {
        Ok(None)
    } else {
        Ok(Some(raw(alloc, tree)?))
    }
}

fn read_filter(alloc: Global, replaced: bool, tree: &Tree) -> Result<Option<Value>, AllocError>
    ensures { IfOk result (λ found. found ≡ denoted replaced Filter tree.now) }
{
    if replaced {
        return Ok(None);
    }
    if is_filter(alloc, tree)? {
        Ok(Some(raw(alloc, tree)?))
    } else {
        Ok(None)
    }
}

/// The members, where there may be so many.
#[tactic(auto, using(crate::proofs::DecodingLaws::count_listed))]
fn sized(sizes: &Ranges, values: Values) -> Option<Value>
    ensures { result ≡ sized_members sizes.now values }
{
    if sizes.allow_size(values.items.as_slice().len()) {
        Some(Value {
            form: ValueForm::Many(values),
        })
    } else {
        None
    }
}

/// The value that the tree denotes, where its tag is its own, or an implicit one replaces it.
#[cycle(decoding)]
fn decode_as(
    alloc: Global,
    replaced: bool,
    syntax: &Syntax,
    tree: &Tree,
) -> Result<Option<Value>, AllocError>
    ensures { IfOk result (λ found. denoted replaced syntax.now tree.now ≡ found) }
{
    match &syntax.form {
        SyntaxForm::Bool => Ok(read_truth(replaced, tree)),
        SyntaxForm::Int(_, ranges) => Ok(read_whole(replaced, ranges, tree)),
        SyntaxForm::Enumerated(names) => Ok(read_named(replaced, names, tree)),
        SyntaxForm::Bits(_, sizes) => read_bit_string(alloc, replaced, sizes, tree),
        SyntaxForm::Octets(sizes) => read_octet_string(alloc, replaced, sizes, tree),
        SyntaxForm::Null => Ok(read_null(replaced, tree)),
        SyntaxForm::Oid => read_identifier(alloc, replaced, tree),
        SyntaxForm::Text(charset, sizes) => read_text(alloc, replaced, *charset, sizes, tree),
        SyntaxForm::Time => read_time(alloc, replaced, tree),
        SyntaxForm::Seq(parts) => decode_sequence(alloc, replaced, parts, tree),
        SyntaxForm::Unordered(parts) => decode_set(alloc, replaced, parts, tree),
        SyntaxForm::ListOf(member, sizes) => decode_list(alloc, replaced, member, sizes, tree),
        SyntaxForm::SetOf(member, sizes) => decode_set_of(alloc, replaced, member, sizes, tree),
        SyntaxForm::Choice(parts) => {
            if replaced {
                Ok(None)
            } else {
                decode_choice(alloc, parts, tree)
            }
        }
        SyntaxForm::Tagged(tag, explicit, inner) => {
            if !is_due(replaced, *tag, tree) {
                return Ok(None);
            }
            if !*explicit {
                return decode_as(alloc, true, inner, tree);
            }
            match &tree.body {
                Body::Prim(_) => Ok(None),
                Body::Cons(inside) => decode_one(alloc, inner, inside),
            }
        }
        SyntaxForm::Any => read_any(alloc, replaced, tree),
        SyntaxForm::Filter => read_filter(alloc, replaced, tree),
    }
}

/// The one value inside an explicit tag.
#[cycle(decoding)]
fn decode_one(alloc: Global, inner: &Syntax, inside: &Trees) -> Result<Option<Value>, AllocError>
    ensures { IfOk result (λ found. one_in (denoted false inner.now) inside.now ≡ found) }
{
    match inside.items.as_slice() {
        [] => Ok(None),
        [only] => decode_as(alloc, false, inner, only),
        [_, _, ..] => Ok(None),
    }
}

#[cycle(decoding)]
fn decode_sequence(
    alloc: Global,
    replaced: bool,
    parts: &Parts,
    tree: &Tree,
) -> Result<Option<Value>, AllocError>
    ensures { IfOk result (λ found.
        under replaced sequence (within (λ inside. option_map PartsValue (parts_in parts.now inside))) tree.now
        ≡ found) }
{
    if !is_due(replaced, Tag::SEQUENCE, tree) {
        return Ok(None);
    }
    match &tree.body {
        Body::Prim(_) => Ok(None),
        Body::Cons(inside) => match decode_parts(alloc, parts, inside)? {
            None => Ok(None),
            Some(slots) => Ok(Some(Value {
                form: ValueForm::Parts(slots),
            })),
        },
    }
}

#[cycle(decoding)]
fn decode_set(
    alloc: Global,
    replaced: bool,
    parts: &Parts,
    tree: &Tree,
) -> Result<Option<Value>, AllocError>
    ensures { IfOk result (λ found.
        under replaced set (within (λ inside. option_map PartsValue (unordered_in parts.now inside))) tree.now
        ≡ found) }
{
    if !is_due(replaced, Tag::SET, tree) {
        return Ok(None);
    }
    match &tree.body {
        Body::Prim(_) => Ok(None),
        Body::Cons(inside) => match decode_unordered(alloc, parts, inside)? {
            None => Ok(None),
            Some(slots) => Ok(Some(Value {
                form: ValueForm::Parts(slots),
            })),
        },
    }
}

#[cycle(decoding)]
fn decode_list(
    alloc: Global,
    replaced: bool,
    member: &Syntax,
    sizes: &Ranges,
    tree: &Tree,
) -> Result<Option<Value>, AllocError>
    ensures { IfOk result (λ found.
        under replaced sequence (within (λ inside.
        option_and_then (sized_members sizes.now) (members_in (denoted false member.now) inside))) tree.now ≡ found) }
{
    if !is_due(replaced, Tag::SEQUENCE, tree) {
        return Ok(None);
    }
    match &tree.body {
        Body::Prim(_) => Ok(None),
        Body::Cons(inside) => match decode_members(alloc, member, inside)? {
            None => Ok(None),
            Some(values) => Ok(sized(sizes, values)),
        },
    }
}

#[cycle(decoding)]
fn decode_set_of(
    alloc: Global,
    replaced: bool,
    member: &Syntax,
    sizes: &Ranges,
    tree: &Tree,
) -> Result<Option<Value>, AllocError>
    ensures { IfOk result (λ found.
        under replaced set (within (λ inside. option_and_then (sized_members sizes.now)
        (option_map (rising_by (der member.now)) (members_in (denoted false member.now) inside)))) tree.now ≡ found) }
{
    if !is_due(replaced, Tag::SET, tree) {
        return Ok(None);
    }
    match &tree.body {
        Body::Prim(_) => Ok(None),
        Body::Cons(inside) => match decode_members(alloc, member, inside)? {
            None => Ok(None),
            Some(values) => Ok(sized(sizes, rising_members(alloc, member, values)?)),
        },
    }
}

/// The alternative that begins with the tag of the tree.
#[cycle(decoding)]
fn decode_choice(alloc: Global, parts: &Parts, tree: &Tree) -> Result<Option<Value>, AllocError>
    ensures { IfOk result (λ found. picked_in zero parts.now tree.now ≡ found) }
{
    let items = parts.items.as_slice();
    for k in 0..items.len() {
        if begins(&items[k].syntax, tree.tag) {
            return match decode_as(alloc, false, &items[k].syntax, tree)? {
                None => Ok(None),
                Some(value) => Ok(Some(Value {
                    form: ValueForm::Pick(k as u32, Box::new(alloc, value)?),
                })),
            };
        }
    }
    Ok(None)
}

/// The members, as they come.
#[cycle(decoding)]
fn decode_members(
    alloc: Global,
    member: &Syntax,
    trees: &Trees,
) -> Result<Option<Values>, AllocError>
    ensures { IfOk result (λ found. members_in (denoted false member.now) trees.now ≡ found) }
{
    let mut items = Vec::new(alloc);
    for tree in trees.items.as_slice() {
        match decode_as(alloc, false, member, tree)? {
            None => return Ok(None),
            Some(value) => items.push(value)?,
        }
    }
    Ok(Some(Values { items }))
}

/// The value at the place begins as a value of the component may.
fn comes(part: &Part, rest: &[Tree], at: usize) -> bool
    ensures begun { result ≡ next_begins part.now.syntax (listed (drop at rest.now)) }
    ensures within { result ≡ true → at < length rest.now }
{
    if at >= rest.len() {
        return false;
    }
    let tree = &rest[at];
    begins(&part.syntax, tree.tag)
}

/// What a component that is left out holds.
fn left_out(alloc: Global, part: &Part) -> Result<Option<Slot>, AllocError>
    ensures { IfOk result (λ found. found ≡ slot_left_out part.now.optional part.now.default) }
{
    if let Some(default) = &part.default {
        return Ok(Some(Slot::Present(default.copy(alloc)?)));
    }
    if part.optional {
        return Ok(Some(Slot::Absent));
    }
    Ok(None)
}

/// The components that the values in a row denote.
#[cycle(decoding)]
fn decode_parts(alloc: Global, parts: &Parts, trees: &Trees) -> Result<Option<Slots>, AllocError>
    ensures { IfOk result (λ found. parts_in parts.now trees.now ≡ found) }
{
    let rest = trees.items.as_slice();
    let mut items = Vec::new(alloc);
    let mut at = 0;
    for part in parts.items.as_slice() {
        if comes(part, rest, at) {
            match decode_as(alloc, false, &part.syntax, &rest[at])? {
                None => return Ok(None),
                Some(value) => items.push(Slot::Present(value))?,
            }
            at += 1;
        } else {
            match left_out(alloc, part)? {
                None => return Ok(None),
                Some(slot) => items.push(slot)?,
            }
        }
    }
    if at < rest.len() {
        return Ok(None);
    }
    Ok(Some(Slots { items }))
}

/// The place of the first tree that isn't taken and may begin the component.
fn find_part(part: &Part, rest: &[Tree], taken: &[bool]) -> Option<usize>
    requires { length taken.now ≡ length rest.now }
    ensures within { IfSome result (λ k. k < length rest.now) }
    ensures found { IfSome result (λ k. (d : TreeValue) →
        taken_out (begins part.now.syntax) (left_of taken.now rest.now)
        ≡ Some (get_or rest.now k d, left_of (list_set taken.now k true) rest.now)) }
    ensures none { IfNone result (taken_out (begins part.now.syntax) (left_of taken.now rest.now) ≡ None) }
{
    for k in 0..rest.len() {
        let tree = &rest[k];
        if !taken[k] && begins(&part.syntax, tree.tag) {
            return Some(k);
        }
    }
    None
}

/// Whether some tree isn't taken.
fn some_left(rest: &[Tree], taken: &[bool]) -> bool
    requires { length taken.now ≡ length rest.now }
    ensures { result ≡ not (no_trees (left_of taken.now rest.now)) }
{
    for k in 0..rest.len() {
        if !taken[k] {
            return true;
        }
    }
    false
}

/// What one component of a SET holds, by the trees that aren't taken.
#[cycle(decoding)]
fn decode_component(
    alloc: Global,
    part: &Part,
    rest: &[Tree],
    taken: &mut [bool],
) -> Result<Option<Slot>, AllocError>
    requires { length taken.old ≡ length rest.now }
    ensures len { length taken.new ≡ length taken.old }
    ensures found { IfOk result (λ found.
        next_slot part.now (left_of taken.old rest.now)
        ≡ option_map (λ slot. (slot, left_of taken.new rest.now)) found) }
{
    match find_part(part, rest, taken) {
        None => left_out(alloc, part),
        Some(k) => {
            taken[k] = true;
            match decode_as(alloc, false, &part.syntax, &rest[k])? {
                None => Ok(None),
                Some(value) => Ok(Some(Slot::Present(value))),
            }
        }
    }
}

/// The components that the values in any order denote.
#[cycle(decoding)]
fn decode_unordered(
    alloc: Global,
    parts: &Parts,
    trees: &Trees,
) -> Result<Option<Slots>, AllocError>
    ensures { IfOk result (λ found. unordered_in parts.now trees.now ≡ found) }
{
    let rest = trees.items.as_slice();
    let mut taken = vec![in alloc; false; rest.len()]?;
    let mut items = Vec::new(alloc);
    for part in parts.items.as_slice() {
        match decode_component(alloc, part, rest, &mut taken)? {
            None => return Ok(None),
            Some(slot) => items.push(slot)?,
        }
    }
    if some_left(rest, &taken) {
        return Ok(None);
    }
    Ok(Some(Slots { items }))
}

/// The value of the syntax that the tree denotes.
pub fn decode(alloc: Global, syntax: &Syntax, tree: &Tree) -> Result<Value, DecodeRefusal>
    ensures denoted { IfOk result (λ value. value_in syntax.now tree.now ≡ Some value) }
    ensures misfit { result ≡ Err Misfit → value_in syntax.now tree.now ≡ None }
{
    match decode_as(alloc, false, syntax, tree) {
        Ok(Some(value)) => Ok(value),
        Ok(None) => Err(DecodeRefusal::Misfit),
        Err(_) => Err(DecodeRefusal::Memory),
    }
}
