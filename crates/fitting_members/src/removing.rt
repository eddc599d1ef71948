//! Members removed from a value where it stands: X.711, type ModifyOperator, removeValues.

ghost use Rattle.std.specs.List.{list_all};
ghost use Rattle.std.specs.Prelude.{◌≡◌, ◌&&◌, ◌-◌, ◌∷◌, ◌<◌, List, [], IfOk, OnOk, length, remove, true};
ghost use Rattle.term_values.specs.FitTest.{value_fits};
ghost use Rattle.term_values.specs.Lengths.{counted};
ghost use Rattle.term_values.specs.SetMembers.{on_members, other_members, removed, without_members};
ghost use Rattle.term_values.specs.Syntaxes.{TypeSyntax};
ghost use Rattle.term_values.specs.Syntaxes.TypeSyntax.{SetOf};
ghost use Rattle.term_values.specs.Typed.TypedValue.{Many};
ghost use Rattle.term_values.specs.Typed.TypedValues.{Nothing, Then};
ghost use Rattle.term_values.specs.Typed.{TypedValue, listed};
ghost use Rattle.term_values.specs.Written.{der};
ghost use Rattle.fitting_members.specs.Changing.{IsRemoving};
ghost use Rattle.fitting_members.specs.MemberLengths.{members_length};
ghost use Rattle.fitting_members.specs.MemberPlaces.{AreRising, IsPlace, has_at};
ghost use Rattle.fitting_members.specs.TakingBack.{TakesBack};

use crate::member_change::{MemberChange, Removal, Undo, unchanged};
use crate::permitting::all_numbers_fit;
use crate::placing::{both, encoding_of, has_at, place_of};
use std::alloc::{AllocError, Global};
use term_values::{Bytes, Ranges, Syntax, SyntaxForm, Value, ValueForm, Values};

/// What is known of members while some are removed.
#[derive(Drop)]
pub(crate) struct Removals {
    /// Those that were removed, one after the other.
    pub(crate) members: Vec<Removal>,
    /// How many octets those take that are left.
    pub(crate) octets: u64,
}

/// Takes the member at a place out, which has this encoding.
fn take_noted(
    member: &Syntax,
    encoding: &Bytes,
    at: usize,
    items: &mut Vec<Value>,
    made: &mut Removals,
) -> Result<(), AllocError>
    requires { has_at (der member.now) encoding.now items.old.items at ≡ true }
    ensures items { OnOk result (items.new.items ≡ remove items.old.items at) }
    ensures made { OnOk result ((permitted : List TypeSyntax) → (before : List TypedValue)
        → IsRemoving member.now permitted before items.old.items made.old
        → IsRemoving member.now permitted before items.new.items made.new) }
{
    let taken = items.remove(at);
    made.octets = made.octets.saturating_sub(encoding.as_slice().len() as u64);
    made.members.push(Removal { at, member: taken })?;
    Ok(())
}

/// Takes the members at a place out that have this encoding.
fn remove_equal(
    alloc: Global,
    member: &Syntax,
    encoding: &Bytes,
    at: usize,
    items: &mut Vec<Value>,
    made: &mut Removals,
) -> Result<(), AllocError>
    requires rising { AreRising (der member.now) items.old.items }
    requires place { IsPlace (der member.now) encoding.now items.old.items at }
    ensures removed { OnOk result (listed items.new.items
        ≡ other_members (der member.now) (encoding.now ∷ []) (listed items.old.items)) }
    ensures rising { OnOk result (AreRising (der member.now) items.new.items) }
    ensures made { OnOk result ((permitted : List TypeSyntax) → (before : List TypedValue)
        → IsRemoving member.now permitted before items.old.items made.old
        → IsRemoving member.now permitted before items.new.items made.new) }
{
    let mut had = has_at(alloc, member, items.as_slice(), at, encoding)?;
    'equal: while had {
        take_noted(member, encoding, at, items, made)?;
        had = has_at(alloc, member, items.as_slice(), at, encoding)?;
    }
    Ok(())
}

/// Takes the members with the encoding of this one out.
fn remove_one(
    alloc: Global,
    member: &Syntax,
    value: &Value,
    items: &mut Vec<Value>,
    made: &mut Removals,
) -> Result<(), AllocError>
    requires { AreRising (der member.now) items.old.items }
    ensures removed { OnOk result (listed items.new.items
        ≡ removed (der member.now) (listed items.old.items) (Then value.now Nothing)) }
    ensures rising { OnOk result (AreRising (der member.now) items.new.items) }
    ensures made { OnOk result ((permitted : List TypeSyntax) → (before : List TypedValue)
        → IsRemoving member.now permitted before items.old.items made.old
        → IsRemoving member.now permitted before items.new.items made.new) }
{
    let encoding = encoding_of(alloc, member, value)?;
    let at = place_of(alloc, member, items.as_slice(), &encoding)?;
    remove_equal(alloc, member, &encoding, at, items, made)
}

/// Takes the members with the encodings of these out.
fn remove_each(
    alloc: Global,
    member: &Syntax,
    given: &Values,
    items: &mut Vec<Value>,
    made: &mut Removals,
) -> Result<(), AllocError>
    requires { AreRising (der member.now) items.old.items }
    ensures removed { OnOk result (listed items.new.items
        ≡ removed (der member.now) (listed items.old.items) given.now) }
    ensures rising { OnOk result (AreRising (der member.now) items.new.items) }
    ensures made { OnOk result ((permitted : List TypeSyntax) → (before : List TypedValue)
        → IsRemoving member.now permitted before items.old.items made.old
        → IsRemoving member.now permitted before items.new.items made.new) }
{
    for value in given.items.as_slice() {
        remove_one(alloc, member, value, items, made)?;
    }
    Ok(())
}

/// Removes members from those of a SET OF that fits.
fn remove_given(
    alloc: Global,
    member: &Syntax,
    sizes: &Ranges,
    permitted: &[Syntax],
    octets: u64,
    given: &Values,
    items: &mut Vec<Value>,
) -> Result<MemberChange, AllocError>
    requires fits { value_fits (SetOf member.now sizes.now) (Many (listed items.old.items)) ≡ true }
    requires permitted { list_all (λ type. value_fits type (Many (listed items.old.items))) permitted.now ≡ true }
    requires octets { octets ≡ members_length (SetOf member.now sizes.now) (Many (listed items.old.items)) }
    ensures value { OnOk result (listed items.new.items
        ≡ removed (der member.now) (listed items.old.items) given.now) }
    ensures allowed { IfOk result (λ change. change.allowed
        ≡ (value_fits (SetOf member.now sizes.now) (Many (listed items.new.items))
        && list_all (λ type. value_fits type (Many (listed items.new.items))) permitted.now)) }
    ensures octets { IfOk result (λ change. change.octets
        ≡ counted (members_length (SetOf member.now sizes.now) (Many (listed items.new.items)))) }
    ensures undo { IfOk result (λ change.
        TakesBack change.undo (Many (listed items.new.items)) (Many (listed items.old.items))) }
{
    let mut made = Removals {
        members: Vec::new(alloc),
        octets,
    };
    remove_each(alloc, member, given, items, &mut made)?;
    let count = items.as_slice().len();
    let allowed = both(sizes.allow_size(count), all_numbers_fit(permitted, count));
    Ok(MemberChange {
        allowed,
        octets: made.octets,
        undo: Undo::Removed(made.members),
    })
}

/// Removes members from a value of a SET OF of this member, which fits.
fn remove_from_set(
    alloc: Global,
    member: &Syntax,
    sizes: &Ranges,
    permitted: &[Syntax],
    octets: u64,
    given: &Value,
    value: &mut Value,
) -> Result<MemberChange, AllocError>
    requires fits { value_fits (SetOf member.now sizes.now) value.old ≡ true }
    requires permitted { list_all (λ type. value_fits type value.old) permitted.now ≡ true }
    requires octets { octets ≡ members_length (SetOf member.now sizes.now) value.old }
    ensures value { OnOk result (value.new ≡ on_members removed (SetOf member.now sizes.now) value.old given.now) }
    ensures allowed { IfOk result (λ change. change.allowed ≡ (value_fits (SetOf member.now sizes.now) value.new
        && list_all (λ type. value_fits type value.new) permitted.now)) }
    ensures octets { IfOk result (λ change. change.octets
        ≡ counted (members_length (SetOf member.now sizes.now) value.new)) }
    ensures undo { IfOk result (λ change. TakesBack change.undo value.new value.old) }
{
    match &given.form {
        ValueForm::Many(gone) => match &mut value.form {
            ValueForm::Many(values) => remove_given(
                alloc,
                member,
                sizes,
                permitted,
                octets,
                gone,
                &mut values.items,
            ),
            _ => Ok(unchanged(octets)),
        },
        _ => Ok(unchanged(octets)),
    }
}

/// Removes the members that are given, as `set_values::without_members` does, from a value that fits its syntax, is one
/// of each of the types that permit values, and whose members take so many octets. The value stays as it is where its
/// syntax is no SET OF beneath tags, or where no list of members is given. After an error nothing is promised of it.
///
/// A given member is written once, and its place is found by writing some log n of the n members; those behind it move.
#[cycle(removing)]
pub fn remove_members(
    alloc: Global,
    syntax: &Syntax,
    permitted: &[Syntax],
    value: &mut Value,
    octets: u64,
    given: &Value,
) -> Result<MemberChange, AllocError>
    requires fits { value_fits syntax.now value.old ≡ true }
    requires permitted { list_all (λ type. value_fits type value.old) permitted.now ≡ true }
    requires octets { octets ≡ members_length syntax.now value.old }

    // The value is that of the definition.
    ensures value { OnOk result (value.new ≡ without_members syntax.now value.old given.now) }

    // What is told of it.
    ensures allowed { IfOk result (λ change. change.allowed ≡ (value_fits syntax.now value.new
        && list_all (λ type. value_fits type value.new) permitted.now)) }
    ensures octets { IfOk result (λ change. change.octets ≡ counted (members_length syntax.now value.new)) }
    ensures undo { IfOk result (λ change. TakesBack change.undo value.new value.old) }
{
    match &syntax.form {
        SyntaxForm::Tagged(_, _, of) => {
            remove_members(alloc, of, permitted, value, octets, given)
        }
        SyntaxForm::SetOf(member, sizes) => {
            remove_from_set(alloc, member, sizes, permitted, octets, given, value)
        }
        _ => Ok(unchanged(octets)),
    }
}
