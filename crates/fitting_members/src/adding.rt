//! Members added to a value where it stands: X.711, type ModifyOperator, addValues.

ghost use Rattle.std.specs.List.{insert, list_all};
ghost use Rattle.std.specs.Prelude.{◌≡◌, ◌&&◌, ◌+◌, ◌++◌, ◌∷◌, ◌≤◌, List, [], IfOk, OnOk, length, true};
ghost use Rattle.term_values.specs.FitTest.{all_fit, value_fits};
ghost use Rattle.term_values.specs.Lengths.{counted};
ghost use Rattle.term_values.specs.SetMembers.{added, on_members, with_members};
ghost use Rattle.term_values.specs.Syntaxes.TypeSyntax.{SetOf};
ghost use Rattle.term_values.specs.Typed.TypedValue.{Many};
ghost use Rattle.term_values.specs.Typed.{TypedValue, listed};
ghost use Rattle.term_values.specs.Written.{der};
ghost use Rattle.fitting_members.specs.Changing.{IsAdding, are_fit};
ghost use Rattle.fitting_members.specs.MemberLengths.{members_length};
ghost use Rattle.fitting_members.specs.MemberPlaces.{AreRising, with_one};
ghost use Rattle.fitting_members.specs.TakingBack.{TakesBack};

use crate::member_change::{MemberChange, Undo, unchanged};
use crate::permitting::{all_numbers_fit, stay_of_all};
use crate::placing::{both, encoding_of, has_at, place_of};
use std::alloc::{AllocError, Global};
use term_values::leaf_lengths::plus;
use term_values::{Ranges, Syntax, SyntaxForm, Value, ValueForm, Values};
use value_fits::fits;

/// What is known of members while some are added.
#[derive(Drop)]
pub(crate) struct Additions {
    /// The places at which they were put, one after the other.
    pub(crate) places: Vec<usize>,
    /// How many octets all members take, or 2^64 - 1 where they take more.
    pub(crate) octets: u64,
    /// Whether all fit.
    pub(crate) fit: bool,
}

/// Notes a member that was put at a place, how many octets it takes, and whether it fits there.
fn note_added(at: usize, octets: u64, fit: bool, made: &mut Additions) -> Result<(), AllocError>
    ensures places { OnOk result (made.new.places.items ≡ made.old.places.items ++ at ∷ []) }
    ensures octets { made.new.octets ≡ counted (octets + made.old.octets) }
    ensures fit { made.new.fit ≡ (fit && made.old.fit) }
{
    made.octets = plus(octets, made.octets);
    made.fit = both(fit, made.fit);
    made.places.push(at)?;
    Ok(())
}

/// Whether members that fit do so with one more at a place.
fn stay_fit(
    alloc: Global,
    member: &Syntax,
    permitted: &[Syntax],
    items: &[Value],
    at: usize,
    value: &Value,
) -> Result<bool, AllocError>
    requires { at ≤ length items.now }
    ensures { IfOk result (λ fit. are_fit member.now permitted.now (insert items.now at value.now)
        ≡ (fit && are_fit member.now permitted.now items.now)) }
{
    let fit = fits(alloc, member, value)?;
    let stay = stay_of_all(alloc, permitted, items, at, value)?;
    Ok(both(fit, stay))
}

/// Puts a copy of a member among others, unless one has its encoding.
fn add_one(
    alloc: Global,
    member: &Syntax,
    permitted: &[Syntax],
    value: &Value,
    items: &mut Vec<Value>,
    made: &mut Additions,
) -> Result<(), AllocError>
    requires { AreRising (der member.now) items.old.items }
    ensures added { OnOk result (listed items.new.items
        ≡ with_one (der member.now) value.now (listed items.old.items)) }
    ensures rising { OnOk result (AreRising (der member.now) items.new.items) }
    ensures made { OnOk result ((before : List TypedValue)
        → IsAdding member.now permitted.now before items.old.items made.old
        → IsAdding member.now permitted.now before items.new.items made.new) }
{
    let encoding = encoding_of(alloc, member, value)?;
    let at = place_of(alloc, member, items.as_slice(), &encoding)?;
    if has_at(alloc, member, items.as_slice(), at, &encoding)? {
        return Ok(());
    }
    let fit = stay_fit(alloc, member, permitted, items.as_slice(), at, value)?;
    items.insert(at, value.copy(alloc)?)?;
    note_added(at, encoding.as_slice().len() as u64, fit, made)?;
    Ok(())
}

/// Puts members among others, each unless one has its encoding.
fn add_each(
    alloc: Global,
    member: &Syntax,
    permitted: &[Syntax],
    given: &Values,
    items: &mut Vec<Value>,
    made: &mut Additions,
) -> Result<(), AllocError>
    requires { AreRising (der member.now) items.old.items }
    ensures added { OnOk result (listed items.new.items
        ≡ added (der member.now) (listed items.old.items) given.now) }
    ensures rising { OnOk result (AreRising (der member.now) items.new.items) }
    ensures made { OnOk result ((before : List TypedValue)
        → IsAdding member.now permitted.now before items.old.items made.old
        → IsAdding member.now permitted.now before items.new.items made.new) }
{
    for value in given.items.as_slice() {
        add_one(alloc, member, permitted, value, items, made)?;
    }
    Ok(())
}

/// Adds members to those of a SET OF that fits.
fn add_given(
    alloc: Global,
    member: &Syntax,
    sizes: &Ranges,
    permitted: &[Syntax],
    octets: u64,
    given: &Values,
    items: &mut Vec<Value>,
) -> Result<MemberChange, AllocError>
    requires fits { value_fits (SetOf member.now sizes.now) (Many (listed items.old.items)) ≡ true }
    requires permitted { list_all (λ type. value_fits type (Many (listed items.old.items))) permitted.now ≡ true }
    requires octets { octets ≡ members_length (SetOf member.now sizes.now) (Many (listed items.old.items)) }
    ensures value { OnOk result (listed items.new.items
        ≡ added (der member.now) (listed items.old.items) given.now) }
    ensures allowed { IfOk result (λ change. change.allowed
        ≡ (value_fits (SetOf member.now sizes.now) (Many (listed items.new.items))
        && list_all (λ type. value_fits type (Many (listed items.new.items))) permitted.now)) }
    ensures octets { IfOk result (λ change. change.octets
        ≡ counted (members_length (SetOf member.now sizes.now) (Many (listed items.new.items)))) }
    ensures undo { IfOk result (λ change.
        TakesBack change.undo (Many (listed items.new.items)) (Many (listed items.old.items))) }
{
    let mut made = Additions {
        places: Vec::new(alloc),
        octets,
        fit: true,
    };
    add_each(alloc, member, permitted, given, items, &mut made)?;
    let count = items.as_slice().len();
    let sized = both(sizes.allow_size(count), all_numbers_fit(permitted, count));
    Ok(MemberChange {
        allowed: both(sized, made.fit),
        octets: made.octets,
        undo: Undo::Added(made.places),
    })
}

/// Adds members to a value of a SET OF of this member, which fits.
fn add_to_set(
    alloc: Global,
    member: &Syntax,
    sizes: &Ranges,
    permitted: &[Syntax],
    octets: u64,
    given: &Value,
    value: &mut Value,
) -> Result<MemberChange, AllocError>
    requires fits { value_fits (SetOf member.now sizes.now) value.old ≡ true }
    requires permitted { list_all (λ type. value_fits type value.old) permitted.now ≡ true }
    requires octets { octets ≡ members_length (SetOf member.now sizes.now) value.old }
    ensures value { OnOk result (value.new ≡ on_members added (SetOf member.now sizes.now) value.old given.now) }
    ensures allowed { IfOk result (λ change. change.allowed ≡ (value_fits (SetOf member.now sizes.now) value.new
        && list_all (λ type. value_fits type value.new) permitted.now)) }
    ensures octets { IfOk result (λ change. change.octets
        ≡ counted (members_length (SetOf member.now sizes.now) value.new)) }
    ensures undo { IfOk result (λ change. TakesBack change.undo value.new value.old) }
{
    match &given.form {
        ValueForm::Many(more) => match &mut value.form {
            ValueForm::Many(values) => add_given(
                alloc,
                member,
                sizes,
                permitted,
                octets,
                more,
                &mut values.items,
            ),
            _ => Ok(unchanged(octets)),
        },
        _ => Ok(unchanged(octets)),
    }
}

/// Adds the members that are given, as `set_values::with_members` does, to a value that fits its syntax, is one of each
/// of the types that permit values, and whose members take so many octets. The value stays as it is where its syntax is
/// no SET OF beneath tags, or where no list of members is given. After an error nothing is promised of it.
///
/// A given member is written and tried for the syntax, and once more, beside its two neighbours, for each type that
/// permits values. Its place is found by writing some log n of the n members; those behind it move.
#[cycle(adding)]
pub fn add_members(
    alloc: Global,
    syntax: &Syntax,
    permitted: &[Syntax],
    value: &mut Value,
    octets: u64,
    given: &Value,
) -> Result<MemberChange, AllocError>
    requires fits { value_fits syntax.now value.old ≡ true }
    requires permitted { list_all (λ type. value_fits type value.old) permitted.now ≡ true }
    requires octets { octets ≡ members_length syntax.now value.old }

    // The value is that of the definition.
    ensures value { OnOk result (value.new ≡ with_members syntax.now value.old given.now) }

    // What is told of it.
    ensures allowed { IfOk result (λ change. change.allowed ≡ (value_fits syntax.now value.new
        && list_all (λ type. value_fits type value.new) permitted.now)) }
    ensures octets { IfOk result (λ change. change.octets ≡ counted (members_length syntax.now value.new)) }
    ensures undo { IfOk result (λ change. TakesBack change.undo value.new value.old) }
{
    match &syntax.form {
        SyntaxForm::Tagged(_, _, of) => add_members(alloc, of, permitted, value, octets, given),
        SyntaxForm::SetOf(member, sizes) => {
            add_to_set(alloc, member, sizes, permitted, octets, given, value)
        }
        _ => Ok(unchanged(octets)),
    }
}
