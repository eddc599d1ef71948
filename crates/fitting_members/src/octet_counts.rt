//! How many octets the members of a value take, and the value by these: X.690, sections 8 and 11.

ghost use Rattle.std.specs.Prelude.{◌≡◌, IfSome};
ghost use Rattle.term_values.specs.Lengths.{counted, octet_count};
ghost use Rattle.term_values.specs.MatchingKinds.{beneath_tags};
ghost use Rattle.term_values.specs.Rearranged.{joined};
ghost use Rattle.term_values.specs.TreeTags.{due};
ghost use Rattle.term_values.specs.Typed.{TypedValue};
ghost use Rattle.term_values.specs.ValueContents.{member_encodings, of_members};
ghost use Rattle.term_values.specs.Written.{der, der_as};
ghost use Rattle.fitting_members.specs.MemberLengths.{members_length, set_contents};

use term_values::leaf_lengths::{plus, with_header};
use term_values::{Syntax, SyntaxForm, Tag, Value, ValueForm, Values, der_len};

/// How many octets the encodings of these members take.
fn count_each(member: &Syntax, values: &Values) -> u64
    ensures { result ≡ octet_count (joined (member_encodings (der member.now) values.now)) }
{
    let items = values.items.as_slice();
    let mut total = 0;
    for i in (0..items.len()).rev() {
        total = plus(der_len(member, &items[i]), total);
    }
    total
}

/// How many octets the encodings of the members of a value take.
fn count_members(member: &Syntax, value: &Value) -> u64
    ensures { result ≡ octet_count (joined (of_members (der member.now) value.now)) }
{
    match &value.form {
        ValueForm::Many(values) => count_each(member, values),
        _ => 0,
    }
}

/// How many octets the encodings of the members take together, or 2^64 - 1 where they take more. A value that is no SET
/// OF beneath its tags has none. Takes no memory, and time linear in the value.
#[cycle(counting)]
pub fn count_octets(syntax: &Syntax, value: &Value) -> u64
    ensures { result ≡ counted (members_length syntax.now value.now) }
{
    match &syntax.form {
        SyntaxForm::Tagged(_, _, of) => count_octets(of, value),
        SyntaxForm::SetOf(member, _) => count_members(member, value),
        _ => 0,
    }
}

/// The tag of a value: its own, or the implicit one in its place.
fn due(tag: Option<Tag>, own: Tag) -> Tag
    ensures { result ≡ due tag own }
{
    match tag {
        None => own,
        Some(tag) => tag,
    }
}

/// How many octets a SET OF takes under its tags, or under an implicit one in their place, by those of its members.
#[cycle(measuring)]
fn set_length(tag: Option<Tag>, syntax: &Syntax, octets: u64) -> Option<u64>
    ensures { IfSome result (λ length. (value : TypedValue)
        → octets ≡ octet_count (set_contents (beneath_tags syntax.now) value)
        → length ≡ octet_count (der_as tag syntax.now value)) }
{
    match &syntax.form {
        SyntaxForm::SetOf(_, _) => Some(with_header(true, due(tag, Tag::SET), octets)),
        SyntaxForm::Tagged(own, explicit, of) => {
            if *explicit {
                let contents = set_length(None, of, octets)?;
                Some(with_header(true, due(tag, *own), contents))
            } else {
                set_length(Some(due(tag, *own)), of, octets)
            }
        }
        _ => None,
    }
}

/// How many octets the value takes in its one form, by those of its members, or 2^64 - 1 where it takes more. Takes no
/// memory, and of a value of SET OF no time for its members.
pub fn length_by(syntax: &Syntax, value: &Value, octets: u64) -> u64
    ensures { octets ≡ counted (members_length syntax.now value.now) → result ≡ octet_count (der syntax.now value.now) }
{
    match set_length(None, syntax, octets) {
        Some(length) => length,
        None => der_len(syntax, value),
    }
}
