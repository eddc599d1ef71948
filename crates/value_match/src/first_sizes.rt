//! The sizes of encodings that stand first among the numbers of members: X.690, section 8.1.3.

ghost use Rattle.std.specs.Prelude.{◌≡◌, drop};
ghost use Rattle.value_match.specs.FirstSizes.{first_size, front_size, pick_size};

use term_values::{Parts, Syntax, SyntaxForm, Value, ValueForm, der_len};

/// The size of what a member holds, beneath alternatives and implicit tags, or 0 where it holds no others. Takes time
/// linear in the member.
#[cycle(sizing)]
pub fn first_size(member: &Syntax, value: &Value) -> u64
    ensures { result ≡ first_size member.now value.now }
{
    match &member.form {
        SyntaxForm::Seq(_) => der_len(member, value),
        SyntaxForm::Unordered(_) => der_len(member, value),
        SyntaxForm::ListOf(_, _) => der_len(member, value),
        SyntaxForm::SetOf(_, _) => der_len(member, value),
        SyntaxForm::Choice(parts) => match &value.form {
            ValueForm::Pick(index, picked) => pick_size(parts, *index, picked),
            _ => 0,
        },
        SyntaxForm::Tagged(_, explicit, of) => {
            if *explicit {
                der_len(of, value)
            } else {
                first_size(of, value)
            }
        }
        _ => 0,
    }
}

/// The same of a value of the alternative with this index.
#[cycle(sizing)]
#[tactic(auto, using(crate::proofs::SizeLaws::size_at))]
fn pick_size(parts: &Parts, index: u32, value: &Value) -> u64
    ensures { result ≡ pick_size parts.now index value.now }
{
    let items = parts.items.as_slice();
    let place = index as usize;
    if place < items.len() {
        let part = &items[place];
        return first_size(&part.syntax, value);
    }
    0
}

/// The same of the member at a place, or 0 behind the last one.
pub fn size_from(member: &Syntax, values: &[Value], at: usize) -> u64
    ensures { result ≡ front_size member.now (drop at values.now) }
{
    if at < values.len() {
        first_size(member, &values[at])
    } else {
        0
    }
}
