//! The value that a text denotes in a syntax (X.680, sections 18 to 46; X.208, sections 20 to 28).
#![tactic(auto)]

ghost use Rattle.std.specs.Prelude.{◌≡◌, ◌≢◌, ◌<◌, ◌^◌, length, IfOk, IfErr, Some, None};
ghost use Rattle.term_values.specs.Fits.{Fits};
ghost use Rattle.term_values.specs.Soundness.{HasFittingDefaults};
ghost use Rattle.term_values.specs.Written.{der};
ghost use Rattle.asn1_values.specs.Filters.{value_named, value_said};
ghost use Rattle.asn1_leaf_values.specs.FirstNames.{arcs_named};
ghost use Rattle.asn1_leaf_values.specs.TextValues.{said, first_place};
ghost use Rattle.asn1_values.specs.declared.value_refusal.ValueRefusal.TheVariants.{BadValue, Memory};

mod denoting;
mod filter_syntaxes;
mod filtering;
pub mod value_refusal;

pub use asn1_leaf_values::{ArcList, FirstNames, add_first_name};
use asn1_values_syntax::value::{NamedValue, ValueText};
use denoting::denote;
use filtering::Filters;
use std::alloc::Global;
use term_values::{Syntax, Value};
pub use value_refusal::ValueRefusal;

/// The place of the first token of a text.
pub fn first_place(text: &ValueText) -> u64
    ensures { result ≡ first_place text.now }
{
    match text {
        ValueText::Literal(literal) => literal.at,
        ValueText::Number(number) => match &number.minus {
            Some(minus) => minus.at,
            None => number.number.at,
        },
        ValueText::Named(NamedValue::Name(name)) => name.at,
        ValueText::Named(NamedValue::Choice { name, .. }) => name.at,
        ValueText::Braces { brace, .. } => brace.at,
    }
}

/// The value of the syntax that the text denotes, where an object identifier may begin with one of these names: X.680,
/// sections 18 to 46; X.208, sections 20 to 28.
///
/// `BadValue` comes exactly where the text denotes none, with the place of its first token; `Memory` where there is no
/// memory for the value. A component takes a part by its name alone: in a SEQUENCE the next one, in a SET the first one
/// that is left. Members of a SET OF are sorted by their encodings. The recursion goes down what the text nests.
pub fn value_with_names(
    alloc: Global,
    names: &FirstNames,
    syntax: &Syntax,
    text: &ValueText,
) -> Result<Value, ValueRefusal>
    ensures denoted { IfOk result (λ value. value_named (arcs_named names.now) syntax.now (said text.now)
        ≡ Some value) }
    ensures fits { IfOk result (λ value. HasFittingDefaults syntax.now → length (der syntax.now value) < 2 ^ 32
        → Fits syntax.now value) }
    ensures bad { IfErr result (λ refusal. refusal ≢ Memory → (refusal ≡ BadValue (first_place text.now))
        × (value_named (arcs_named names.now) syntax.now (said text.now) ≡ None)) }
{
    match denote::<Filters>(alloc, names, syntax, text) {
        Ok(Some(value)) => Ok(value),
        Ok(None) => Err(ValueRefusal::BadValue {
            token: first_place(text),
        }),
        Err(_) => Err(ValueRefusal::Memory),
    }
}

/// The value of the syntax that the text denotes, where no module defines a name with which an object identifier
/// begins.
pub fn value_of(alloc: Global, syntax: &Syntax, text: &ValueText) -> Result<Value, ValueRefusal>
    ensures denoted { IfOk result (λ value. value_said syntax.now (said text.now) ≡ Some value) }
    ensures fits { IfOk result (λ value. HasFittingDefaults syntax.now → length (der syntax.now value) < 2 ^ 32
        → Fits syntax.now value) }
    ensures bad { IfErr result (λ refusal. refusal ≢ Memory → (refusal ≡ BadValue (first_place text.now))
        × (value_said syntax.now (said text.now) ≡ None)) }
{
    let names = FirstNames::new(alloc);
    value_with_names(alloc, &names, syntax, text)
}
