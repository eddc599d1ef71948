//! What stands for a number, what was found of it, and what is left of a type beneath its names and tags (X.680,
//! sections 19, 20, 22, 31.2 and 51).

ghost use Rattle.std.specs.Prelude.{◌≡◌};
ghost use Rattle.asn1_names.specs.NumbersFound.{text_term};
ghost use Rattle.asn1_names.specs.Occurrences.{number_token};
ghost use Rattle.asn1_names.specs.TermViews.{bound_term, token_term};

use crate::standard_module::StandardType;
use asn1_syntax::type_text::TypeText;
use asn1_values_syntax::numbers::Bound;
use token_grammar::Token;
use token_grammar::token::NUMBER;

/// What stands for a number.
#[derive(Clone, Copy)]
pub enum NumberText<'a> {
    /// Digits, with a minus or without.
    Digits(bool, &'a Token),
    /// A name.
    Called(&'a Token),
}

/// What was found of a number.
#[derive(Clone, Copy, PartialEq, Eq)]
pub enum NumberFound {
    /// The number.
    Number(i64),
    /// No whole number of 64 bits.
    NotNumber,
    /// A name of no value.
    Unknown,
}

/// The text of a bound.
pub fn bound_text(bound: &Bound) -> NumberText<'_>
    ensures { text_term result ≡ bound_term bound.now }
{
    match bound {
        Bound::Number(number) => NumberText::Digits(number.minus.is_some(), &number.number),
        Bound::Name(name) => NumberText::Called(name),
    }
}

/// The text of a number without a sign, or of a name.
pub fn token_text(token: &Token) -> NumberText<'_>
    ensures { text_term result ≡ token_term token.now }
{
    if token.kind == NUMBER {
        NumberText::Digits(false, token)
    } else {
        NumberText::Called(token)
    }
}

/// The token of a number.
pub fn number_token<'a>(text: NumberText<'a>) -> &'a Token
    ensures { result.now ≡ number_token (text_term text.entry) }
{
    match text {
        NumberText::Digits(_, token) => token,
        NumberText::Called(token) => token,
    }
}

/// The type that is left of a type beneath its names and tags.
#[derive(Clone, Copy)]
pub enum Base<'a> {
    /// Written in a module; the number of the assignment whose type it is beneath its tags, where it is one's.
    Written(usize, &'a TypeText, Option<usize>),
    /// A type of CMIP-1.
    Standing(StandardType),
    /// None: a name of nothing, or one that leads back to itself.
    Nothing,
}
