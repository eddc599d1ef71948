//! Which types have a place for which constraint (X.680, sections 49 to 51).

ghost use Rattle.std.specs.Prelude.{◌≡◌, ℕ, List, MatchOption, true};
ghost use Rattle.asn1_names.specs.ModuleTerms.{LimitTerm};
ghost use Rattle.asn1_names.specs.NumbersFound.{base_term};
ghost use Rattle.asn1_names.specs.TermViews.{limit_term, plain_term, type_term};
ghost use Rattle.asn1_names.specs.TypeBase.{has_place as place_has, has_ranges as ranges_have};
ghost use Rattle.asn1_names.specs.TypeBase.{has_sizes as sizes_have, is_text as text_is};
ghost use Rattle.asn1_names.specs.TypeBase.Base.{Standing, Written};
ghost use Rattle.asn1_names.specs.TypeWords.{one_word_type};
ghost use Rattle.asn1_names.specs.WordViews.{standard_syntax_of};

use crate::numbers::Base;
use crate::standard_module::StandardType;
use crate::type_words::{WordType, word_type};
use asn1_syntax::plain_type::PlainType;
use asn1_syntax::type_text::{StructureText, TypeText};
use asn1_values_syntax::constraint::Constraint;
use token_grammar::Token;

/// Whether a word is a type of text.
fn is_text(word: &Token) -> bool
    ensures { result ≡ text_is (one_word_type word.now.text) }
{
    match word_type(word.text.as_slice()) {
        Some(found) => match found {
            WordType::Text(_) => true,
            WordType::Boolean => false,
            WordType::Null => false,
            WordType::Time => false,
        },
        None => false,
    }
}

/// Whether a type that holds no other has sizes.
fn plain_has_sizes(of: &PlainType) -> bool
    ensures { (m : ℕ) → (limits : List LimitTerm) → result ≡ sizes_have (Written m (plain_term of.now limits)) }
{
    match of {
        PlainType::Simple(word) => is_text(word),
        PlainType::BitString(_) => true,
        PlainType::OctetString(_) => true,
        PlainType::Integer(_) => false,
        PlainType::Enumerated(_) => false,
        PlainType::ObjectIdentifier(_) => false,
        PlainType::Any(_) => false,
        PlainType::Named(_) => false,
    }
}

/// Whether a type that is no name has sizes.
fn has_sizes(of: &TypeText) -> bool
    ensures { (m : ℕ) → result ≡ sizes_have (Written m (type_term of.now)) }
{
    match of {
        TypeText::Tagged { .. } => false,
        TypeText::Structured { content, .. } => match content {
            StructureText::ListOf { .. } => true,
            StructureText::Components { .. } => false,
        },
        TypeText::Choice { .. } => false,
        TypeText::Plain { of: plain, .. } => plain_has_sizes(plain),
    }
}

/// Whether a type that holds no other has ranges of values.
fn plain_has_ranges(of: &PlainType) -> bool
    ensures { (m : ℕ) → (limits : List LimitTerm) → result ≡ ranges_have (Written m (plain_term of.now limits)) }
{
    match of {
        PlainType::Integer(_) => true,
        PlainType::Simple(_) => false,
        PlainType::BitString(_) => false,
        PlainType::OctetString(_) => false,
        PlainType::Enumerated(_) => false,
        PlainType::ObjectIdentifier(_) => false,
        PlainType::Any(_) => false,
        PlainType::Named(_) => false,
    }
}

/// Whether a type that is no name has ranges of values.
fn has_ranges(of: &TypeText) -> bool
    ensures { (m : ℕ) → result ≡ ranges_have (Written m (type_term of.now)) }
{
    match of {
        TypeText::Tagged { .. } => false,
        TypeText::Structured { content, .. } => match content {
            StructureText::ListOf { .. } => false,
            StructureText::Components { .. } => false,
        },
        TypeText::Choice { .. } => false,
        TypeText::Plain { of: plain, .. } => plain_has_ranges(plain),
    }
}

/// Whether a type of CMIP-1 has sizes: a list.
fn is_list(standard: StandardType) -> bool
    ensures { result ≡ sizes_have (Standing (standard_syntax_of standard)) }
{
    match standard {
        StandardType::RdnSequence => true,
        StandardType::ObjectClass => false,
        StandardType::AttributeId => false,
        StandardType::ActionTypeId => false,
        StandardType::EventTypeId => false,
        StandardType::ObjectInstance => false,
        StandardType::Attribute => false,
        StandardType::Filter => false,
    }
}

/// Whether a type has a place for a constraint; true where it isn't known what type it is.
pub fn has_place(base: &Base, constraint: &Constraint) -> bool
    ensures { MatchOption (base_term base.now) (result ≡ true)
        (λ known. result ≡ place_has known (limit_term constraint.now)) }
{
    match base {
        Base::Nothing => true,
        Base::Standing(standard) => match constraint {
            Constraint::Size(_) => is_list(*standard),
            Constraint::Values(_) => false,
        },
        Base::Written(_, of, _) => match constraint {
            Constraint::Size(_) => has_sizes(of),
            Constraint::Values(_) => has_ranges(of),
        },
    }
}
