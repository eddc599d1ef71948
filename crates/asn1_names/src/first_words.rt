//! The first word of a type.

ghost use Rattle.std.specs.Prelude.{◌≡◌, List};
ghost use Rattle.asn1_names.specs.ModuleTerms.{LimitTerm};
ghost use Rattle.asn1_names.specs.Occurrences.{first_word};
ghost use Rattle.asn1_names.specs.TermViews.{plain_term, type_term};

use asn1_syntax::plain_type::PlainType;
use asn1_syntax::type_text::TypeText;
use token_grammar::Token;
use token_grammar::token::NUMBER;

/// The first word of a type that holds no other.
fn plain_word(of: &PlainType) -> &Token
    ensures { (limits : List LimitTerm) → result.now ≡ first_word (plain_term of.now limits) }
{
    match of {
        PlainType::Simple(word) => word,
        PlainType::Integer(integer) => &integer.word,
        PlainType::Enumerated(enumerated) => &enumerated.word,
        PlainType::BitString(bits) => &bits.word,
        PlainType::OctetString(word) => word,
        PlainType::ObjectIdentifier(word) => word,
        PlainType::Any(any) => &any.word,
        PlainType::Named(name) => &name.name,
    }
}

/// The first word of a type: of a tag its class, or the name that stands in the place of its number; else IMPLICIT or
/// EXPLICIT, or the first word of the type beneath.
pub fn first_word(of: &TypeText) -> &Token
    ensures { result.now ≡ first_word (type_term of.now) }
{
    match of {
        TypeText::Tagged { tag, mode, of } => {
            if let Some(class) = &tag.class {
                return class;
            }
            if tag.number.kind != NUMBER {
                return &tag.number;
            }
            match mode {
                Some(mode) => mode,
                None => first_word(of),
            }
        }
        TypeText::Structured { word, .. } => word,
        TypeText::Choice { word, .. } => word,
        TypeText::Plain { of, .. } => plain_word(of),
    }
}
