//! The names of types that stand in a type, and what is left of a type beneath its tags.

ghost use Rattle.std.specs.Prelude.{◌≡◌, List, MatchOption};
ghost use Rattle.asn1_names.specs.CodeMeanings.{named_module, named_type};
ghost use Rattle.asn1_names.specs.ModuleTerms.{LimitTerm};
ghost use Rattle.asn1_names.specs.NumbersFound.{beneath_tags};
ghost use Rattle.asn1_names.specs.TagClashes.{may_be_absent};
ghost use Rattle.asn1_names.specs.TermViews.{plain_term, presence_term, type_term};
ghost use Rattle.asn1_names.specs.TypeWalks.{IsName, IsNoName};

use asn1_syntax::plain_type::{PlainType, TypeName};
use asn1_syntax::presence::Presence;
use asn1_syntax::type_text::TypeText;

/// What is left of a type beneath its tags.
pub fn beneath_tags(of: &TypeText) -> &TypeText
    ensures { type_term result.now ≡ beneath_tags (type_term of.now) }
{
    let mut left = of;
    while let TypeText::Tagged { of: inner, .. } = left {
        left = inner;
    }
    left
}

/// The name that a type is which holds no other.
fn plain_name(of: &PlainType) -> Option<&TypeName>
    ensures { (limits : List LimitTerm) → MatchOption result (IsNoName (plain_term of.now limits))
        (λ name. IsName (plain_term of.now limits) (named_module name.now) (named_type name.now)) }
{
    match of {
        PlainType::Named(name) => Some(name),
        PlainType::Simple(_) => None,
        PlainType::Integer(_) => None,
        PlainType::Enumerated(_) => None,
        PlainType::BitString(_) => None,
        PlainType::OctetString(_) => None,
        PlainType::ObjectIdentifier(_) => None,
        PlainType::Any(_) => None,
    }
}

/// The name that a type is.
pub fn name_of(of: &TypeText) -> Option<&TypeName>
    ensures { MatchOption result (IsNoName (type_term of.now))
        (λ name. IsName (type_term of.now) (named_module name.now) (named_type name.now)) }
{
    match of {
        TypeText::Plain { of: plain, .. } => plain_name(plain),
        TypeText::Tagged { .. } => None,
        TypeText::Structured { .. } => None,
        TypeText::Choice { .. } => None,
    }
}

/// Whether a component may be missing.
pub fn may_be_absent(presence: &Option<Box<Presence>>) -> bool
    ensures { result ≡ may_be_absent (presence_term presence.now) }
{
    presence.is_some()
}
