//! With which tags values begin, and which tag is due: X.690, sections 8.1.2 and 8.14.

ghost use Rattle.std.specs.Prelude.{◌≡◌, [], ◌∷◌, Some};
ghost use Rattle.term_values.specs.Beginnings.{begins, has_tag, is_one_of, first_tags, parts_tags};
ghost use Rattle.term_values.specs.Decoding.{is_due};
ghost use Rattle.term_values.specs.Syntaxes.TypeSyntax.{Filter};
ghost use Rattle.term_values.specs.Tag.{is_same_tag};

use term_values::{Parts, Syntax, SyntaxForm, Tag, Tree};

pub fn is_same_tag(tag: Tag, other: Tag) -> bool
    ensures { result ≡ is_same_tag tag other }
{
    tag.class == other.class && tag.number == other.number
}

/// The tag of the tree is the one that is due, or another one stands in its place.
pub fn is_due(replaced: bool, tag: Tag, tree: &Tree) -> bool
    ensures { result ≡ is_due replaced tag tree.now }
{
    replaced || is_same_tag(tag, tree.tag)
}

fn is_own(own: Tag, tag: Tag) -> bool
    ensures { result ≡ is_one_of (own ∷ []) tag }
{
    is_same_tag(own, tag)
}

fn begins_filter(tag: Tag) -> bool
    ensures { result ≡ begins Filter tag }
{
    is_same_tag(Tag::context(8), tag)
        || is_same_tag(Tag::context(9), tag)
        || is_same_tag(Tag::context(10), tag)
        || is_own(Tag::context(11), tag)
}

/// Whether a value of the syntax may begin with the tag.
#[cycle(beginning)]
pub fn begins(syntax: &Syntax, tag: Tag) -> bool
    ensures { result ≡ begins syntax.now tag }
{
    match &syntax.form {
        SyntaxForm::Bool => is_own(Tag::BOOLEAN, tag),
        SyntaxForm::Int(_, _) => is_own(Tag::INTEGER, tag),
        SyntaxForm::Enumerated(_) => is_own(Tag::ENUMERATED, tag),
        SyntaxForm::Bits(_, _) => is_own(Tag::BIT_STRING, tag),
        SyntaxForm::Octets(_) => is_own(Tag::OCTET_STRING, tag),
        SyntaxForm::Null => is_own(Tag::NULL, tag),
        SyntaxForm::Oid => is_own(Tag::OBJECT_IDENTIFIER, tag),
        SyntaxForm::Text(charset, _) => is_own(Tag::text(*charset), tag),
        SyntaxForm::Time => is_own(Tag::GENERALIZED_TIME, tag),
        SyntaxForm::Seq(_) => is_own(Tag::SEQUENCE, tag),
        SyntaxForm::Unordered(_) => is_own(Tag::SET, tag),
        SyntaxForm::ListOf(_, _) => is_own(Tag::SEQUENCE, tag),
        SyntaxForm::SetOf(_, _) => is_own(Tag::SET, tag),
        SyntaxForm::Choice(parts) => one_begins(parts, tag),
        SyntaxForm::Tagged(own, _, _) => is_own(*own, tag),
        SyntaxForm::Any => true,
        SyntaxForm::Filter => begins_filter(tag),
    }
}

/// Whether a value of some alternative may begin with the tag.
#[cycle(beginning)]
fn one_begins(parts: &Parts, tag: Tag) -> bool
    ensures { result ≡ has_tag (parts_tags parts.now) tag }
{
    for part in parts.items.as_slice() {
        if begins(&part.syntax, tag) {
            return true;
        }
    }
    false
}
