//! What the text of a tag says: its class, and whether it is explicit (X.680, section 31.2).

ghost use Rattle.std.specs.Prelude.{◌≡◌};
ghost use Rattle.term_values.specs.Soundness.{has_own_tag};
ghost use Rattle.asn1_names.specs.DenotedSyntax.{is_explicit, says_explicit};
ghost use Rattle.asn1_names.specs.TermViews.{has_implicit_tags};
ghost use Rattle.asn1_names.specs.TypeTags.{structure_tag};
ghost use Rattle.asn1_names.specs.WholeNumbers.{class_number};

use term_values::{Syntax, SyntaxForm, Tag};
use token_grammar::Token;
use token_grammar::token_tests::is_word_of;

/// The classes of tags: X.690, section 8.1.2.2.
const UNIVERSAL: u8 = 0;

const APPLICATION: u8 = 1;

const CONTEXT: u8 = 2;

const PRIVATE: u8 = 3;

/// The class that a tag states; that of the context where it states none.
pub fn class_of(class: &Option<Token>) -> u8
    ensures { result ≡ class_number class.now }
{
    match class {
        None => CONTEXT,
        Some(word) => {
            if is_word_of(word, "UNIVERSAL") {
                UNIVERSAL
            } else if is_word_of(word, "APPLICATION") {
                APPLICATION
            } else {
                PRIVATE
            }
        }
    }
}

/// Whether IMPLICIT TAGS stands in the head of a module.
fn has_implicit_tags(tag_default: &Option<Token>) -> bool
    ensures { result ≡ has_implicit_tags tag_default.now }
{
    match tag_default {
        None => false,
        Some(mode) => is_word_of(mode, "IMPLICIT"),
    }
}

/// Whether a tag is explicit by its text and its module.
fn says_explicit(tag_default: &Option<Token>, mode: &Option<Token>) -> bool
    ensures { result ≡ says_explicit (has_implicit_tags tag_default.now) mode.now }
{
    match mode {
        None => !has_implicit_tags(tag_default),
        Some(word) => is_word_of(word, "EXPLICIT"),
    }
}

/// Whether a type has a tag of its own that an implicit one can replace.
fn has_own_tag(syntax: &Syntax) -> bool
    ensures { result ≡ has_own_tag syntax.now }
{
    match &syntax.form {
        SyntaxForm::Choice(_) | SyntaxForm::Any | SyntaxForm::Filter => false,
        _ => true,
    }
}

/// Whether a tag above a type is explicit: where the text says so, or else the module, and where the type has no tag of
/// its own.
pub fn is_explicit(tag_default: &Option<Token>, mode: &Option<Token>, of: &Syntax) -> bool
    ensures { result ≡ is_explicit (has_implicit_tags tag_default.now) mode.now of.now }
{
    says_explicit(tag_default, mode) || !has_own_tag(of)
}

/// The tag of SET and SET OF, or of SEQUENCE and SEQUENCE OF, by the word.
pub fn structure_tag(word: &Token) -> Tag
    ensures { result ≡ structure_tag word.now }
{
    if is_word_of(word, "SET") {
        Tag::SET
    } else {
        Tag::SEQUENCE
    }
}
