//! Tags (X.680, section 31.2).

ghost use Rattle.std.specs.Prelude.{◌≡◌};
ghost use Rattle.token_grammar.specs.Form.{Form, Keep, Leaf, Maybe};
ghost use Rattle.token_grammar.specs.Outcome.{Reads, closed};
ghost use Rattle.token_grammar.specs.Parts.{optional_tree};
ghost use Rattle.asn1_values_syntax.specs.Asn1.{asn1};
ghost use Rattle.asn1_values_syntax.specs.TypeForms.{is_class, is_tag_mode, tag};
ghost use Rattle.asn1_values_syntax.specs.NamedNumberTrees.{tag_tree};

use super::named_number::read_number_or_name;
use std::alloc::Global;
use token_grammar::token_reading::{read_one_of, read_sign, skip_sign};
use token_grammar::token_tests::is_one_of_at;
use token_grammar::{SyntaxRefusal, Token};

/// A tag, `[class number]`.
#[derive(Drop)]
pub struct Tag {
    /// The bracket with which it begins.
    pub bracket: Token,
    /// UNIVERSAL, APPLICATION or PRIVATE; none where it is a tag of the context.
    pub class: Option<Token>,
    /// The number, or the name of a value that is one.
    pub number: Token,
}

/// Reads the class of a tag where one comes.
fn read_class(
    alloc: Global,
    tokens: &[Token],
    at: usize,
) -> Result<(Option<Token>, usize), SyntaxRefusal>
    ensures { Reads tokens.now asn1 is_class (Maybe (Keep is_class)) at (optional_tree Leaf) result }
{
    if !is_one_of_at(tokens, at, &["UNIVERSAL", "APPLICATION", "PRIVATE"]) {
        return Ok((None, at));
    }
    let (class, next) = read_one_of(alloc, tokens, at, &["UNIVERSAL", "APPLICATION", "PRIVATE"])?;
    Ok((Some(class), next))
}

/// Reads a tag.
fn read_tag(alloc: Global, tokens: &[Token], at: usize) -> Result<(Tag, usize), SyntaxRefusal>
    ensures { Reads tokens.now asn1 closed tag at tag_tree result }
{
    let (bracket, next) = read_sign(alloc, tokens, at, "[")?;
    let (class, next) = read_class(alloc, tokens, next)?;
    let (number, next) = read_number_or_name(alloc, tokens, next)?;
    let next = skip_sign(tokens, next, "]")?;
    Ok((
        Tag {
            bracket,
            class,
            number,
        },
        next,
    ))
}

/// Reads a tag into a box, so that a type takes few octets.
pub fn read_boxed_tag(
    alloc: Global,
    tokens: &[Token],
    at: usize,
) -> Result<(Box<Tag>, usize), SyntaxRefusal>
    ensures { Reads tokens.now asn1 closed tag at (λ tag. tag_tree tag.value) result }
{
    let (tag, next) = read_tag(alloc, tokens, at)?;
    let boxed = Box::new(alloc, tag)?;
    Ok((boxed, next))
}

/// Reads IMPLICIT or EXPLICIT where one of them comes.
pub fn read_tag_mode(
    alloc: Global,
    tokens: &[Token],
    at: usize,
) -> Result<(Option<Token>, usize), SyntaxRefusal>
    ensures { Reads tokens.now asn1 is_tag_mode (Maybe (Keep is_tag_mode)) at (optional_tree Leaf) result }
{
    if !is_one_of_at(tokens, at, &["IMPLICIT", "EXPLICIT"]) {
        return Ok((None, at));
    }
    let (mode, next) = read_one_of(alloc, tokens, at, &["IMPLICIT", "EXPLICIT"])?;
    Ok((Some(mode), next))
}
