//! What says that a component may be missing (X.208, section 20.1).

ghost use Rattle.std.specs.Prelude.{◌≡◌};
ghost use Rattle.token_grammar.specs.Form.{Form, Maybe};
ghost use Rattle.token_grammar.specs.Outcome.{Reads};
ghost use Rattle.token_grammar.specs.Parts.{optional_tree};
ghost use Rattle.asn1_values_syntax.specs.Asn1.{asn1};
ghost use Rattle.asn1_values_syntax.specs.TypeEnds.{is_component_end};
ghost use Rattle.asn1_values_syntax.specs.TypeForms.{presence};
ghost use Rattle.asn1_values_syntax.specs.ValueForms.{colon};
ghost use Rattle.asn1_syntax.specs.PresenceTree.{boxed_presence_tree, presence_tree};

use asn1_values_syntax::value::{ValueText, read_value};
use std::alloc::Global;
use token_grammar::token_reading::{read_one_of, skip_word};
use token_grammar::token_tests::{is_one_of_at, is_word_at};
use token_grammar::{SyntaxRefusal, Token};

/// What says that a component may be missing.
#[derive(Drop)]
pub enum Presence {
    /// The word OPTIONAL.
    Optional(Token),
    /// The value behind DEFAULT.
    Default(ValueText),
}

/// Reads OPTIONAL, or DEFAULT and its value.
fn read_presence_text(
    alloc: Global,
    tokens: &[Token],
    at: usize,
) -> Result<(Presence, usize), SyntaxRefusal>
    ensures { Reads tokens.now asn1 colon presence at presence_tree result }
{
    if is_word_at(tokens, at, "OPTIONAL") {
        let (word, next) = read_one_of(alloc, tokens, at, &["OPTIONAL"])?;
        return Ok((Presence::Optional(word), next));
    }
    let next = skip_word(tokens, at, "DEFAULT")?;
    let (value, next) = read_value(alloc, tokens, next)?;
    Ok((Presence::Default(value), next))
}

/// Reads OPTIONAL, or DEFAULT and its value, where one of the words comes, into a box.
pub fn read_presence(
    alloc: Global,
    tokens: &[Token],
    at: usize,
) -> Result<(Option<Box<Presence>>, usize), SyntaxRefusal>
    ensures { Reads tokens.now asn1 is_component_end (Maybe presence) at (optional_tree boxed_presence_tree) result }
{
    if !is_one_of_at(tokens, at, &["OPTIONAL", "DEFAULT"]) {
        return Ok((None, at));
    }
    let (presence, next) = read_presence_text(alloc, tokens, at)?;
    let boxed = Box::new(alloc, presence)?;
    Ok((Some(boxed), next))
}
