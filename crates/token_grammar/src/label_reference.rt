//! A label that names a template, with the name of a document before it (X.722, section 8.2).

ghost use Rattle.std.specs.Prelude.{◌≡◌, ℕ};
ghost use Rattle.token_grammar.specs.Form.{Form, Maybe, Pair, Leaf};
ghost use Rattle.token_grammar.specs.Outcome.{Reads, closed};
ghost use Rattle.token_grammar.specs.Parts.{document_name, document_name_tree, label_reference, label_reference_tree};
ghost use Rattle.token_grammar.specs.Parts.{optional_tree};
ghost use Rattle.token_grammar.specs.TokenTests.{is_string};

use super::syntax_refusal::SyntaxRefusal;
use super::token::Token;
use super::token_reading::{read_label, read_string, skip_sign};
use super::token_tests::is_string_at;
use std::alloc::Global;

/// A label that stands for a template, `["name" :] label`.
#[derive(Drop)]
pub struct LabelReference {
    /// The string that names the document of the template, where it stands.
    pub document: Option<Token>,
    /// The template's label.
    pub label: Token,
}

/// Reads the name of a document and the colon behind it, where a string comes.
fn read_document_name(
    alloc: Global,
    tokens: &[Token],
    at: usize,
) -> Result<(Option<Token>, usize), SyntaxRefusal>
    ensures { (grammar : ℕ → Form)
        → Reads tokens.now grammar is_string (Maybe document_name) at (optional_tree document_name_tree) result }
{
    if !is_string_at(tokens, at) {
        return Ok((None, at));
    }
    let (name, next) = read_string(alloc, tokens, at)?;
    let next = skip_sign(tokens, next, ":")?;
    Ok((Some(name), next))
}

/// Reads a label, with the name of a document before it where a string comes.
pub fn read_label_reference(
    alloc: Global,
    tokens: &[Token],
    at: usize,
) -> Result<(LabelReference, usize), SyntaxRefusal>
    ensures { (grammar : ℕ → Form) → Reads tokens.now grammar closed label_reference at label_reference_tree result }
{
    let (document, next) = read_document_name(alloc, tokens, at)?;
    let (label, next) = read_label(alloc, tokens, next)?;
    Ok((LabelReference { document, label }, next))
}
