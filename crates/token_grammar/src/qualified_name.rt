//! A name with the name of its module before it, `Module.Type` or `Module.value` (X.680, section 14).

ghost use Rattle.std.specs.Prelude.{◌≡◌, ℕ};
ghost use Rattle.token_grammar.specs.Form.{Form};
ghost use Rattle.token_grammar.specs.Outcome.{Reads, closed};
ghost use Rattle.token_grammar.specs.Parts.{qualified_name, qualified_name_tree};

use super::syntax_refusal::SyntaxRefusal;
use super::token::Token;
use super::token_reading::{read_name, skip_sign};
use std::alloc::Global;

/// A type or a value of a module.
#[derive(Drop)]
pub struct QualifiedName {
    /// The module's name.
    pub module_name: Token,
    /// The name of the type or the value.
    pub name: Token,
}

/// Reads the name of a module, a point, and the name of a type or a value.
pub fn read_qualified_name(
    alloc: Global,
    tokens: &[Token],
    at: usize,
) -> Result<(QualifiedName, usize), SyntaxRefusal>
    ensures { (grammar : ℕ → Form) → Reads tokens.now grammar closed qualified_name at qualified_name_tree result }
{
    let (module_name, next) = read_name(alloc, tokens, at)?;
    let next = skip_sign(tokens, next, ".")?;
    let (name, next) = read_name(alloc, tokens, next)?;
    Ok((QualifiedName { module_name, name }, next))
}
