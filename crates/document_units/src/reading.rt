//! A document read as a row of units, with empty semicolons between them (X.722, section 8.2; docs/PROFILE.md,
//! section 2).

ghost use Rattle.std.specs.Prelude.{◌<◌, length};
ghost use Rattle.document_units.specs.DocumentForms.{ReadsNext, ReadsUnits};

use crate::unit::{DocumentUnit, read_unit};
use std::alloc::Global;
use token_grammar::token_tests::is_sign_at;
use token_grammar::{SyntaxRefusal, Token};

/// Reads what stands at a place before the end of the tokens: an empty semicolon, or a unit, which is added to those
/// that came before. The answer is the place behind it.
fn read_next(
    alloc: Global,
    tokens: &[Token],
    at: usize,
    units: &mut Vec<DocumentUnit>,
) -> Result<usize, SyntaxRefusal>
    requires { at < length tokens.now }
    ensures { ReadsNext tokens.now at units.old units.new result }
{
    if is_sign_at(tokens, at, ";") {
        return Ok(at + 1);
    }
    let (unit, next) = read_unit(alloc, tokens, at)?;
    units.push(unit)?;
    Ok(next)
}

/// Reads the units of a document, of which these are the tokens. Each has the document number 0.
///
/// `Syntax` has the place of the first token with which no document goes on, or the number of tokens where they end
/// too early. `Memory` comes where there is no memory for the units.
pub fn read_units(alloc: Global, tokens: &[Token]) -> Result<Vec<DocumentUnit>, SyntaxRefusal>
    ensures { ReadsUnits tokens.now result }
{
    let mut units = Vec::new(alloc);
    let mut at = 0;
    while at < tokens.len() {
        at = read_next(alloc, tokens, at, &mut units)?;
    }
    Ok(units)
}
