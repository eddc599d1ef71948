//! The units of one document, gathered by their kinds (X.722, section 8.2; docs/PROFILE.md, section 2).

ghost use Rattle.std.specs.Prelude.{◌≡◌, ◌<◌, ◌∷◌, [], length, IfOk};
ghost use Rattle.document_parts.specs.DocumentParts.{Gathers};
ghost use Rattle.document_parts.specs.ReadDocuments.{GathersNext, GathersUnits};

use super::numbering::{number_class, number_member, number_module, number_section};
use document_units::{DocumentUnit, read_unit};
use gdmo_names::Parsed;
use std::alloc::{AllocError, Global};
use token_grammar::token_tests::is_sign_at;
use token_grammar::{SyntaxRefusal, Token};

/// Adds a unit, with the number of its document, to those of its kind.
fn add_unit(unit: DocumentUnit, document: u32, parts: &mut Parsed) -> Result<(), AllocError>
    ensures { IfOk result (λ _. Gathers document (unit ∷ []) parts.old parts.new) }
{
    match unit {
        DocumentUnit::Class(template) => parts.classes.push(number_class(template, document))?,
        DocumentUnit::Member(template) => parts.members.push(number_member(template, document))?,
        DocumentUnit::Module(module) => parts.modules.push(number_module(module, document))?,
        DocumentUnit::Section(section) => parts.sections.push(number_section(section, document))?,
    }
    Ok(())
}

/// Reads what stands at a place before the end of the tokens: an empty semicolon, or a unit, which is added to the
/// parts. The answer is the place behind it.
fn gather_next(
    alloc: Global,
    tokens: &[Token],
    at: usize,
    document: u32,
    parts: &mut Parsed,
) -> Result<usize, SyntaxRefusal>
    requires { at < length tokens.now }
    ensures { GathersNext tokens.now at document parts.old parts.new result }
{
    if is_sign_at(tokens, at, ";") {
        return Ok(at + 1);
    }
    let (unit, next) = read_unit(alloc, tokens, at)?;
    add_unit(unit, document, parts)?;
    Ok(next)
}

/// Adds the units of a document, of which these are the tokens, to the parts, each with the document's number.
///
/// `Syntax` has the place of the first token with which no document goes on, or the number of tokens where they end
/// too early. `Memory` comes where there is no memory for the units. The parts are of no use behind a refusal.
pub(crate) fn gather_units(
    alloc: Global,
    tokens: &[Token],
    document: u32,
    parts: &mut Parsed,
) -> Result<(), SyntaxRefusal>
    ensures { GathersUnits tokens.now document parts.old parts.new result }
{
    let mut at = 0;
    while at < tokens.len() {
        at = gather_next(alloc, tokens, at, document, parts)?;
    }
    Ok(())
}
