//! One unit of a document: a template, a module or a section (X.722, section 8.2; X.680, section 13; docs/PROFILE.md,
//! sections 2 and 9).

ghost use Rattle.std.specs.Prelude.{◌≡◌, ◌+◌, ◌&&◌, false, slice_get};
ghost use Rattle.token_grammar.specs.Spelling.{passes};
ghost use Rattle.token_grammar.specs.TokenTests.{is_label, is_name};
ghost use Rattle.document_units.specs.UnitForms.{has_no_template, is_behind_name, is_class_word, is_section_word};
ghost use Rattle.document_units.specs.UnitOutcome.{ReadsUnit};

use asn1_syntax::{Module, read_module};
use extra_syntax::{Section, read_section};
use gdmo_classes::ClassTemplate;
use gdmo_members::MemberTemplate;
use std::alloc::Global;
use token_grammar::token_tests::{
    is_label, is_label_at, is_name, is_one_of, is_sign_of, is_word_of, token_at,
};
use token_grammar::{SyntaxRefusal, Token};

/// A unit of a document. Where it is read, it has the document number 0.
#[derive(Drop)]
pub enum DocumentUnit {
    /// A template of a managed object class, a package or a name binding.
    Class(ClassTemplate),
    /// A template of one of the other six kinds.
    Member(MemberTemplate),
    /// An ASN.1 module.
    Module(Module),
    /// A section RULES or INSTANCES.
    Section(Section),
}

/// Whether a section begins at a place.
fn is_section_at(tokens: &[Token], at: usize) -> bool
    ensures { result ≡ passes is_section_word (slice_get tokens.now at) }
{
    match tokens.get(at) {
        Some(token) => is_one_of(token, &["RULES", "INSTANCES"]),
        None => false,
    }
}

/// Whether the token at a place stands behind the name of a module.
fn is_behind_name_at(tokens: &[Token], at: usize) -> bool
    ensures { result ≡ passes is_behind_name (slice_get tokens.now at) }
{
    match tokens.get(at) {
        Some(token) => is_word_of(token, "DEFINITIONS") || is_sign_of(token, "{"),
        None => false,
    }
}

/// Whether a module begins at a place: its name, and behind it its identifier or DEFINITIONS.
fn is_module_at(tokens: &[Token], at: usize) -> bool
    ensures { result ≡ (passes is_name (slice_get tokens.now at)
        && passes is_behind_name (slice_get tokens.now (at + 1))) }
{
    match token_at(tokens, at) {
        Some((token, next)) => is_name(token) && is_behind_name_at(tokens, next),
        None => false,
    }
}

/// Whether the token at a place stands behind the label of a managed object class, a package or a name binding.
fn is_class_word_at(tokens: &[Token], at: usize) -> bool
    ensures { result ≡ passes is_class_word (slice_get tokens.now at) }
{
    match tokens.get(at) {
        Some(token) => is_one_of(token, &["MANAGED", "PACKAGE", "NAME"]),
        None => false,
    }
}

/// Whether a template of a managed object class, a package or a name binding begins at a place.
fn is_class_at(tokens: &[Token], at: usize) -> bool
    ensures { result ≡ (passes is_label (slice_get tokens.now at)
        && passes is_class_word (slice_get tokens.now (at + 1))) }
{
    match token_at(tokens, at) {
        Some((token, next)) => is_label(token) && is_class_word_at(tokens, next),
        None => false,
    }
}

/// Whether no template begins at a place: a module does, or no label stands there.
fn is_no_template_at(tokens: &[Token], at: usize) -> bool
    ensures { result ≡ has_no_template tokens.now at }
{
    is_module_at(tokens, at) || !is_label_at(tokens, at)
}

/// Reads a template from the place `at` of the tokens on.
fn read_template(
    alloc: Global,
    tokens: &[Token],
    at: usize,
) -> Result<(DocumentUnit, usize), SyntaxRefusal>
    requires no_section { passes is_section_word (slice_get tokens.now at) ≡ false }
    requires template { has_no_template tokens.now at ≡ false }
    ensures { ReadsUnit tokens.now at result }
{
    if is_class_at(tokens, at) {
        let (template, next) = gdmo_classes::read_template(alloc, tokens, at)?;
        return Ok((DocumentUnit::Class(template), next));
    }
    let (template, next) = gdmo_members::read_template(alloc, tokens, at)?;
    Ok((DocumentUnit::Member(template), next))
}

/// Reads a unit from the place `at` of the tokens on. It has the document number 0. RULES and INSTANCES begin sections,
/// and no modules.
///
/// The answer is the unit and the place behind it. `Syntax` has the place of the first token with which no unit goes
/// on, or the number of tokens where they end too early; for a place past the end of the tokens it is that place.
/// `Memory` comes where there is no memory for the unit.
pub fn read_unit(
    alloc: Global,
    tokens: &[Token],
    at: usize,
) -> Result<(DocumentUnit, usize), SyntaxRefusal>
    ensures { ReadsUnit tokens.now at result }
{
    if is_section_at(tokens, at) {
        let (section, next) = read_section(alloc, tokens, at)?;
        return Ok((DocumentUnit::Section(section), next));
    }
    if is_no_template_at(tokens, at) {
        let (module, next) = read_module(alloc, tokens, at)?;
        return Ok((DocumentUnit::Module(module), next));
    }
    read_template(alloc, tokens, at)
}
