//! A template that holds the others: a managed object class, a package or a name binding (X.722, sections
//! 8.3, 8.4 and 8.6).

ghost use Rattle.std.specs.Prelude.{◌≡◌, ℕ};
ghost use Rattle.token_grammar.specs.Outcome.{Reads, closed};
ghost use Rattle.gdmo_members.specs.Templates.{templates};
ghost use Rattle.gdmo_classes.specs.ClassForms.{class_level};
ghost use Rattle.gdmo_classes.specs.TemplateTree.{class_template_tree};

use super::class::{ObjectClassTemplate, read_class};
use super::name_binding::{NameBindingTemplate, read_name_binding};
use super::package::{PackageTemplate, read_package};
use std::alloc::Global;
use token_grammar::token_tests::is_template_at;
use token_grammar::{SyntaxRefusal, Token};

/// A template that holds the others.
#[derive(Drop)]
pub enum ClassTemplate {
    /// A managed object class template.
    Class(ObjectClassTemplate),
    /// A package template.
    Package(PackageTemplate),
    /// A name binding template.
    NameBinding(NameBindingTemplate),
}

/// Reads a managed object class, package or name binding template, from the place `at` of the tokens on.
/// Templates may stand in line in it; each has the document number 0.
///
/// The answer is the template and the place behind it. `Syntax` has the place of the first token with which
/// no template goes on, or the number of tokens where they end too early; for a place past the end of the
/// tokens it is that place. `Memory` comes where there is no memory for the template.
pub fn read_template(
    alloc: Global,
    tokens: &[Token],
    at: usize,
) -> Result<(ClassTemplate, usize), SyntaxRefusal>
    ensures { Reads tokens.now templates closed class_level at class_template_tree result }
{
    if is_template_at(tokens, at, "MANAGED") {
        let (class, next) = read_class(alloc, tokens, at)?;
        return Ok((ClassTemplate::Class(class), next));
    }
    if is_template_at(tokens, at, "NAME") {
        let (binding, next) = read_name_binding(alloc, tokens, at)?;
        return Ok((ClassTemplate::NameBinding(binding), next));
    }
    let (package, next) = read_package(alloc, tokens, at)?;
    Ok((ClassTemplate::Package(package), next))
}
