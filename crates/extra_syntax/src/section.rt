//! A section that this project adds to GDMO: RULES or INSTANCES (docs/PROFILE.md, section 9).

ghost use Rattle.std.specs.Prelude.{◌≡◌};
ghost use Rattle.token_grammar.specs.Outcome.{Reads, closed};
ghost use Rattle.extra_syntax.specs.SectionForms.{section, sections};
ghost use Rattle.extra_syntax.specs.SectionTrees.{section_tree};

use super::instances::{InstancesSection, read_instances_section};
use super::rules::{RulesSection, read_rules_section};
use std::alloc::Global;
use token_grammar::token_tests::is_word_at;
use token_grammar::{SyntaxRefusal, Token};

/// A section.
#[derive(Drop)]
pub enum Section {
    /// What actions do.
    Rules(RulesSection),
    /// The objects that are there at the opening.
    Instances(InstancesSection),
}

/// Reads a section RULES or INSTANCES from the place `at` of the tokens on. It has the document number 0.
///
/// The answer is the section and the place behind its END. `Syntax` has the place of the first token with which no
/// section goes on, or the number of tokens where they end too early; for a place past the end of the tokens it is that
/// place. `Memory` comes where there is no memory for the section.
pub fn read_section(
    alloc: Global,
    tokens: &[Token],
    at: usize,
) -> Result<(Section, usize), SyntaxRefusal>
    ensures { Reads tokens.now sections closed section at section_tree result }
{
    if is_word_at(tokens, at, "RULES") {
        let (rules, next) = read_rules_section(alloc, tokens, at)?;
        return Ok((Section::Rules(rules), next));
    }
    let (instances, next) = read_instances_section(alloc, tokens, at)?;
    Ok((Section::Instances(instances), next))
}
