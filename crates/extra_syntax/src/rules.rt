//! The section RULES: what actions do (docs/PROFILE.md, section 9).

ghost use Rattle.std.specs.Prelude.{◌≡◌};
ghost use Rattle.token_grammar.specs.Form.{Empty, Many, Named};
ghost use Rattle.token_grammar.specs.Outcome.{Reads, closed};
ghost use Rattle.token_grammar.specs.Parts.{vector_tree};
ghost use Rattle.asn1_values_syntax.specs.Asn1.{asn1};
ghost use Rattle.extra_syntax.specs.SectionForms.{rule, rule_sections, sections};
ghost use Rattle.extra_syntax.specs.SectionEnds.{is_on};
ghost use Rattle.extra_syntax.specs.SectionTrees.{rule_tree, rules_tree};

use super::rule::{Rule, read_rule};
use std::alloc::Global;
use token_grammar::part_keeping::keep_part;
use token_grammar::token_reading::{read_one_of, skip_word};
use token_grammar::token_tests::is_word_at;
use token_grammar::{SyntaxRefusal, Token};

/// A section RULES.
#[derive(Drop)]
pub struct RulesSection {
    /// The number of its document, which the reader leaves 0.
    pub document: u32,
    /// The word RULES.
    pub word: Token,
    /// The rules, in order.
    pub rules: Vec<Rule>,
}

/// Reads rules, as many as come.
fn read_rules(
    alloc: Global,
    tokens: &[Token],
    at: usize,
) -> Result<(Vec<Rule>, usize), SyntaxRefusal>
    ensures { Reads tokens.now asn1 is_on (Many Empty rule) at (vector_tree rule_tree) result }
{
    let mut list = Vec::new(alloc);
    let mut next = at;
    'turns: while is_word_at(tokens, next, "ON") {
        next = keep_part(&mut list, read_rule(alloc, tokens, next))?;
    }
    Ok((list, next))
}

/// Reads a section RULES. It has the document number 0.
pub fn read_rules_section(
    alloc: Global,
    tokens: &[Token],
    at: usize,
) -> Result<(RulesSection, usize), SyntaxRefusal>
    ensures { Reads tokens.now sections closed (Named rule_sections) at rules_tree result }
{
    let (word, next) = read_one_of(alloc, tokens, at, &["RULES"])?;
    let (rules, next) = read_rules(alloc, tokens, next)?;
    let next = skip_word(tokens, next, "END")?;
    Ok((
        RulesSection {
            document: 0,
            word,
            rules,
        },
        next,
    ))
}
