//! A rule: what an action of a class does (docs/PROFILE.md, section 9).

ghost use Rattle.std.specs.Prelude.{◌≡◌};
ghost use Rattle.token_grammar.specs.Outcome.{Reads, closed};
ghost use Rattle.token_grammar.specs.Parts.{vector_tree};
ghost use Rattle.asn1_values_syntax.specs.Asn1.{asn1};
ghost use Rattle.extra_syntax.specs.SectionForms.{rule, rule_head, steps};
ghost use Rattle.extra_syntax.specs.SectionEnds.{is_steps_end};
ghost use Rattle.extra_syntax.specs.SectionTrees.{rule_head_tree, rule_tree, step_tree};

use super::step::{Step, read_step};
use std::alloc::Global;
use token_grammar::part_keeping::keep_part;
use token_grammar::token_reading::{place_behind, read_label, skip_sign, skip_word};
use token_grammar::{SyntaxRefusal, Token};

/// A rule, `ON class ACTION action DO step, ..;`.
#[derive(Drop)]
pub struct Rule {
    /// The label of the class.
    pub class: Token,
    /// The label of the action.
    pub action: Token,
    /// The steps, in order.
    pub steps: Vec<Step>,
}

/// What a rule is about.
#[derive(Drop)]
pub struct RuleHead {
    /// The label of the class.
    pub class: Token,
    /// The label of the action.
    pub action: Token,
}

/// Reads `ON class ACTION action DO`.
fn read_rule_head(
    alloc: Global,
    tokens: &[Token],
    at: usize,
) -> Result<(RuleHead, usize), SyntaxRefusal>
    ensures { Reads tokens.now asn1 closed rule_head at rule_head_tree result }
{
    let next = skip_word(tokens, at, "ON")?;
    let (class, next) = read_label(alloc, tokens, next)?;
    let next = skip_word(tokens, next, "ACTION")?;
    let (action, next) = read_label(alloc, tokens, next)?;
    let next = skip_word(tokens, next, "DO")?;
    Ok((RuleHead { class, action }, next))
}

/// Reads steps with commas between them.
fn read_steps(
    alloc: Global,
    tokens: &[Token],
    at: usize,
) -> Result<(Vec<Step>, usize), SyntaxRefusal>
    ensures { Reads tokens.now asn1 is_steps_end steps at (vector_tree step_tree) result }
{
    let mut list = Vec::new(alloc);
    let mut next = at;
    'turns: loop {
        let behind = keep_part(&mut list, read_step(alloc, tokens, next))?;
        let Some(place) = place_behind(tokens, behind, ",") else {
            return Ok((list, behind));
        };
        next = place;
    }
}

/// Reads a rule.
pub fn read_rule(alloc: Global, tokens: &[Token], at: usize) -> Result<(Rule, usize), SyntaxRefusal>
    ensures { Reads tokens.now asn1 closed rule at rule_tree result }
{
    let (head, next) = read_rule_head(alloc, tokens, at)?;
    let (steps, next) = read_steps(alloc, tokens, next)?;
    let next = skip_sign(tokens, next, ";")?;
    Ok((
        Rule {
            class: head.class,
            action: head.action,
            steps,
        },
        next,
    ))
}
