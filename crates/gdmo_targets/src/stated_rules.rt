//! Rules that are stated again for a class and an action (docs/PROFILE.md, sections 9 and 12).

ghost use Rattle.std.specs.Prelude.{◌≡◌, ◌++◌, ◌||◌, ℕ, IfOk, OnOk, flat_map, map, option_and_then, slice_get};
ghost use Rattle.std.specs.Prelude.{true};
ghost use Rattle.gdmo_names.specs.FaultSets.{Notes, OneFault};
ghost use Rattle.gdmo_names.specs.FirstLabelFault.LabelFault.{KindWrong};
ghost use Rattle.gdmo_names.specs.FoundViews.{AreTemplates, found_views};
ghost use Rattle.gdmo_names.specs.InStep.{AreEach};
ghost use Rattle.gdmo_names.specs.PartTerms.{PartTerms};
ghost use Rattle.gdmo_names.specs.PartViews.{rule_term, section_rules};
ghost use Rattle.gdmo_names.specs.SectionFaults.{StatedTwice};
ghost use Rattle.gdmo_names.specs.TargetTables.{ArePlacedApart};
ghost use Rattle.gdmo_targets.specs.SectionTables.{IsRuleTargets};
ghost use Rattle.gdmo_targets.specs.StatedRules.{AgainIn, has_pair, has_that_pair, is_same_pair, is_that_pair};
ghost use Rattle.gdmo_targets.specs.StatedRules.{known_number, rule_terms, stated_pair};

use crate::labels::numbered;
use crate::section_references::RuleTargets;
use extra_syntax::rule::Rule;
use extra_syntax::rules::RulesSection;
use extra_syntax::section::Section;
use gdmo_names::first_fault::{FaultKind, Faults};
use gdmo_names::found::Found;
use std::alloc::{AllocError, Global};
use std::collections::BTreeSet;

/// A rule, with the number of its document.
#[derive(Clone, Copy)]
pub struct RuleText<'a> {
    /// The number of its document.
    pub document: u32,
    /// The rule.
    pub rule: &'a Rule,
}

fn add_rules<'a>(section: &'a RulesSection, rules: &mut Vec<RuleText<'a>>) -> Result<(), AllocError>
    ensures { OnOk result (rule_terms rules.new.items
        ≡ rule_terms rules.old.items ++ map (rule_term section.now.document) section.now.rules.items) }
{
    for rule in section.rules.iter() {
        rules.push(RuleText {
            document: section.document,
            rule,
        })?;
    }
    Ok(())
}

fn add_section<'a>(section: &'a Section, rules: &mut Vec<RuleText<'a>>) -> Result<(), AllocError>
    ensures { OnOk result (rule_terms rules.new.items ≡ rule_terms rules.old.items ++ section_rules section.now) }
{
    match section {
        Section::Rules(section) => add_rules(section, rules),
        Section::Instances(_) => Ok(()),
    }
}

/// The rules of the sections, in their order.
fn rules_of<'a>(alloc: Global, sections: &'a [Section]) -> Result<Vec<RuleText<'a>>, AllocError>
    ensures { IfOk result (λ rules. rule_terms rules.items ≡ flat_map section_rules sections.now) }
{
    let mut rules = Vec::new(alloc);
    for section in sections.iter() {
        add_section(section, &mut rules)?;
    }
    Ok(rules)
}

/// A number, where it is that of a template.
fn known_number(templates: &[Found], number: Option<usize>) -> Option<usize>
    ensures { result ≡ known_number (found_views templates.now) number }
{
    match numbered(templates, number) {
        Some(_) => number,
        None => None,
    }
}

/// The numbers of the class and the action of a rule, where it has both.
fn stated_pair(templates: &[Found], own: &RuleTargets) -> Option<(usize, usize)>
    ensures { result ≡ stated_pair (found_views templates.now) own.now }
{
    let class = known_number(templates, own.class)?;
    let action = known_number(templates, own.action)?;
    Some((class, action))
}

/// Those of the rule that stands at a place.
fn pair_at(templates: &[Found], targets: &[RuleTargets], place: usize) -> Option<(usize, usize)>
    ensures { result ≡ option_and_then (stated_pair (found_views templates.now)) (slice_get targets.now place) }
{
    match targets.get(place) {
        Some(own) => stated_pair(templates, own),
        None => None,
    }
}

/// Adds a class and an action to those that rules are for, and notes the rule where they are among them.
fn note_again(
    rule: &RuleText,
    pair: (usize, usize),
    stated: &mut BTreeSet<(usize, usize)>,
    faults: &mut Faults,
) -> Result<(), AllocError>
    ensures grows { OnOk result ((other : ℕ × ℕ) →
        has_pair stated.new other ≡ (has_pair stated.old other || is_same_pair pair other)) }
    ensures notes { OnOk result (Notes (OneFault (has_pair stated.old pair ≡ true) KindWrong rule.now.document
        rule.now.rule.now.class.at) faults.old.first faults.new.first) }
{
    if !stated.insert(pair)? {
        faults.note(rule.document, &rule.rule.class, FaultKind::WrongKind);
    }
    Ok(())
}

/// The same where the rule has both.
fn note_rule(
    rule: &RuleText,
    pair: Option<(usize, usize)>,
    stated: &mut BTreeSet<(usize, usize)>,
    faults: &mut Faults,
) -> Result<(), AllocError>
    ensures grows { OnOk result ((other : ℕ × ℕ) →
        has_pair stated.new other ≡ (has_pair stated.old other || is_that_pair pair other)) }
    ensures notes { OnOk result (Notes (OneFault (has_that_pair stated.old pair ≡ true) KindWrong rule.now.document
        rule.now.rule.now.class.at) faults.old.first faults.new.first) }
{
    match pair {
        Some(pair) => note_again(rule, pair, stated, faults),
        None => Ok(()),
    }
}

/// Notes the rules for whose class and action an earlier one stands, each at its class.
fn note_rules(
    alloc: Global,
    templates: &[Found],
    rules: &[RuleText],
    targets: &[RuleTargets],
    faults: &mut Faults,
) -> Result<(), AllocError>
    ensures { OnOk result (Notes (AgainIn (found_views templates.now) (rule_terms rules.now) targets.now)
        faults.old.first faults.new.first) }
{
    let mut stated: BTreeSet<(usize, usize)> = BTreeSet::new(alloc);
    for (place, rule) in rules.iter().enumerate() {
        let pair = pair_at(templates, targets, place);
        note_rule(rule, pair, &mut stated, faults)?;
    }
    Ok(())
}

/// Notes the rules that are stated again for a class and an action, at the class. `targets` tells which those are.
pub fn note_stated_twice<'a>(
    alloc: Global,
    templates: &[Found],
    sections: &'a [Section],
    targets: &[RuleTargets],
    faults: &mut Faults,
) -> Result<(), AllocError>
    ensures { OnOk result ((parts : PartTerms) → AreTemplates parts templates.now → ArePlacedApart parts →
        parts.rules ≡ flat_map section_rules sections.now →
        AreEach (IsRuleTargets parts templates.now) parts.rules targets.now →
        Notes (StatedTwice parts) faults.old.first faults.new.first) }
{
    let rules = rules_of(alloc, sections)?;
    note_rules(alloc, templates, rules.as_slice(), targets, faults)?;
    Ok(())
}
