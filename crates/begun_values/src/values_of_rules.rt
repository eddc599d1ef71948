//! The first names in the values of rules (docs/PROFILE.md, sections 9 and 12).

ghost use Rattle.std.specs.Prelude.{[], ◌∷◌, ℕ, IfOk, None, OnOk, flat_map, map};
ghost use Rattle.gdmo_names.specs.InStep.{AreEach};
ghost use Rattle.gdmo_names.specs.Mentions.Role.{RuleAction, StepAttribute};
ghost use Rattle.gdmo_names.specs.PartTerms.{PartTerms, RuleTerm};
ghost use Rattle.gdmo_names.specs.PartTerms.StepTerm.{EmitOf, ReplyWith, SetTo};
ghost use Rattle.gdmo_names.specs.PartViews.{optional_value, reply_term, rule_term, section_rules, step_term, taken_term};
ghost use Rattle.gdmo_targets.specs.SectionTables.{IsRuleTargets, TellsLabel, TellsStep};
ghost use Rattle.gdmo_types.specs.Linkages.{IsLinkage};
ghost use Rattle.gdmo_begun_names.specs.BegunMarks.{AnyFirst, Marks};
ghost use Rattle.begun_values.specs.SectionValues.{GoesOn, RuleFirsts, StepFirsts};

use crate::section_meanings::{reply_meaning, told_meaning};
use crate::stated_values::{mark_attribute, mark_value, target_at};
use extra_syntax::rule::Rule;
use extra_syntax::rules::RulesSection;
use extra_syntax::section::Section;
use extra_syntax::step::{EmitStep, Reply, SetStep, Step};
use gdmo_begun_names::begun_names::BegunNames;
use gdmo_rules::rule_faults::{Taken, taken_reply, taken_value};
use gdmo_targets::section_references::RuleTargets;
use gdmo_types::linkage::Linkage;
use std::alloc::AllocError;

/// Marks the names in the value that is set.
fn mark_set(
    linkage: &Linkage,
    step: &SetStep,
    target: Option<usize>,
    names: &mut BegunNames,
) -> Result<(), AllocError>
    ensures { OnOk result ((parts : PartTerms) (rule : RuleTerm) → IsLinkage parts linkage.now →
        TellsLabel parts linkage.now.templates.now rule.document StepAttribute step.now.attribute target →
        Marks (StepFirsts parts rule (SetTo step.now.attribute (taken_term step.now.value))) names.old names.new) }
{
    match taken_value(&step.value) {
        Taken::Value(value) => mark_attribute(linkage, target, value, names),
        Taken::Argument(_) => Ok(()),
        Taken::Word(_) => Ok(()),
    }
}

/// Marks the names in the value that is emitted.
fn mark_emitted(
    linkage: &Linkage,
    step: &EmitStep,
    target: Option<usize>,
    names: &mut BegunNames,
) -> Result<(), AllocError>
    ensures { OnOk result ((parts : PartTerms) (rule : RuleTerm) → IsLinkage parts linkage.now →
        TellsStep parts linkage.now.templates.now rule.document
        (EmitOf step.now.notification (optional_value step.now.value)) target →
        Marks (StepFirsts parts rule (EmitOf step.now.notification (optional_value step.now.value))) names.old
        names.new) }
{
    match &step.value {
        Some(value) => mark_value(linkage, told_meaning(linkage, target), value, names),
        None => Ok(()),
    }
}

/// Marks the names in the value that is replied.
fn mark_replied(
    linkage: &Linkage,
    action: Option<usize>,
    reply: &Reply,
    names: &mut BegunNames,
) -> Result<(), AllocError>
    ensures { OnOk result ((parts : PartTerms) (rule : RuleTerm) → IsLinkage parts linkage.now →
        TellsLabel parts linkage.now.templates.now rule.document RuleAction rule.action action →
        Marks (StepFirsts parts rule (ReplyWith (reply_term reply.now))) names.old names.new) }
{
    match taken_reply(reply) {
        Taken::Value(value) => mark_value(linkage, reply_meaning(linkage, action), value, names),
        Taken::Argument(_) => Ok(()),
        Taken::Word(_) => Ok(()),
    }
}

/// Marks the names in the value of a step; `target` is the template that it names.
fn mark_step(
    linkage: &Linkage,
    action: Option<usize>,
    step: &Step,
    target: Option<usize>,
    names: &mut BegunNames,
) -> Result<(), AllocError>
    ensures { OnOk result ((parts : PartTerms) (rule : RuleTerm) → IsLinkage parts linkage.now →
        TellsLabel parts linkage.now.templates.now rule.document RuleAction rule.action action →
        TellsStep parts linkage.now.templates.now rule.document (step_term step.now) target →
        Marks (StepFirsts parts rule (step_term step.now)) names.old names.new) }
{
    match step {
        Step::Set(set) => mark_set(linkage, set, target, names),
        Step::Add(_) => Ok(()),
        Step::Emit(emit) => mark_emitted(linkage, emit, target, names),
        Step::Reply(reply) => mark_replied(linkage, action, reply, names),
    }
}

/// Marks the names in the values of steps.
fn mark_steps(
    linkage: &Linkage,
    action: Option<usize>,
    steps: &[Step],
    targets: &[Option<usize>],
    names: &mut BegunNames,
) -> Result<(), AllocError>
    ensures { OnOk result ((parts : PartTerms) (rule : RuleTerm) → IsLinkage parts linkage.now →
        TellsLabel parts linkage.now.templates.now rule.document RuleAction rule.action action →
        AreEach (TellsStep parts linkage.now.templates.now rule.document) (map step_term steps.now) targets.now →
        Marks (AnyFirst (StepFirsts parts rule) (map step_term steps.now)) names.old names.new) }
{
    for (k, step) in steps.iter().enumerate() {
        mark_step(linkage, action, step, target_at(targets, k), names)?;
    }
    Ok(())
}

/// Marks the names in the values of a rule.
fn mark_rule(
    linkage: &Linkage,
    rule: &Rule,
    own: &RuleTargets,
    names: &mut BegunNames,
) -> Result<(), AllocError>
    ensures { OnOk result ((parts : PartTerms) (document : ℕ) → IsLinkage parts linkage.now →
        IsRuleTargets parts linkage.now.templates.now (rule_term document rule.now) own.now →
        Marks (RuleFirsts parts (rule_term document rule.now)) names.old names.new) }
{
    mark_steps(
        linkage,
        own.action,
        rule.steps.as_slice(),
        own.steps.as_slice(),
        names,
    )
}

/// Marks the names in the values of the rule whose targets stand at a place; tells the next place.
fn mark_rule_at(
    linkage: &Linkage,
    rule: &Rule,
    targets: &[RuleTargets],
    at: usize,
    names: &mut BegunNames,
) -> Result<usize, AllocError>
    ensures { IfOk result (λ next. (parts : PartTerms) (document : ℕ) → IsLinkage parts linkage.now →
        GoesOn (IsRuleTargets parts linkage.now.templates.now) (RuleFirsts parts) (rule_term document rule.now ∷ [])
        targets.now at next names.old names.new) }
{
    match targets.get(at) {
        Some(own) => {
            mark_rule(linkage, rule, own, names)?;
            Ok(at + 1)
        }
        None => Ok(at),
    }
}

/// Marks the names in the values of a section of rules, of which the targets of the first stand at a place; tells the
/// next place.
fn mark_rules(
    linkage: &Linkage,
    section: &RulesSection,
    targets: &[RuleTargets],
    at: usize,
    names: &mut BegunNames,
) -> Result<usize, AllocError>
    ensures { IfOk result (λ next. (parts : PartTerms) → IsLinkage parts linkage.now →
        GoesOn (IsRuleTargets parts linkage.now.templates.now) (RuleFirsts parts)
        (map (rule_term section.now.document) section.now.rules.items) targets.now at next names.old names.new) }
{
    let mut next = at;
    let rules = section.rules.as_slice();
    for rule in rules.iter() {
        next = mark_rule_at(linkage, rule, targets, next, names)?;
    }
    Ok(next)
}

/// The same of a section of rules or of instances.
fn mark_section_rules(
    linkage: &Linkage,
    section: &Section,
    targets: &[RuleTargets],
    at: usize,
    names: &mut BegunNames,
) -> Result<usize, AllocError>
    ensures { IfOk result (λ next. (parts : PartTerms) → IsLinkage parts linkage.now →
        GoesOn (IsRuleTargets parts linkage.now.templates.now) (RuleFirsts parts) (section_rules section.now)
        targets.now at next names.old names.new) }
{
    match section {
        Section::Rules(section) => mark_rules(linkage, section, targets, at, names),
        Section::Instances(_) => Ok(at),
    }
}

/// Marks the names in the values of the rules of sections.
pub(crate) fn mark_all_rules(
    linkage: &Linkage,
    sections: &[Section],
    targets: &[RuleTargets],
    names: &mut BegunNames,
) -> Result<(), AllocError>
    ensures { OnOk result ((parts : PartTerms) → IsLinkage parts linkage.now →
        AreEach (IsRuleTargets parts linkage.now.templates.now) (flat_map section_rules sections.now) targets.now →
        Marks (AnyFirst (RuleFirsts parts) (flat_map section_rules sections.now)) names.old names.new) }
{
    let mut next = 0;
    for section in sections.iter() {
        next = mark_section_rules(linkage, section, targets, next, names)?;
    }
    Ok(())
}
