//! Rules with the targets of their references (docs/PROFILE.md, sections 9 and 12).

ghost use Rattle.std.specs.Prelude.{◌<◌, ℕ, [], ◌∷◌, IfOk, OnOk, flat_map, map};
ghost use Rattle.gdmo_linking.specs.Linkers.{IsLinker};
ghost use Rattle.gdmo_names.specs.InStep.{AreEach};
ghost use Rattle.gdmo_names.specs.PartTerms.{PartTerms};
ghost use Rattle.gdmo_names.specs.PartViews.{rule_term, section_rules};
ghost use Rattle.gdmo_targets.specs.SectionTables.{IsRuleTargets};
ghost use Rattle.linked_sections.specs.KnownSections.{AreKnownRules};
ghost use Rattle.linked_sections.specs.KnownSections.{IsCompleteRule};
ghost use Rattle.linked_sections.specs.LinkedSections.{IsRule};
ghost use Rattle.linked_sections.specs.SectionTexts.{Pushes};

use crate::linking_steps::linked_steps;
use extra_syntax::rule::Rule;
use extra_syntax::rules::RulesSection;
use extra_syntax::section::Section;
use gdmo_linking::linking::Linker;
use gdmo_targets::section_references::RuleTargets;
use linked_parts::linked::LinkedRule;
use std::alloc::AllocError;

/// A rule.
fn linked_rule(linker: &Linker, rule: &Rule, own: &RuleTargets) -> Result<LinkedRule, AllocError>
    ensures { IfOk result (λ x. (parts : PartTerms) (document : ℕ) → IsLinker parts linker.now →
        IsCompleteRule parts (rule_term document rule.now) →
        IsRuleTargets parts linker.now.linkage.templates.now (rule_term document rule.now) own.now →
        IsRule parts (rule_term document rule.now) x) }
{
    let steps = linked_steps(linker, rule.steps.as_slice(), own.steps.as_slice())?;
    let class = linker.place(own.class);
    let action = linker.place(own.action);
    Ok(LinkedRule {
        document: own.document,
        class,
        action,
        steps,
    })
}

/// Adds a rule behind those that were linked.
fn push_rule(
    linker: &Linker,
    rule: &Rule,
    targets: &[RuleTargets],
    linked: &mut Vec<LinkedRule>,
) -> Result<(), AllocError>
    ensures { OnOk result ((parts : PartTerms) (document : ℕ) → IsLinker parts linker.now →
        Pushes (AreKnownRules parts linker.now targets.now) (IsRule parts) (rule_term document rule.now ∷ [])
        linked.old.items linked.new.items) }
{
    match targets.get(linked.as_slice().len()) {
        Some(own) => {
            let rule = linked_rule(linker, rule, own)?;
            linked.push(rule)?;
            Ok(())
        }
        None => Ok(()),
    }
}

/// Adds the rules of a section of rules.
fn push_all_rules(
    linker: &Linker,
    section: &RulesSection,
    targets: &[RuleTargets],
    linked: &mut Vec<LinkedRule>,
) -> Result<(), AllocError>
    ensures { OnOk result ((parts : PartTerms) → IsLinker parts linker.now →
        Pushes (AreKnownRules parts linker.now targets.now) (IsRule parts)
        (map (rule_term section.now.document) section.now.rules.items) linked.old.items linked.new.items) }
{
    let rules = section.rules.as_slice();
    for rule in rules.iter() {
        push_rule(linker, rule, targets, linked)?;
    }
    Ok(())
}

/// Adds the rules of a section.
fn push_rules(
    linker: &Linker,
    section: &Section,
    targets: &[RuleTargets],
    linked: &mut Vec<LinkedRule>,
) -> Result<(), AllocError>
    ensures { OnOk result ((parts : PartTerms) → IsLinker parts linker.now →
        Pushes (AreKnownRules parts linker.now targets.now) (IsRule parts) (section_rules section.now)
        linked.old.items linked.new.items) }
{
    match section {
        Section::Rules(section) => {
            push_all_rules(linker, section, targets, linked)?;
            Ok(())
        }
        Section::Instances(_) => Ok(()),
    }
}

/// The rules of sections.
pub fn linked_rules(
    linker: &Linker,
    sections: &[Section],
    targets: &[RuleTargets],
) -> Result<Vec<LinkedRule>, AllocError>
    ensures { IfOk result (λ xs. (parts : PartTerms) → IsLinker parts linker.now →
        AreKnownRules parts linker.now targets.now (flat_map section_rules sections.now) →
        AreEach (IsRule parts) (flat_map section_rules sections.now) xs.items) }
{
    let mut linked = Vec::new(linker.linkage.alloc);
    for section in sections.iter() {
        push_rules(linker, section, targets, &mut linked)?;
    }
    Ok(linked)
}
