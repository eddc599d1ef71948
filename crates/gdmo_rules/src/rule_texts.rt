//! The rules of the sections, each with the number of its document, and the numbers of the templates that they name
//! (docs/PROFILE.md, sections 9 and 12).

ghost use Rattle.std.specs.Prelude.{◌≡◌, ◌++◌, ℕ, IfOk, OnOk, Option, Some, flat_map, map, slice_get};
ghost use Rattle.gdmo_names.specs.Mentions.{Mention};
ghost use Rattle.gdmo_names.specs.PartTerms.{PartTerms, StepTerm};
ghost use Rattle.gdmo_names.specs.PartViews.{rule_term, section_rules};
ghost use Rattle.gdmo_names.specs.TargetTables.{TellsMention};
ghost use Rattle.gdmo_targets.specs.StatedRules.{rule_terms};
ghost use Rattle.gdmo_types.specs.RoleTargets.{MeansNumber};
ghost use Rattle.gdmo_targets.specs.SectionTables.{TellsStep};
ghost use Rattle.gdmo_rules.specs.StepFaults.{TellsTarget};

use extra_syntax::rules::RulesSection;
use extra_syntax::section::Section;
use gdmo_names::found::Found;
use gdmo_targets::stated_rules::RuleText;
use std::alloc::{AllocError, Global};

fn add_rules<'a>(section: &'a RulesSection, rules: &mut Vec<RuleText<'a>>) -> Result<(), AllocError>
    ensures { OnOk result (rule_terms rules.new.items
        ≡ rule_terms rules.old.items ++ map (rule_term section.now.document) section.now.rules.items) }
{
    for rule in section.rules.iter() {
        rules.push(RuleText {
            document: section.document,
            rule,
        })?;
    }
    Ok(())
}

fn add_section<'a>(section: &'a Section, rules: &mut Vec<RuleText<'a>>) -> Result<(), AllocError>
    ensures { OnOk result (rule_terms rules.new.items ≡ rule_terms rules.old.items ++ section_rules section.now) }
{
    match section {
        Section::Rules(section) => add_rules(section, rules),
        Section::Instances(_) => Ok(()),
    }
}

/// The rules of the sections, in their order.
pub(crate) fn rules_of<'a>(
    alloc: Global,
    sections: &'a [Section],
) -> Result<Vec<RuleText<'a>>, AllocError>
    ensures { IfOk result (λ rules. rule_terms rules.items ≡ flat_map section_rules sections.now) }
{
    let mut rules = Vec::new(alloc);
    for section in sections.iter() {
        add_section(section, &mut rules)?;
    }
    Ok(rules)
}

/// A number, where it is that of a template.
pub(crate) fn known_number(templates: &[Found], number: Option<usize>) -> Option<usize>
    ensures { (parts : PartTerms) (document : ℕ) (x : Mention) →
        TellsMention parts templates.now document x number → MeansNumber parts templates.now document x result }
{
    match number {
        Some(number) => {
            if number < templates.len() {
                Some(number)
            } else {
                None
            }
        }
        None => None,
    }
}

/// The number that stands at a place.
fn number_at(numbers: &[Option<usize>], place: usize) -> Option<usize>
    ensures { (n : Option ℕ) → slice_get numbers.now place ≡ Some n → result ≡ n }
{
    match numbers.get(place) {
        Some(number) => *number,
        None => None,
    }
}

/// The template that the step at a place names, where it is known.
pub(crate) fn step_target(
    templates: &[Found],
    targets: &[Option<usize>],
    place: usize,
) -> Option<usize>
    ensures { (parts : PartTerms) (document : ℕ) (step : StepTerm) (n : Option ℕ) →
        slice_get targets.now place ≡ Some n → TellsStep parts templates.now document step n →
        TellsTarget parts templates.now document step result }
{
    known_number(templates, number_at(targets, place))
}
