//! The templates that rules and instances name (docs/PROFILE.md, sections 9 and 12). A word alone behind REPLY isn't
//! looked at here: whether it is a label depends on the types of the reply.

ghost use Rattle.std.specs.Prelude.{◌≡◌, IfOk, OnOk, flat_map, map};
ghost use Rattle.gdmo_names.specs.FaultSets.{AnyOf, Notes};
ghost use Rattle.gdmo_names.specs.InStep.{AddsEach, AreEach};
ghost use Rattle.gdmo_names.specs.MemberViews.{clause_tokens};
ghost use Rattle.gdmo_names.specs.Mentions.Role.{ChosenPackage, GivenAttribute};
ghost use Rattle.gdmo_names.specs.PartTerms.{PartTerms};
ghost use Rattle.gdmo_names.specs.PartViews.{instance_term, pair_term, pair_terms, rule_term, section_instances};
ghost use Rattle.gdmo_names.specs.PartViews.{section_rules, step_term};
ghost use Rattle.gdmo_names.specs.Roles.{role_term};
ghost use Rattle.gdmo_names.specs.SectionFaults.{FaultsOfInstance, FaultsOfPair, FaultsOfRule, FaultsOfSections};
ghost use Rattle.gdmo_names.specs.SectionFaults.{FaultsOfStep, LabelFaults};
ghost use Rattle.gdmo_targets.specs.SectionTables.{AreSectionTargets, IsInstanceTargets, IsLabelled, IsRuleTargets};
ghost use Rattle.gdmo_targets.specs.SectionTables.{TellsLabel, TellsPair, TellsSection, TellsStep};

use crate::labels::meant_template;
use extra_syntax::assignment::Assignment;
use extra_syntax::instance::Instance;
use extra_syntax::instances::InstancesSection;
use extra_syntax::rule::Rule;
use extra_syntax::rules::RulesSection;
use extra_syntax::section::Section;
use extra_syntax::step::Step;
use gdmo_names::first_fault::Faults;
use gdmo_names::found::{Found, Mention, Target};
use gdmo_names::roles::Role;
use indexmap::IndexMap;
use std::alloc::{AllocError, Global};
use token_grammar::Token;

/// Which templates there are, and what their labels mean.
#[derive(Clone, Copy)]
pub struct Labelled<'a, 't> {
    /// For the tables.
    pub alloc: Global,
    /// The templates.
    pub templates: &'t [Found<'a>],
    /// The number of the template that a label means.
    pub labels: &'t IndexMap<&'a [u8], usize>,
}

/// The templates that a rule names: none where one is missing, or the step names none.
#[derive(Drop)]
pub struct RuleTargets {
    /// The number of its document.
    pub document: u32,
    /// The class.
    pub class: Option<usize>,
    /// The action.
    pub action: Option<usize>,
    /// The attribute, or the notification, of each step.
    pub steps: Vec<Option<usize>>,
}

/// The templates that an instance names; none where one is missing.
#[derive(Drop)]
pub struct InstanceTargets {
    /// The number of its document.
    pub document: u32,
    /// Its class.
    pub class: Option<usize>,
    /// The attributes of its name.
    pub name: Vec<Option<usize>>,
    /// The attributes behind WITH.
    pub given: Vec<Option<usize>>,
    /// Its packages.
    pub packages: Vec<Option<usize>>,
}

/// What the sections name.
#[derive(Drop)]
pub struct SectionTargets {
    /// What the rules name.
    pub rules: Vec<RuleTargets>,
    /// What the instances name.
    pub instances: Vec<InstanceTargets>,
}

impl<'a, 't> Labelled<'a, 't> {
    fn named(
        &self,
        document: u32,
        role: Role,
        label: &'a Token,
        faults: &mut Faults,
    ) -> Option<usize>
        ensures { (parts : PartTerms) → IsLabelled parts self.now →
            (TellsLabel parts self.now.templates.now document (role_term role) label.now result)
            × Notes (LabelFaults parts document (role_term role) label.now) faults.old.first faults.new.first }
    {
        let mention = Mention {
            role,
            target: Target::Label(label),
        };
        meant_template(self.templates, self.labels, document, &mention, faults)
    }

    fn step_target(&self, document: u32, step: &'a Step, faults: &mut Faults) -> Option<usize>
        ensures { (parts : PartTerms) → IsLabelled parts self.now →
            (TellsStep parts self.now.templates.now document (step_term step.now) result)
            × Notes (FaultsOfStep parts document (step_term step.now)) faults.old.first faults.new.first }
    {
        match step {
            Step::Set(step) => {
                self.named(document, Role::StepAttribute, &step.attribute, faults)
            }
            Step::Add(step) => {
                self.named(document, Role::StepAttribute, &step.attribute, faults)
            }
            Step::Emit(step) => {
                self.named(document, Role::StepNotification, &step.notification, faults)
            }
            Step::Reply(_) => None,
        }
    }

    fn steps_targets(
        &self,
        document: u32,
        steps: &'a [Step],
        faults: &mut Faults,
    ) -> Result<Vec<Option<usize>>, AllocError>
        ensures { IfOk result (λ targets. (parts : PartTerms) → IsLabelled parts self.now →
            (AreEach (TellsStep parts self.now.templates.now document) (map step_term steps.now) targets.items)
            × Notes (AnyOf (FaultsOfStep parts document) (map step_term steps.now)) faults.old.first
            faults.new.first) }
    {
        let mut targets = Vec::new(self.alloc);
        for step in steps.iter() {
            targets.push(self.step_target(document, step, faults))?;
        }
        Ok(targets)
    }

    fn rule_targets(
        &self,
        document: u32,
        rule: &'a Rule,
        faults: &mut Faults,
    ) -> Result<RuleTargets, AllocError>
        ensures { IfOk result (λ own. (parts : PartTerms) → IsLabelled parts self.now →
            (IsRuleTargets parts self.now.templates.now (rule_term document rule.now) own)
            × Notes (FaultsOfRule parts (rule_term document rule.now)) faults.old.first faults.new.first) }
    {
        let class = self.named(document, Role::RuleClass, &rule.class, faults);
        let action = self.named(document, Role::RuleAction, &rule.action, faults);
        let steps = self.steps_targets(document, rule.steps.as_slice(), faults)?;
        Ok(RuleTargets {
            document,
            class,
            action,
            steps,
        })
    }

    fn pair_targets(
        &self,
        document: u32,
        role: Role,
        pairs: &'a [Assignment],
        faults: &mut Faults,
    ) -> Result<Vec<Option<usize>>, AllocError>
        ensures { IfOk result (λ targets. (parts : PartTerms) → IsLabelled parts self.now →
            (AreEach (TellsPair parts self.now.templates.now document (role_term role)) (map pair_term pairs.now)
            targets.items) × Notes (AnyOf (FaultsOfPair parts document (role_term role)) (map pair_term pairs.now))
            faults.old.first faults.new.first) }
    {
        let mut targets = Vec::new(self.alloc);
        for pair in pairs.iter() {
            targets.push(self.named(document, role, &pair.attribute, faults))?;
        }
        Ok(targets)
    }

    fn given_targets(
        &self,
        document: u32,
        pairs: &'a Option<Vec<Assignment>>,
        faults: &mut Faults,
    ) -> Result<Vec<Option<usize>>, AllocError>
        ensures { IfOk result (λ targets. (parts : PartTerms) → IsLabelled parts self.now →
            (AreEach (TellsPair parts self.now.templates.now document GivenAttribute) (pair_terms pairs.now)
            targets.items) × Notes (AnyOf (FaultsOfPair parts document GivenAttribute) (pair_terms pairs.now))
            faults.old.first faults.new.first) }
    {
        match pairs {
            Some(pairs) => {
                self.pair_targets(document, Role::GivenAttribute, pairs.as_slice(), faults)
            }
            None => Ok(Vec::new(self.alloc)),
        }
    }

    fn chosen_targets(
        &self,
        document: u32,
        packages: &'a [Token],
        faults: &mut Faults,
    ) -> Result<Vec<Option<usize>>, AllocError>
        ensures { IfOk result (λ targets. (parts : PartTerms) → IsLabelled parts self.now →
            (AreEach (TellsLabel parts self.now.templates.now document ChosenPackage) packages.now targets.items)
            × Notes (AnyOf (LabelFaults parts document ChosenPackage) packages.now) faults.old.first
            faults.new.first) }
    {
        let mut targets = Vec::new(self.alloc);
        for package in packages.iter() {
            targets.push(self.named(document, Role::ChosenPackage, package, faults))?;
        }
        Ok(targets)
    }

    fn package_targets(
        &self,
        document: u32,
        packages: &'a Option<Vec<Token>>,
        faults: &mut Faults,
    ) -> Result<Vec<Option<usize>>, AllocError>
        ensures { IfOk result (λ targets. (parts : PartTerms) → IsLabelled parts self.now →
            (AreEach (TellsLabel parts self.now.templates.now document ChosenPackage) (clause_tokens packages.now)
            targets.items) × Notes (AnyOf (LabelFaults parts document ChosenPackage) (clause_tokens packages.now))
            faults.old.first faults.new.first) }
    {
        match packages {
            Some(packages) => self.chosen_targets(document, packages.as_slice(), faults),
            None => Ok(Vec::new(self.alloc)),
        }
    }

    fn instance_targets(
        &self,
        document: u32,
        instance: &'a Instance,
        faults: &mut Faults,
    ) -> Result<InstanceTargets, AllocError>
        ensures { IfOk result (λ own. (parts : PartTerms) → IsLabelled parts self.now →
            (IsInstanceTargets parts self.now.templates.now (instance_term document instance.now) own)
            × Notes (FaultsOfInstance parts (instance_term document instance.now)) faults.old.first
            faults.new.first) }
    {
        let class = self.named(document, Role::InstanceClass, &instance.class, faults);
        let pairs = instance.name.as_slice();
        let name = self.pair_targets(document, Role::NameAttribute, pairs, faults)?;
        let given = self.given_targets(document, &instance.values, faults)?;
        let packages = self.package_targets(document, &instance.packages, faults)?;
        Ok(InstanceTargets {
            document,
            class,
            name,
            given,
            packages,
        })
    }

    fn add_rules(
        &self,
        section: &'a RulesSection,
        rules: &mut Vec<RuleTargets>,
        faults: &mut Faults,
    ) -> Result<(), AllocError>
        ensures { OnOk result ((parts : PartTerms) → IsLabelled parts self.now →
            (AddsEach (IsRuleTargets parts self.now.templates.now)
            (map (rule_term section.now.document) section.now.rules.items) rules.old.items rules.new.items)
            × Notes (AnyOf (FaultsOfRule parts) (map (rule_term section.now.document) section.now.rules.items))
            faults.old.first faults.new.first) }
    {
        for rule in section.rules.iter() {
            rules.push(self.rule_targets(section.document, rule, faults)?)?;
        }
        Ok(())
    }

    fn add_instances(
        &self,
        section: &'a InstancesSection,
        instances: &mut Vec<InstanceTargets>,
        faults: &mut Faults,
    ) -> Result<(), AllocError>
        ensures { OnOk result ((parts : PartTerms) → IsLabelled parts self.now →
            (AddsEach (IsInstanceTargets parts self.now.templates.now)
            (map (instance_term section.now.document) section.now.instances.items) instances.old.items
            instances.new.items) × Notes (AnyOf (FaultsOfInstance parts)
            (map (instance_term section.now.document) section.now.instances.items)) faults.old.first
            faults.new.first) }
    {
        for instance in section.instances.iter() {
            instances.push(self.instance_targets(section.document, instance, faults)?)?;
        }
        Ok(())
    }

    fn add_section(
        &self,
        section: &'a Section,
        targets: &mut SectionTargets,
        faults: &mut Faults,
    ) -> Result<(), AllocError>
        ensures { OnOk result ((parts : PartTerms) → IsLabelled parts self.now →
            TellsSection parts self.now.templates.now (section_rules section.now) (section_instances section.now)
            targets.old targets.new faults.old.first faults.new.first) }
    {
        match section {
            Section::Rules(section) => self.add_rules(section, &mut targets.rules, faults),
            Section::Instances(section) => {
                self.add_instances(section, &mut targets.instances, faults)
            }
        }
    }

    /// The templates that the sections name, in the order of the sections.
    pub fn section_targets(
        &self,
        sections: &'a [Section],
        faults: &mut Faults,
    ) -> Result<SectionTargets, AllocError>
        ensures { IfOk result (λ targets. (parts : PartTerms) → IsLabelled parts self.now →
            parts.rules ≡ flat_map section_rules sections.now →
            parts.instances ≡ flat_map section_instances sections.now →
            (AreSectionTargets parts self.now.templates.now targets)
            × Notes (FaultsOfSections parts) faults.old.first faults.new.first) }
    {
        let mut targets = SectionTargets {
            rules: Vec::new(self.alloc),
            instances: Vec::new(self.alloc),
        };
        for section in sections.iter() {
            self.add_section(section, &mut targets, faults)?;
        }
        Ok(targets)
    }
}
