//! Steps of rules that name attributes that they may not name: those by which objects are named, and those that the
//! class hasn't (docs/PROFILE.md, sections 9 and 12). What is known of a class is found out once for all of its rules.

ghost use Rattle.std.specs.Prelude.{◌≡◌, ℕ, AllPairs, IfOk, List, OnOk, Option, Some, length, map, slice_get};
ghost use Rattle.token_grammar.specs.declared.token.Token.{Token as TokenTerm};
ghost use Rattle.link_graphs.specs.Leading.{target_lists};
ghost use Rattle.gdmo_names.specs.FaultSets.{AnyOf, Notes};
ghost use Rattle.gdmo_names.specs.FoundViews.{found_views};
ghost use Rattle.gdmo_names.specs.InStep.{AreEach};
ghost use Rattle.gdmo_names.specs.Mentions.{mention};
ghost use Rattle.gdmo_names.specs.Mentions.Role.{StepAttribute};
ghost use Rattle.gdmo_names.specs.PartTerms.{Placed, PartTerms};
ghost use Rattle.gdmo_names.specs.PartViews.{step_term};
ghost use Rattle.gdmo_names.specs.PartTerms.StepTerm.{ReplyWith};
ghost use Rattle.gdmo_names.specs.TargetTables.{AreTwo};
ghost use Rattle.gdmo_names.specs.TemplateTerms.ReferenceTerm.{ByLabel};
ghost use Rattle.gdmo_names.specs.declared.found.Found.{Found as FoundTerm};
ghost use Rattle.gdmo_targets.specs.SectionTables.{IsRuleTargets, TellsStep};
ghost use Rattle.gdmo_targets.specs.StatedRules.{rule_terms};
ghost use Rattle.gdmo_types.specs.Linkages.{IsLinkage};
ghost use Rattle.gdmo_types.specs.RoleTargets.{MeansNumber};
ghost use Rattle.class_graphs.specs.ClassGraphs.{IsGraph, TellsFacts};
ghost use Rattle.gdmo_rules.specs.NamingFaults.{AllNamingFaults, AreByClass, LabelNamingFaults, NamingFaultsAt};
ghost use Rattle.gdmo_rules.specs.NamingFaults.{StepNamingFaults, TellsNaming, row_lists, step_label};
ghost use Rattle.gdmo_rules.specs.StepFaults.{TellsTarget};
ghost use Rattle.gdmo_rules.specs.TakenViews.{taken_view};

use crate::rule_faults::{Taken, labelled_attribute, taken_reply};
use crate::rule_texts::step_target;
use crate::type_faults::{Naming, note_where};
use class_graphs::class_members::{ClassFacts, ClassGraph};
use extra_syntax::step::Step;
use gdmo_names::first_fault::Faults;
use gdmo_targets::section_references::RuleTargets;
use gdmo_targets::stated_rules::RuleText;
use gdmo_types::linkage::Linkage;
use link_graphs::Graph;
use reached_elements::linking::{add_links, unlinked};
use std::alloc::{AllocError, Global};
use token_grammar::Token;

/// The attribute that SET or ADD names by its label, where it is known.
fn target_naming<'a>(document: u32, label: &'a Token, target: Option<usize>) -> Option<Naming<'a>>
    ensures { (parts : PartTerms) (xs : List FoundTerm) →
        MeansNumber parts xs document (mention StepAttribute (ByLabel label.now)) target →
        TellsNaming parts (found_views xs) document (Some label.now) result }
{
    match target {
        Some(attribute) => Some(Naming {
            document,
            label,
            attribute,
        }),
        None => None,
    }
}

/// The attribute that a word alone behind REPLY means, where it means one.
fn word_naming<'a>(linkage: &Linkage, document: u32, word: &'a Token) -> Option<Naming<'a>>
    ensures { (parts : PartTerms) → IsLinkage parts linkage.now →
        TellsNaming parts (found_views linkage.now.templates.now) document (Some word.now) result }
{
    match labelled_attribute(linkage.templates, linkage.labels, word) {
        Some(attribute) => Some(Naming {
            document,
            label: word,
            attribute,
        }),
        None => None,
    }
}

/// The same of what REPLY takes.
fn taken_naming<'a>(linkage: &Linkage, document: u32, taken: Taken<'a>) -> Option<Naming<'a>>
    ensures { (parts : PartTerms) → IsLinkage parts linkage.now →
        TellsNaming parts (found_views linkage.now.templates.now) document
        (step_label (ReplyWith (taken_view taken.entry))) result }
{
    match taken {
        Taken::Argument(_) => None,
        Taken::Word(word) => word_naming(linkage, document, word),
        Taken::Value(_) => None,
    }
}

/// The attribute that a step names by a label, where it is known; `target` is what SET or ADD names.
fn step_naming<'a>(
    linkage: &Linkage,
    document: u32,
    step: &'a Step,
    target: Option<usize>,
) -> Option<Naming<'a>>
    ensures { (parts : PartTerms) → IsLinkage parts linkage.now →
        TellsTarget parts linkage.now.templates.now document (step_term step.now) target →
        TellsNaming parts (found_views linkage.now.templates.now) document (step_label (step_term step.now)) result }
{
    match step {
        Step::Set(step) => target_naming(document, &step.attribute, target),
        Step::Add(step) => target_naming(document, &step.attribute, target),
        Step::Emit(_) => None,
        Step::Reply(reply) => taken_naming(linkage, document, taken_reply(reply)),
    }
}

/// Notes an attribute that a step of a rule for the class may not name.
fn note_naming(facts: &ClassFacts, naming: Option<Naming>, faults: &mut Faults)
    ensures { (parts : PartTerms) (views : List Placed) (class : Placed) (document : ℕ) (label : Option TokenTerm) →
        TellsFacts parts views class facts.now → TellsNaming parts views document label naming.entry →
        Notes (LabelNamingFaults parts class document label) faults.old.first faults.new.first }
{
    if let Some(naming) = naming {
        let is_wrong = facts.forbid(naming.attribute);
        note_where(is_wrong, naming.document, naming.label, faults);
    }
}

/// Notes those of the steps of a rule.
fn note_steps(
    linkage: &Linkage,
    facts: &ClassFacts,
    document: u32,
    steps: &[Step],
    targets: &[Option<usize>],
    faults: &mut Faults,
)
    ensures { (parts : PartTerms) (class : Placed) → IsLinkage parts linkage.now →
        TellsFacts parts (found_views linkage.now.templates.now) class facts.now →
        AreEach (TellsStep parts linkage.now.templates.now document) (map step_term steps.now) targets.now →
        Notes (AnyOf (StepNamingFaults parts class document) (map step_term steps.now)) faults.old.first
        faults.new.first }
{
    for (place, step) in steps.iter().enumerate() {
        let target = step_target(linkage.templates, targets, place);
        note_naming(facts, step_naming(linkage, document, step, target), faults);
    }
}

/// Notes those of the rule that stands at a place.
fn note_rule(
    linkage: &Linkage,
    facts: &ClassFacts,
    rules: &[RuleText],
    targets: &[RuleTargets],
    place: usize,
    faults: &mut Faults,
)
    ensures { (parts : PartTerms) (class : Placed) → IsLinkage parts linkage.now →
        TellsFacts parts (found_views linkage.now.templates.now) class facts.now →
        rule_terms rules.now ≡ parts.rules →
        AreEach (IsRuleTargets parts linkage.now.templates.now) parts.rules targets.now →
        Notes (NamingFaultsAt parts class place) faults.old.first faults.new.first }
{
    let Some(rule) = rules.get(place) else {
        return;
    };
    let Some(own) = targets.get(place) else {
        return;
    };
    let steps = rule.rule.steps.as_slice();
    note_steps(
        linkage,
        facts,
        rule.document,
        steps,
        own.steps.as_slice(),
        faults,
    );
}

/// Notes those of the rules at these places.
fn note_row(
    linkage: &Linkage,
    facts: &ClassFacts,
    rules: &[RuleText],
    targets: &[RuleTargets],
    places: &[usize],
    faults: &mut Faults,
)
    ensures { (parts : PartTerms) (class : Placed) → IsLinkage parts linkage.now →
        TellsFacts parts (found_views linkage.now.templates.now) class facts.now →
        rule_terms rules.now ≡ parts.rules →
        AreEach (IsRuleTargets parts linkage.now.templates.now) parts.rules targets.now →
        Notes (AnyOf (NamingFaultsAt parts class) places.now) faults.old.first faults.new.first }
{
    for place in places.iter() {
        note_rule(linkage, facts, rules, targets, *place, faults);
    }
}

/// Notes those of the rules of a class, which stand at these places.
fn note_class(
    linkage: &Linkage,
    graph: &ClassGraph,
    class: usize,
    rules: &[RuleText],
    targets: &[RuleTargets],
    places: &[usize],
    faults: &mut Faults,
) -> Result<(), AllocError>
    ensures { OnOk result ((parts : PartTerms) (x : Placed) → IsLinkage parts linkage.now →
        IsGraph parts (found_views linkage.now.templates.now) graph.now →
        AllPairs AreTwo (found_views linkage.now.templates.now) →
        slice_get (found_views linkage.now.templates.now) class ≡ Some x → rule_terms rules.now ≡ parts.rules →
        AreEach (IsRuleTargets parts linkage.now.templates.now) parts.rules targets.now →
        Notes (AnyOf (NamingFaultsAt parts x) places.now) faults.old.first faults.new.first) }
{
    if places.len() == 0 {
        return Ok(());
    }
    let facts = graph.facts(class)?;
    note_row(linkage, &facts, rules, targets, places, faults);
    Ok(())
}

/// From the number of each class to the places of its rules.
fn rules_by_class(alloc: Global, count: usize, targets: &[RuleTargets]) -> Result<Graph, AllocError>
    ensures size { IfOk result (λ graph. length (target_lists graph) ≡ count) }
    ensures told { IfOk result (λ graph. AreByClass targets.now (target_lists graph)) }
{
    let mut graph = unlinked(alloc, count)?;
    for (place, own) in targets.iter().enumerate() {
        add_links(&mut graph, &[own.class], &[Some(place)])?;
    }
    Ok(graph)
}

/// Notes those of the rules of all classes, which stand at the places of these rows.
fn note_classes(
    linkage: &Linkage,
    graph: &ClassGraph,
    rows: &[Vec<usize>],
    rules: &[RuleText],
    targets: &[RuleTargets],
    faults: &mut Faults,
) -> Result<(), AllocError>
    ensures { OnOk result ((parts : PartTerms) → IsLinkage parts linkage.now →
        IsGraph parts (found_views linkage.now.templates.now) graph.now →
        AllPairs AreTwo (found_views linkage.now.templates.now) → rule_terms rules.now ≡ parts.rules →
        AreEach (IsRuleTargets parts linkage.now.templates.now) parts.rules targets.now →
        length (row_lists rows.now) ≡ length (found_views linkage.now.templates.now) →
        AreByClass targets.now (row_lists rows.now) →
        Notes (AllNamingFaults parts) faults.old.first faults.new.first) }
{
    for (class, places) in rows.iter().enumerate() {
        note_class(
            linkage,
            graph,
            class,
            rules,
            targets,
            places.as_slice(),
            faults,
        )?;
    }
    Ok(())
}

/// Notes the attributes that steps of rules name and may not. `targets` tells what the rules name.
pub(crate) fn note_names(
    linkage: &Linkage,
    graph: &ClassGraph,
    rules: &[RuleText],
    targets: &[RuleTargets],
    faults: &mut Faults,
) -> Result<(), AllocError>
    ensures { OnOk result ((parts : PartTerms) → IsLinkage parts linkage.now →
        IsGraph parts (found_views linkage.now.templates.now) graph.now →
        AllPairs AreTwo (found_views linkage.now.templates.now) → rule_terms rules.now ≡ parts.rules →
        AreEach (IsRuleTargets parts linkage.now.templates.now) parts.rules targets.now →
        Notes (AllNamingFaults parts) faults.old.first faults.new.first) }
{
    let by_class = rules_by_class(linkage.alloc, linkage.templates.len(), targets)?;
    note_classes(
        linkage,
        graph,
        by_class.targets.as_slice(),
        rules,
        targets,
        faults,
    )?;
    Ok(())
}
