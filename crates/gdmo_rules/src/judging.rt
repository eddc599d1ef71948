//! What the steps of rules may not say (docs/PROFILE.md, sections 9 and 12).

ghost use Rattle.std.specs.Prelude.{◌≡◌, List, OnOk, flat_map};
ghost use Rattle.asn1_names.specs.ModuleTerms.{ModuleTerm};
ghost use Rattle.gdmo_names.specs.FaultSets.{Notes};
ghost use Rattle.gdmo_names.specs.FoundViews.{found_views};
ghost use Rattle.gdmo_names.specs.InStep.{AreEach};
ghost use Rattle.gdmo_names.specs.PartTerms.{PartTerms, module_terms_of};
ghost use Rattle.gdmo_names.specs.PartViews.{section_rules};
ghost use Rattle.gdmo_names.specs.TargetTables.{ArePlacedApart};
ghost use Rattle.gdmo_targets.specs.SectionTables.{IsRuleTargets};
ghost use Rattle.gdmo_types.specs.Linkages.{IsLinkage};
ghost use Rattle.class_graphs.specs.ClassGraphs.{IsGraph};
ghost use Rattle.gdmo_rules.specs.FaultsOfSteps.{FaultsOfSteps};
ghost use Rattle.type_numbers.specs.AskedTypes.{AreNumbers, StayNumbers};

use crate::rule_texts::rules_of;
use crate::step_names::note_names;
use crate::step_types::judge_types;
use class_graphs::class_members::ClassGraph;
use extra_syntax::section::Section;
use gdmo_names::first_fault::Faults;
use gdmo_targets::section_references::RuleTargets;
use gdmo_types::linkage::Linkage;
use std::alloc::AllocError;
use type_numbers::numbered_types::TypeNumbers;

/// Notes what the steps of rules may not say. `targets` tells what the rules name.
pub fn judge_rules<'a>(
    linkage: &Linkage,
    numbers: &mut TypeNumbers,
    sections: &'a [Section],
    targets: &[RuleTargets],
    graph: &ClassGraph,
    faults: &mut Faults,
) -> Result<(), AllocError>
    // a fault for each sentence
    ensures noted { OnOk result ((parts : PartTerms) → IsLinkage parts linkage.now → ArePlacedApart parts →
        AreNumbers (module_terms_of parts) numbers.old →
        IsGraph parts (found_views linkage.now.templates.now) graph.now →
        parts.rules ≡ flat_map section_rules sections.now →
        AreEach (IsRuleTargets parts linkage.now.templates.now) parts.rules targets.now →
        Notes (FaultsOfSteps parts) faults.old.first faults.new.first) }

    // what had a number keeps it
    ensures stays { (ms : List ModuleTerm) → AreNumbers ms numbers.old → StayNumbers ms numbers.old numbers.new }
{
    let rules = rules_of(linkage.alloc, sections)?;
    judge_types(linkage, numbers, rules.as_slice(), targets, faults)?;
    note_names(linkage, graph, rules.as_slice(), targets, faults)?;
    Ok(())
}
