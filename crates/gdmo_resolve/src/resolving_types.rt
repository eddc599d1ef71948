//! What depends on the types of attributes, and on the attributes of classes (X.722, section 8; docs/PROFILE.md,
//! sections 9 and 12).

ghost use Rattle.std.specs.Prelude.{◌≡◌, OnOk};
ghost use Rattle.asn1_names.specs.TermViews.{module_terms};
ghost use Rattle.gdmo_names.specs.FaultSets.{Notes};
ghost use Rattle.gdmo_names.specs.PartTerms.{PartTerms, module_terms_of};
ghost use Rattle.gdmo_rules.specs.FaultsOfSteps.{FaultsOfSteps};
ghost use Rattle.label_laws.specs.AllFaults.{OfTypes};
ghost use Rattle.type_numbers.specs.AskedTypes.{AreNumbers};
ghost use Rattle.gdmo_resolve.specs.Resolved.{AreKnownParts};

use crate::known_parts::KnownParts;
use class_graphs::class_members::class_graph;
use gdmo_names::first_fault::Faults;
use gdmo_rules::judging::judge_rules;
use gdmo_targets::stated_rules::note_stated_twice;
use gdmo_types::notification_fields::note_fields;
use std::alloc::AllocError;
use type_numbers::numbered_types::TypeNumbers;
use type_numbers::type_texts::TypeTexts;

/// Judges the steps of the rules, over the graph of classes.
fn judge_steps<'a, 't>(
    known: KnownParts<'a, 't>,
    numbers: &mut TypeNumbers<'a, 't>,
    faults: &mut Faults,
) -> Result<(), AllocError>
    ensures { OnOk result ((ps : PartTerms) → AreKnownParts ps known.entry →
        AreNumbers (module_terms_of ps) numbers.old → Notes (FaultsOfSteps ps) faults.old.first faults.new.first) }
{
    let sections = known.parts.sections.as_slice();
    let targets = known.targets;
    let graph = class_graph(known.linkage, sections, targets.instances.as_slice())?;
    let rules = targets.rules.as_slice();
    judge_rules(known.linkage, numbers, sections, rules, &graph, faults)
}

/// Notes what depends on types, with numbers for them.
fn note_typed<'a, 't>(
    known: KnownParts<'a, 't>,
    numbers: &mut TypeNumbers<'a, 't>,
    faults: &mut Faults,
) -> Result<(), AllocError>
    ensures { OnOk result ((ps : PartTerms) → AreKnownParts ps known.entry →
        AreNumbers (module_terms_of ps) numbers.old → Notes (OfTypes ps) faults.old.first faults.new.first) }
{
    let linkage = known.linkage;
    note_fields(linkage, numbers, faults)?;
    let sections = known.parts.sections.as_slice();
    let rules = known.targets.rules.as_slice();
    note_stated_twice(linkage.alloc, linkage.templates, sections, rules, faults)?;
    judge_steps(known, numbers, faults)
}

/// Notes what depends on the texts of types.
fn note_texts<'a>(
    known: KnownParts<'a, '_>,
    texts: &TypeTexts<'a, '_>,
    faults: &mut Faults,
) -> Result<(), AllocError>
    ensures { OnOk result ((ps : PartTerms) → AreKnownParts ps known.entry →
        module_terms texts.now ≡ module_terms_of ps → Notes (OfTypes ps) faults.old.first faults.new.first) }
{
    let mut numbers = TypeNumbers::new(known.linkage.alloc, known.linkage.types, texts)?;
    note_typed(known, &mut numbers, faults)
}

/// Notes what depends on types.
pub(crate) fn note_types(known: KnownParts, faults: &mut Faults) -> Result<(), AllocError>
    ensures { OnOk result ((ps : PartTerms) → AreKnownParts ps known.entry →
        Notes (OfTypes ps) faults.old.first faults.new.first) }
{
    let texts = TypeTexts::new(known.linkage.alloc, known.tables)?;
    note_texts(known, &texts, faults)
}
