//! Instances with the targets of their references (docs/PROFILE.md, sections 9 and 12).

ghost use Rattle.std.specs.Prelude.{◌≡◌, ◌<◌, ℕ, [], ◌∷◌, false, IfOk, OnOk, flat_map, map};
ghost use Rattle.gdmo_linking.specs.Linkers.{IsLinker};
ghost use Rattle.gdmo_names.specs.InStep.{AreAll, AreEach};
ghost use Rattle.gdmo_names.specs.Mentions.{Role};
ghost use Rattle.gdmo_names.specs.PartTerms.{PartTerms};
ghost use Rattle.gdmo_names.specs.PartViews.{instance_term, is_root_kind, pair_term, pair_terms};
ghost use Rattle.gdmo_names.specs.PartViews.{section_instances};
ghost use Rattle.gdmo_targets.specs.SectionTables.{IsInstanceTargets, TellsPair};
ghost use Rattle.linked_sections.specs.KnownSections.{AreKnownInstances, IsCompleteInstance};
ghost use Rattle.linked_sections.specs.KnownSections.{IsCompletePair};
ghost use Rattle.linked_sections.specs.LinkedSections.{IsInstance, IsPair};
ghost use Rattle.linked_sections.specs.SectionTexts.{Pushes};

use crate::linking_steps::copied_value;
use extra_syntax::assignment::Assignment;
use extra_syntax::instance::{Instance, InstanceKind};
use extra_syntax::instances::InstancesSection;
use extra_syntax::section::Section;
use gdmo_linking::linking::{Linker, target_at};
use gdmo_targets::section_references::InstanceTargets;
use linked_parts::linked::{LinkedInstance, LinkedPair};
use std::alloc::AllocError;

/// Pairs of attributes and values.
fn linked_pairs(
    linker: &Linker,
    pairs: &[Assignment],
    targets: &[Option<usize>],
) -> Result<Vec<LinkedPair>, AllocError>
    ensures { IfOk result (λ xs. (parts : PartTerms) (document : ℕ) (role : Role) → IsLinker parts linker.now →
        AreAll (IsCompletePair parts document role) (map pair_term pairs.now) →
        AreEach (TellsPair parts linker.now.linkage.templates.now document role) (map pair_term pairs.now) targets.now →
        AreEach (IsPair parts document role) (map pair_term pairs.now) xs.items) }
{
    let mut linked = Vec::new(linker.linkage.alloc);
    for (k, pair) in pairs.iter().enumerate() {
        let value = copied_value(linker, &pair.value)?;
        linked.push(LinkedPair {
            attribute: linker.place(target_at(targets, k)),
            value,
        })?;
    }
    Ok(linked)
}

/// Pairs that may stand.
fn optional_pairs(
    linker: &Linker,
    pairs: &Option<Vec<Assignment>>,
    targets: &[Option<usize>],
) -> Result<Vec<LinkedPair>, AllocError>
    ensures { IfOk result (λ xs. (parts : PartTerms) (document : ℕ) (role : Role) → IsLinker parts linker.now →
        AreAll (IsCompletePair parts document role) (pair_terms pairs.now) →
        AreEach (TellsPair parts linker.now.linkage.templates.now document role) (pair_terms pairs.now) targets.now →
        AreEach (IsPair parts document role) (pair_terms pairs.now) xs.items) }
{
    match pairs {
        Some(pairs) => Ok(linked_pairs(linker, pairs.as_slice(), targets)?),
        None => Ok(Vec::new(linker.linkage.alloc)),
    }
}

/// Whether ROOT stands.
fn is_root(kind: &InstanceKind) -> bool
    ensures { result ≡ is_root_kind kind.now }
{
    match kind {
        InstanceKind::Root(_) => true,
        InstanceKind::Object(_) => false,
    }
}

/// An instance.
fn linked_instance(
    linker: &Linker,
    instance: &Instance,
    own: &InstanceTargets,
) -> Result<LinkedInstance, AllocError>
    ensures { IfOk result (λ x. (parts : PartTerms) (document : ℕ) → IsLinker parts linker.now →
        IsCompleteInstance parts (instance_term document instance.now) →
        IsInstanceTargets parts linker.now.linkage.templates.now (instance_term document instance.now) own.now →
        IsInstance parts (instance_term document instance.now) x) }
{
    let name = linked_pairs(linker, instance.name.as_slice(), own.name.as_slice())?;
    let given = optional_pairs(linker, &instance.values, own.given.as_slice())?;
    let packages = linker.places(own.packages.as_slice())?;
    let class = linker.place(own.class);
    Ok(LinkedInstance {
        document: own.document,
        is_root: is_root(&instance.kind),
        class,
        name,
        given,
        packages,
    })
}

/// Adds an instance behind those that were linked.
fn push_instance(
    linker: &Linker,
    instance: &Instance,
    targets: &[InstanceTargets],
    linked: &mut Vec<LinkedInstance>,
) -> Result<(), AllocError>
    ensures { OnOk result ((parts : PartTerms) (document : ℕ) → IsLinker parts linker.now →
        Pushes (AreKnownInstances parts linker.now targets.now) (IsInstance parts) (instance_term document instance.now ∷ [])
        linked.old.items linked.new.items) }
{
    match targets.get(linked.as_slice().len()) {
        Some(own) => {
            let instance = linked_instance(linker, instance, own)?;
            linked.push(instance)?;
            Ok(())
        }
        None => Ok(()),
    }
}

/// Adds the instances of a section of instances.
fn push_all_instances(
    linker: &Linker,
    section: &InstancesSection,
    targets: &[InstanceTargets],
    linked: &mut Vec<LinkedInstance>,
) -> Result<(), AllocError>
    ensures { OnOk result ((parts : PartTerms) → IsLinker parts linker.now →
        Pushes (AreKnownInstances parts linker.now targets.now) (IsInstance parts)
        (map (instance_term section.now.document) section.now.instances.items) linked.old.items linked.new.items) }
{
    let instances = section.instances.as_slice();
    for instance in instances.iter() {
        push_instance(linker, instance, targets, linked)?;
    }
    Ok(())
}

/// Adds the instances of a section.
fn push_instances(
    linker: &Linker,
    section: &Section,
    targets: &[InstanceTargets],
    linked: &mut Vec<LinkedInstance>,
) -> Result<(), AllocError>
    ensures { OnOk result ((parts : PartTerms) → IsLinker parts linker.now →
        Pushes (AreKnownInstances parts linker.now targets.now) (IsInstance parts) (section_instances section.now)
        linked.old.items linked.new.items) }
{
    match section {
        Section::Instances(section) => {
            push_all_instances(linker, section, targets, linked)?;
            Ok(())
        }
        Section::Rules(_) => Ok(()),
    }
}

/// The instances of sections.
pub fn linked_instances(
    linker: &Linker,
    sections: &[Section],
    targets: &[InstanceTargets],
) -> Result<Vec<LinkedInstance>, AllocError>
    ensures { IfOk result (λ xs. (parts : PartTerms) → IsLinker parts linker.now →
        AreKnownInstances parts linker.now targets.now (flat_map section_instances sections.now) →
        AreEach (IsInstance parts) (flat_map section_instances sections.now) xs.items) }
{
    let mut linked = Vec::new(linker.linkage.alloc);
    for section in sections.iter() {
        push_instances(linker, section, targets, &mut linked)?;
    }
    Ok(linked)
}
