//! The first names in the values of instances (docs/PROFILE.md, sections 9 and 12).

ghost use Rattle.std.specs.Prelude.{◌≡◌, [], ◌∷◌, ℕ, IfOk, None, OnOk, flat_map, map};
ghost use Rattle.gdmo_names.specs.InStep.{AreEach};
ghost use Rattle.gdmo_names.specs.Mentions.{Role, wanted_kind};
ghost use Rattle.gdmo_names.specs.Mentions.Role.{GivenAttribute};
ghost use Rattle.gdmo_names.specs.PartTerms.{PartTerms};
ghost use Rattle.gdmo_names.specs.PartViews.{instance_term, pair_term, pair_terms, section_instances};
ghost use Rattle.gdmo_names.specs.TemplateTerms.TemplateKind.{AttributeKind};
ghost use Rattle.gdmo_targets.specs.SectionTables.{IsInstanceTargets, TellsPair};
ghost use Rattle.gdmo_types.specs.Linkages.{IsLinkage};
ghost use Rattle.gdmo_begun_names.specs.BegunMarks.{AnyFirst, Marks};
ghost use Rattle.begun_values.specs.SectionValues.{GoesOn, InstanceFirsts, PairFirsts};

use crate::stated_values::{mark_attribute, target_at};
use extra_syntax::assignment::Assignment;
use extra_syntax::instance::Instance;
use extra_syntax::instances::InstancesSection;
use extra_syntax::section::Section;
use gdmo_begun_names::begun_names::BegunNames;
use gdmo_targets::section_references::InstanceTargets;
use gdmo_types::linkage::Linkage;
use std::alloc::AllocError;

/// Marks the names in the values of pairs.
fn mark_pairs(
    linkage: &Linkage,
    pairs: &[Assignment],
    targets: &[Option<usize>],
    names: &mut BegunNames,
) -> Result<(), AllocError>
    ensures { OnOk result ((parts : PartTerms) (document : ℕ) (role : Role) → IsLinkage parts linkage.now →
        wanted_kind role ≡ AttributeKind →
        AreEach (TellsPair parts linkage.now.templates.now document role) (map pair_term pairs.now) targets.now →
        Marks (AnyFirst (PairFirsts parts document role) (map pair_term pairs.now)) names.old names.new) }
{
    for (k, pair) in pairs.iter().enumerate() {
        mark_attribute(linkage, target_at(targets, k), &pair.value, names)?;
    }
    Ok(())
}

/// Marks the names in the values behind WITH.
fn mark_given(
    linkage: &Linkage,
    values: &Option<Vec<Assignment>>,
    targets: &[Option<usize>],
    names: &mut BegunNames,
) -> Result<(), AllocError>
    ensures { OnOk result ((parts : PartTerms) (document : ℕ) → IsLinkage parts linkage.now →
        AreEach (TellsPair parts linkage.now.templates.now document GivenAttribute) (pair_terms values.now)
        targets.now →
        Marks (AnyFirst (PairFirsts parts document GivenAttribute) (pair_terms values.now)) names.old names.new) }
{
    match values {
        Some(values) => mark_pairs(linkage, values.as_slice(), targets, names),
        None => Ok(()),
    }
}

/// Marks the names in the values of an instance.
fn mark_instance(
    linkage: &Linkage,
    instance: &Instance,
    own: &InstanceTargets,
    names: &mut BegunNames,
) -> Result<(), AllocError>
    ensures { OnOk result ((parts : PartTerms) (document : ℕ) → IsLinkage parts linkage.now →
        IsInstanceTargets parts linkage.now.templates.now (instance_term document instance.now) own.now →
        Marks (InstanceFirsts parts (instance_term document instance.now)) names.old names.new) }
{
    mark_pairs(
        linkage,
        instance.name.as_slice(),
        own.name.as_slice(),
        names,
    )?;
    mark_given(linkage, &instance.values, own.given.as_slice(), names)
}

/// Marks the names in the values of the instance whose targets stand at a place; tells the next place.
fn mark_instance_at(
    linkage: &Linkage,
    instance: &Instance,
    targets: &[InstanceTargets],
    at: usize,
    names: &mut BegunNames,
) -> Result<usize, AllocError>
    ensures { IfOk result (λ next. (parts : PartTerms) (document : ℕ) → IsLinkage parts linkage.now →
        GoesOn (IsInstanceTargets parts linkage.now.templates.now) (InstanceFirsts parts)
        (instance_term document instance.now ∷ []) targets.now at next names.old names.new) }
{
    match targets.get(at) {
        Some(own) => {
            mark_instance(linkage, instance, own, names)?;
            Ok(at + 1)
        }
        None => Ok(at),
    }
}

/// Marks the names in the values of a section of instances, of which the targets of the first stand at a place; tells
/// the next place.
fn mark_instances(
    linkage: &Linkage,
    section: &InstancesSection,
    targets: &[InstanceTargets],
    at: usize,
    names: &mut BegunNames,
) -> Result<usize, AllocError>
    ensures { IfOk result (λ next. (parts : PartTerms) → IsLinkage parts linkage.now →
        GoesOn (IsInstanceTargets parts linkage.now.templates.now) (InstanceFirsts parts)
        (map (instance_term section.now.document) section.now.instances.items) targets.now at next names.old
        names.new) }
{
    let mut next = at;
    let instances = section.instances.as_slice();
    for instance in instances.iter() {
        next = mark_instance_at(linkage, instance, targets, next, names)?;
    }
    Ok(next)
}

/// The same of a section of rules or of instances.
fn mark_section_instances(
    linkage: &Linkage,
    section: &Section,
    targets: &[InstanceTargets],
    at: usize,
    names: &mut BegunNames,
) -> Result<usize, AllocError>
    ensures { IfOk result (λ next. (parts : PartTerms) → IsLinkage parts linkage.now →
        GoesOn (IsInstanceTargets parts linkage.now.templates.now) (InstanceFirsts parts)
        (section_instances section.now) targets.now at next names.old names.new) }
{
    match section {
        Section::Instances(section) => mark_instances(linkage, section, targets, at, names),
        Section::Rules(_) => Ok(at),
    }
}

/// Marks the names in the values of the instances of sections.
pub(crate) fn mark_all_instances(
    linkage: &Linkage,
    sections: &[Section],
    targets: &[InstanceTargets],
    names: &mut BegunNames,
) -> Result<(), AllocError>
    ensures { OnOk result ((parts : PartTerms) → IsLinkage parts linkage.now →
        AreEach (IsInstanceTargets parts linkage.now.templates.now) (flat_map section_instances sections.now)
        targets.now →
        Marks (AnyFirst (InstanceFirsts parts) (flat_map section_instances sections.now)) names.old names.new) }
{
    let mut next = 0;
    for section in sections.iter() {
        next = mark_section_instances(linkage, section, targets, next, names)?;
    }
    Ok(())
}
