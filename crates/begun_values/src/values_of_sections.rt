//! The first names in the values of rules and instances (docs/PROFILE.md, sections 9 and 12).

ghost use Rattle.std.specs.Prelude.{◌≡◌, OnOk, flat_map};
ghost use Rattle.gdmo_names.specs.PartTerms.{PartTerms};
ghost use Rattle.gdmo_names.specs.PartViews.{section_instances, section_rules};
ghost use Rattle.gdmo_targets.specs.SectionTables.{AreSectionTargets};
ghost use Rattle.gdmo_types.specs.Linkages.{IsLinkage};
ghost use Rattle.gdmo_begun_names.specs.BegunMarks.{Marks};
ghost use Rattle.begun_values.specs.SectionValues.{SectionFirsts};

use crate::values_of_instances::mark_all_instances;
use crate::values_of_rules::mark_all_rules;
use extra_syntax::section::Section;
use gdmo_begun_names::begun_names::BegunNames;
use gdmo_targets::section_references::SectionTargets;
use gdmo_types::linkage::Linkage;
use std::alloc::AllocError;

/// Marks the names in the values of rules and instances. `targets` tells which templates these name.
pub fn mark_section_values(
    linkage: &Linkage,
    sections: &[Section],
    targets: &SectionTargets,
    names: &mut BegunNames,
) -> Result<(), AllocError>
    ensures { OnOk result ((parts : PartTerms) → IsLinkage parts linkage.now →
        parts.rules ≡ flat_map section_rules sections.now →
        parts.instances ≡ flat_map section_instances sections.now →
        AreSectionTargets parts linkage.now.templates.now targets.now →
        Marks (SectionFirsts parts) names.old names.new) }
{
    mark_all_rules(linkage, sections, targets.rules.as_slice(), names)?;
    mark_all_instances(linkage, sections, targets.instances.as_slice(), names)
}
