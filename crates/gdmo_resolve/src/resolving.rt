//! The call that replaces references by their targets, or tells the first fault (X.722, section 8; docs/PROFILE.md,
//! section 12). Each step makes one table and lends it to the next one.

ghost use Rattle.std.specs.Prelude.{◌≡◌, IfErr, IfOk, None, OnOk, Some, option_map, slice_get};
ghost use Rattle.asn1_names.specs.TermViews.{module_terms};
ghost use Rattle.gdmo_names.specs.FaultSets.{Either, LabelledTwice, Notes};
ghost use Rattle.gdmo_names.specs.FirstLabelFault.{AreFaultless, TellsFirstFault};
ghost use Rattle.gdmo_first_names.specs.ReadModules.{HasModules};
ghost use Rattle.gdmo_names.specs.FoundViews.{AreLabels, found_term, found_view};
ghost use Rattle.gdmo_names.specs.InStep.{AreEach};
ghost use Rattle.gdmo_names.specs.Mentions.{template_mentions};
ghost use Rattle.gdmo_names.specs.PartTerms.{PartTerms, module_terms_of};
ghost use Rattle.gdmo_names.specs.PartViews.{part_terms};
ghost use Rattle.gdmo_names.specs.TargetTables.{AreFound, AreTargets, HasMentions, TellsMention};
ghost use Rattle.gdmo_types.specs.Linkages.{IsLinkage};
ghost use Rattle.gdmo_types.specs.ModuleNames.{AreModuleNames, DoubleModuleNames};
ghost use Rattle.label_laws.specs.AllFaults.{OfAllNames, OfNames, OfTemplates, WithNames, WithSections};
ghost use Rattle.label_laws.specs.ReadTexts.{AreReadParts};
ghost use Rattle.linked_documents.specs.LinkedParts.{AreLinkedParts};
ghost use Rattle.gdmo_resolve.specs.Resolved.{AreKnownParts, Concludes};

use crate::known_parts::KnownParts;
use crate::resolving_names::resolve_names;
use crate::resolving_types::note_types;
use asn1_names::name_tables::NameTables;
use asn1_types::Types;
use gdmo_names::finding_classes::find_templates;
use gdmo_names::first_fault::Faults;
use gdmo_names::found::Found;
use gdmo_names::parsed::Parsed;
use gdmo_names::refusal::LabelRefusal;
use gdmo_targets::fixed_groups::note_fixed_groups;
use gdmo_targets::labels::{label_table, note_double_labels, targets_of};
use gdmo_targets::section_references::Labelled;
use gdmo_types::attribute_types::attribute_types;
use gdmo_types::linkage::Linkage;
use gdmo_types::module_names::{NamedThings, module_names};
use indexmap::IndexMap;
use linked_parts::linked::Linked;
use std::alloc::{AllocError, Global};

/// Notes what is wrong with the names of types and values in a template, and with FIXED groups. `targets` are those of
/// what it names.
fn note_named<'a>(
    things: &NamedThings<'a, '_>,
    templates: &[Found<'a>],
    found: &Found<'a>,
    targets: &[Option<usize>],
    faults: &mut Faults,
)
    ensures { (ps : PartTerms) → AreModuleNames (module_terms_of ps) things.now.modules.now →
        module_terms things.now.types.now ≡ module_terms_of ps → HasMentions templates.now found.now →
        AreEach (TellsMention ps templates.now found.now.document) (template_mentions (found_term found.now))
        targets.now → Notes (OfNames ps (found_view found.now)) faults.old.first faults.new.first }
{
    things.note_template(found.document, &found.body, faults);
    note_fixed_groups(templates, found, targets, faults);
}

/// The targets of the template at a place.
fn targets_at(targets: &[Vec<Option<usize>>], place: usize) -> Option<&Vec<Option<usize>>>
    ensures { option_map (λ x. x.now) result ≡ slice_get targets.now place }
{
    targets.get(place)
}

/// The same of the template at a place. `targets` are those of all templates.
fn note_at<'a>(
    things: &NamedThings<'a, '_>,
    templates: &[Found<'a>],
    place: usize,
    found: &Found<'a>,
    targets: &[Vec<Option<usize>>],
    faults: &mut Faults,
)
    ensures { (ps : PartTerms) → AreModuleNames (module_terms_of ps) things.now.modules.now →
        module_terms things.now.types.now ≡ module_terms_of ps → HasMentions templates.now found.now →
        AreTargets ps templates.now targets.now → slice_get templates.now place ≡ Some found.now →
        Notes (OfNames ps (found_view found.now)) faults.old.first faults.new.first }
{
    match targets_at(targets, place) {
        Some(own) => note_named(things, templates, found, own.as_slice(), faults),
        None => {}
    }
}

/// The same of all templates.
fn note_templates<'a>(
    things: &NamedThings<'a, '_>,
    templates: &[Found<'a>],
    targets: &[Vec<Option<usize>>],
    faults: &mut Faults,
)
    ensures { (ps : PartTerms) → AreFound ps templates.now → AreTargets ps templates.now targets.now →
        AreModuleNames (module_terms_of ps) things.now.modules.now →
        module_terms things.now.types.now ≡ module_terms_of ps →
        Notes (OfAllNames ps) faults.old.first faults.new.first }
{
    for (place, found) in templates.iter().enumerate() {
        note_at(things, templates, place, found, targets, faults);
    }
}

/// Notes what is wrong with the names of modules, with those of types and values in templates, and with FIXED groups.
fn note_names<'a>(
    alloc: Global,
    parts: &'a Parsed,
    types: &Types<'a>,
    templates: &[Found<'a>],
    targets: &[Vec<Option<usize>>],
    faults: &mut Faults,
) -> Result<(), AllocError>
    ensures { OnOk result ((ps : PartTerms) → HasModules ps parts.now.modules.items →
        module_terms types.now ≡ module_terms_of ps → AreFound ps templates.now →
        AreTargets ps templates.now targets.now →
        Notes (Either (DoubleModuleNames (module_terms_of ps)) (OfAllNames ps)) faults.old.first
        faults.new.first) }
{
    let modules = module_names(alloc, parts.modules.as_slice(), faults)?;
    let things = NamedThings {
        modules: &modules,
        types,
    };
    note_templates(&things, templates, targets, faults);
    Ok(())
}

/// Judges what depends on types, and links everything where nothing is wrong.
fn resolve_known(known: KnownParts, faults: &mut Faults) -> Result<Linked, LabelRefusal>
    ensures { (ps : PartTerms) → AreKnownParts ps known.entry → Notes (WithSections ps) None faults.old.first →
        Concludes ps result }
{
    note_types(known, faults)?;
    resolve_names(known, faults)
}

/// Resolves the sections, and links everything where nothing is wrong.
fn resolve_sections<'a>(
    parts: &'a Parsed,
    linkage: &Linkage<'a, '_>,
    tables: &NameTables<'a>,
    faults: &mut Faults,
) -> Result<Linked, LabelRefusal>
    ensures { AreReadParts (part_terms parts.now) → IsLinkage (part_terms parts.now) linkage.now →
        tables.now ≡ parts.now.modules.items → Notes (WithNames (part_terms parts.now)) None faults.old.first →
        Concludes (part_terms parts.now) result }
{
    let labelled = Labelled {
        alloc: linkage.alloc,
        templates: linkage.templates,
        labels: linkage.labels,
    };
    let targets = labelled.section_targets(parts.sections.as_slice(), faults)?;
    let known = KnownParts {
        parts,
        linkage,
        tables,
        targets: &targets,
    };
    resolve_known(known, faults)
}

/// Resolves what depends on the names of modules.
fn resolve_linkage<'a>(
    parts: &'a Parsed,
    linkage: &Linkage<'a, '_>,
    faults: &mut Faults,
) -> Result<Linked, LabelRefusal>
    ensures { AreReadParts (part_terms parts.now) → IsLinkage (part_terms parts.now) linkage.now →
        Notes (WithNames (part_terms parts.now)) None faults.old.first → Concludes (part_terms parts.now) result }
{
    let tables = NameTables::new(linkage.alloc, parts.modules.as_slice())?;
    resolve_sections(parts, linkage, &tables, faults)
}

/// Resolves what depends on the types of attributes.
fn resolve_attributes<'a>(
    alloc: Global,
    parts: &'a Parsed,
    types: &Types<'a>,
    templates: &[Found<'a>],
    labels: &IndexMap<&'a [u8], usize>,
    targets: &[Vec<Option<usize>>],
    faults: &mut Faults,
) -> Result<Linked, LabelRefusal>
    ensures { AreReadParts (part_terms parts.now) →
        module_terms types.now ≡ module_terms_of (part_terms parts.now) →
        AreFound (part_terms parts.now) templates.now → AreLabels (part_terms parts.now) templates.now labels.now →
        AreTargets (part_terms parts.now) templates.now targets.now →
        Notes (WithNames (part_terms parts.now)) None faults.old.first → Concludes (part_terms parts.now) result }
{
    let attributes = attribute_types(alloc, templates, targets, types)?;
    let linkage = Linkage {
        alloc,
        templates,
        labels,
        targets,
        types,
        attributes: attributes.as_slice(),
    };
    resolve_linkage(parts, &linkage, faults)
}

/// Judges the names in templates whose references were looked up, and resolves the rest.
fn resolve_templates<'a>(
    alloc: Global,
    parts: &'a Parsed,
    types: &Types<'a>,
    templates: &[Found<'a>],
    labels: &IndexMap<&'a [u8], usize>,
    targets: &[Vec<Option<usize>>],
    faults: &mut Faults,
) -> Result<Linked, LabelRefusal>
    ensures { AreReadParts (part_terms parts.now) →
        module_terms types.now ≡ module_terms_of (part_terms parts.now) →
        AreFound (part_terms parts.now) templates.now → AreLabels (part_terms parts.now) templates.now labels.now →
        AreTargets (part_terms parts.now) templates.now targets.now →
        Notes (OfTemplates (part_terms parts.now)) None faults.old.first → Concludes (part_terms parts.now) result }
{
    note_names(alloc, parts, types, templates, targets, faults)?;
    resolve_attributes(alloc, parts, types, templates, labels, targets, faults)
}

/// Resolves the references of templates that were found, whose labels have these meanings.
fn resolve_labelled<'a>(
    alloc: Global,
    parts: &'a Parsed,
    types: &Types<'a>,
    templates: &[Found<'a>],
    labels: &IndexMap<&'a [u8], usize>,
    faults: &mut Faults,
) -> Result<Linked, LabelRefusal>
    ensures { AreReadParts (part_terms parts.now) →
        module_terms types.now ≡ module_terms_of (part_terms parts.now) →
        AreFound (part_terms parts.now) templates.now → AreLabels (part_terms parts.now) templates.now labels.now →
        Notes (LabelledTwice (part_terms parts.now)) None faults.old.first → Concludes (part_terms parts.now) result }
{
    let targets = targets_of(alloc, templates, labels, faults)?;
    resolve_templates(
        alloc,
        parts,
        types,
        templates,
        labels,
        targets.as_slice(),
        faults,
    )
}

/// Resolves the references of templates that were found.
fn resolve_found<'a>(
    alloc: Global,
    parts: &'a Parsed,
    types: &Types<'a>,
    templates: &[Found<'a>],
    faults: &mut Faults,
) -> Result<Linked, LabelRefusal>
    ensures { AreReadParts (part_terms parts.now) →
        module_terms types.now ≡ module_terms_of (part_terms parts.now) →
        AreFound (part_terms parts.now) templates.now → faults.old.first ≡ None →
        Concludes (part_terms parts.now) result }
{
    let labels = label_table(alloc, templates)?;
    note_double_labels(templates, &labels, faults);
    resolve_labelled(alloc, parts, types, templates, &labels, faults)
}

/// The same of those of all documents.
fn resolve_parts<'a>(
    alloc: Global,
    parts: &'a Parsed,
    types: &Types<'a>,
) -> Result<Linked, LabelRefusal>
    ensures { AreReadParts (part_terms parts.now) →
        module_terms types.now ≡ module_terms_of (part_terms parts.now) → Concludes (part_terms parts.now) result }
{
    let mut faults = Faults { first: None };
    let found = find_templates(alloc, parts)?;
    resolve_found(alloc, parts, types, found.as_slice(), &mut faults)
}

/// Replaces the references of all templates, rules and instances of a set of documents by their targets, or tells the
/// first fault, by document, by token and in the order of [`LabelRefusal`]. `types` are the types of the modules of
/// `parts`, which were read (`AreReadParts`). `Memory` comes where there is no memory for the tables. The parts stay as
/// they are.
pub fn resolve_labels<'a>(
    alloc: Global,
    parts: &'a Parsed,
    types: &Types<'a>,
) -> Result<Linked, LabelRefusal>
    // nothing is wrong, and these are the linked parts
    ensures linked { IfOk result (λ linked. AreReadParts (part_terms parts.now) →
        module_terms types.now ≡ module_terms_of (part_terms parts.now) →
        AreFaultless (part_terms parts.now) × AreLinkedParts (part_terms parts.now) linked) }

    // the first fault
    ensures cause { IfErr result (λ refusal. AreReadParts (part_terms parts.now) →
        module_terms types.now ≡ module_terms_of (part_terms parts.now) →
        TellsFirstFault (part_terms parts.now) refusal) }
{
    resolve_parts(alloc, parts, types)
}
