//! All parts of documents with the targets of their references (X.722, section 8; docs/PROFILE.md, section 12).

ghost use Rattle.std.specs.Prelude.{◌≡◌, [], IfOk};
ghost use Rattle.asn1_names.specs.TermViews.{module_terms};
ghost use Rattle.gdmo_linking.specs.Linkers.{IsLinker};
ghost use Rattle.gdmo_names.specs.DocumentTemplates.{templates};
ghost use Rattle.gdmo_names.specs.InStep.{AreAll, AreEach};
ghost use Rattle.gdmo_names.specs.PartTerms.{PartTerms, module_terms_of};
ghost use Rattle.gdmo_types.specs.Linkages.{IsLinkage};
ghost use Rattle.linked_documents.specs.CompleteParts.{AreComplete, AreKnownSections, AreToldNames};
ghost use Rattle.linked_documents.specs.LinkedParts.{AreLinkedParts};
ghost use Rattle.linked_templates.specs.TemplateTables.{AreLinkedTemplates, IsComplete, IsRegistered};

use asn1_names::name_tables::NameTables;
use extra_syntax::section::Section;
use gdmo_linking::linking::{Linker, assignment_places, kind_places};
use gdmo_targets::section_references::SectionTargets;
use gdmo_types::linkage::Linkage;
use linked_parts::linked::{Linked, LinkedFirstName, LinkedInstance, LinkedRule};
use linked_sections::linking_instances::linked_instances;
use linked_sections::linking_rules::linked_rules;
use linked_templates::linking_templates::link_templates;
use std::alloc::{AllocError, Global};
use term_values::Oid;

/// Linked parts with no templates, and these rules, instances and first names.
fn no_templates(
    alloc: Global,
    rules: Vec<LinkedRule>,
    instances: Vec<LinkedInstance>,
    first_names: Vec<LinkedFirstName>,
) -> Linked
    ensures tables { (parts : PartTerms) → AreLinkedTemplates parts [] result }
    ensures rules { result.rules ≡ rules }
    ensures instances { result.instances ≡ instances }
    ensures first_names { result.first_names ≡ first_names }
{
    Linked {
        classes: Vec::new(alloc),
        packages: Vec::new(alloc),
        bindings: Vec::new(alloc),
        attributes: Vec::new(alloc),
        groups: Vec::new(alloc),
        actions: Vec::new(alloc),
        notifications: Vec::new(alloc),
        rules,
        instances,
        first_names,
    }
}

/// Links the templates beside these rules, instances and first names.
fn with_templates(
    linker: &Linker,
    identifiers: &[Option<Oid>],
    rules: Vec<LinkedRule>,
    instances: Vec<LinkedInstance>,
    first_names: Vec<LinkedFirstName>,
) -> Result<Linked, AllocError>
    ensures tables { IfOk result (λ x. (parts : PartTerms) → IsLinker parts linker.now →
        AreAll (IsComplete parts) (templates parts) →
        AreEach (IsRegistered parts) (templates parts) identifiers.now →
        AreLinkedTemplates parts (templates parts) x) }
    ensures rules { IfOk result (λ x. x.rules ≡ rules) }
    ensures instances { IfOk result (λ x. x.instances ≡ instances) }
    ensures first_names { IfOk result (λ x. x.first_names ≡ first_names) }
{
    let mut linked = no_templates(linker.linkage.alloc, rules, instances, first_names);
    link_templates(linker, identifiers, &mut linked)?;
    Ok(linked)
}

/// Links everything.
fn linked_by(
    linker: &Linker,
    sections: &[Section],
    targets: &SectionTargets,
    identifiers: &[Option<Oid>],
    first_names: Vec<LinkedFirstName>,
) -> Result<Linked, AllocError>
    ensures { IfOk result (λ x. (parts : PartTerms) → IsLinker parts linker.now → AreComplete parts →
        AreKnownSections parts linker.now.linkage.templates.now sections.now targets.now →
        AreToldNames parts identifiers.now first_names.items → AreLinkedParts parts x) }
{
    let rules = linked_rules(linker, sections, targets.rules.as_slice())?;
    let instances = linked_instances(linker, sections, targets.instances.as_slice())?;
    let linked = with_templates(linker, identifiers, rules, instances, first_names)?;
    Ok(linked)
}

/// Links the templates, the rules and the instances. `identifiers` has those under which the templates are registered,
/// in their order, `targets` what the sections name, and `first_names` what first names stand for.
pub fn link_parts(
    linkage: &Linkage,
    tables: &NameTables,
    sections: &[Section],
    targets: &SectionTargets,
    identifiers: &[Option<Oid>],
    first_names: Vec<LinkedFirstName>,
) -> Result<Linked, AllocError>
    ensures { IfOk result (λ x. (parts : PartTerms) → IsLinkage parts linkage.now →
        module_terms tables.now ≡ module_terms_of parts → AreComplete parts →
        AreKnownSections parts linkage.now.templates.now sections.now targets.now →
        AreToldNames parts identifiers.now first_names.items → AreLinkedParts parts x) }
{
    let places = kind_places(linkage.alloc, linkage.templates)?;
    let assignments = assignment_places(linkage.alloc, tables)?;
    let linker = Linker {
        linkage: *linkage,
        places: places.as_slice(),
        assignments: assignments.as_slice(),
    };
    let linked = linked_by(&linker, sections, targets, identifiers, first_names)?;
    Ok(linked)
}
