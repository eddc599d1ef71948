//! By which attributes ROOTs name objects of their classes, added to a graph of the numbers of templates
//! (docs/PROFILE.md, sections 9 and 12).

ghost use Rattle.std.specs.Prelude.{◌≡◌, ◌++◌, IfOk, List, OnOk, false, flat_map, map, slice_get, Some};
ghost use Rattle.link_graphs.specs.Leading.{target_lists};
ghost use Rattle.gdmo_names.specs.FoundViews.{found_views};
ghost use Rattle.gdmo_names.specs.InStep.{AreEach};
ghost use Rattle.gdmo_names.specs.PartTerms.{InstanceTerm, PartTerms};
ghost use Rattle.gdmo_names.specs.PartViews.{instance_term, is_root_kind, section_instances};
ghost use Rattle.gdmo_names.specs.declared.found.Found.{Found as FoundTerm};
ghost use Rattle.gdmo_targets.specs.SectionTables.{IsInstanceTargets};
ghost use Rattle.class_graphs.specs.ClassLinks.{NamesBy, NamesOwn, NamesRoot, last_number};
ghost use Rattle.class_graphs.specs.NamedLinks.{AddsLinks, AreLinks, ByAny};

use extra_syntax::instance::{Instance, InstanceKind};
use extra_syntax::instances::InstancesSection;
use extra_syntax::section::Section;
use gdmo_targets::section_references::InstanceTargets;
use link_graphs::Graph;
use reached_elements::linking::add_links;
use std::alloc::{AllocError, Global};

/// Whether an instance is the root.
fn is_root(instance: &Instance) -> bool
    ensures { result ≡ is_root_kind instance.now.kind }
{
    match instance.kind {
        InstanceKind::Root(_) => true,
        InstanceKind::Object(_) => false,
    }
}

fn add_section(section: &InstancesSection, roots: &mut Vec<bool>) -> Result<(), AllocError>
    ensures { OnOk result (roots.new.items ≡ roots.old.items
        ++ map (λ x. x.is_root) (map (instance_term section.now.document) section.now.instances.items)) }
{
    for instance in section.instances.iter() {
        roots.push(is_root(instance))?;
    }
    Ok(())
}

fn add_any_section(section: &Section, roots: &mut Vec<bool>) -> Result<(), AllocError>
    ensures { OnOk result (roots.new.items ≡ roots.old.items ++ map (λ x. x.is_root) (section_instances section.now)) }
{
    match section {
        Section::Rules(_) => Ok(()),
        Section::Instances(section) => add_section(section, roots),
    }
}

/// For each instance of the sections whether it is the root.
fn root_marks(alloc: Global, sections: &[Section]) -> Result<Vec<bool>, AllocError>
    ensures { IfOk result (λ roots. roots.items
        ≡ map (λ x. x.is_root) (flat_map section_instances sections.now)) }
{
    let mut roots = Vec::new(alloc);
    for section in sections.iter() {
        add_any_section(section, &mut roots)?;
    }
    Ok(roots)
}

/// The last of some numbers.
fn last_number(numbers: &[Option<usize>]) -> Option<usize>
    ensures { result ≡ last_number numbers.now }
{
    let count = numbers.len();
    if count == 0 {
        return None;
    }
    numbers[count - 1]
}

/// Links the class of a ROOT to the attribute of the last part of its name.
fn add_root(is_root: bool, own: &InstanceTargets, graph: &mut Graph) -> Result<(), AllocError>
    ensures { OnOk result ((parts : PartTerms) (xs : List FoundTerm) (by : InstanceTerm) →
        IsInstanceTargets parts xs by own.now → by.is_root ≡ is_root →
        AddsLinks (found_views xs) (NamesRoot parts by) (target_lists graph.old) (target_lists graph.new)) }
{
    if is_root {
        add_links(graph, &[own.class], &[last_number(own.name.as_slice())])?;
    }
    Ok(())
}

/// Whether the instance at a place is the root.
fn is_root_at(roots: &[bool], place: usize) -> bool
    ensures { (is_root : _) → slice_get roots.now place ≡ Some is_root → is_root ≡ result }
{
    match roots.get(place) {
        Some(is_root) => *is_root,
        None => false,
    }
}

/// Links the class of each ROOT to the attribute of the last part of its name.
pub fn add_roots(
    alloc: Global,
    sections: &[Section],
    instances: &[InstanceTargets],
    graph: &mut Graph,
) -> Result<(), AllocError>
    ensures { OnOk result ((parts : PartTerms) (xs : List FoundTerm) →
        parts.instances ≡ flat_map section_instances sections.now →
        AreEach (IsInstanceTargets parts xs) parts.instances instances.now →
        AreLinks (found_views xs) (ByAny (found_views xs) (NamesBy parts false)) (target_lists graph.old) →
        AreLinks (found_views xs) (NamesOwn parts (found_views xs)) (target_lists graph.new)) }
{
    let roots = root_marks(alloc, sections)?;
    for (place, own) in instances.iter().enumerate() {
        let is_root = is_root_at(roots.as_slice(), place);
        add_root(is_root, own, graph)?;
    }
    Ok(())
}
