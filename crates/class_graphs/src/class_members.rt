//! Which attributes the mandatory packages of a class have, and by which attributes its objects can be named (X.720,
//! section 5; X.722, sections 8.3, 8.4 and 8.6; docs/PROFILE.md, section 12). What is asked of one class is found in a
//! time that grows with the templates, and with what is named by the classes that it derives from, those that derive
//! from it, and those that they derive from.

ghost use Rattle.std.specs.Prelude.{◌≡◌, ◌⊎◌, ◌↔◌, ℕ, [], ◌∷◌, AllPairs, IfOk, List, Some, false, flat_map, slice_get};
ghost use Rattle.std.specs.Prelude.{true};
ghost use Rattle.gdmo_names.specs.FoundViews.{found_views};
ghost use Rattle.gdmo_names.specs.InStep.{AreEach};
ghost use Rattle.gdmo_names.specs.PartTerms.{PartTerms, Placed};
ghost use Rattle.gdmo_names.specs.PartViews.{section_instances};
ghost use Rattle.gdmo_names.specs.TargetTables.{AreTwo};
ghost use Rattle.gdmo_targets.specs.SectionTables.{IsInstanceTargets};
ghost use Rattle.gdmo_types.specs.Linkages.{IsLinkage};
ghost use Rattle.link_graphs.specs.Leading.{target_lists};
ghost use Rattle.link_graphs.specs.Marking.{IsMarked};
ghost use Rattle.reached_elements.specs.Reaching.{IsSomeTarget};
ghost use Rattle.class_graphs.specs.ClassGraphs.{IsGraph, LackSome, MayNotName, TellsFacts, TellsHeld};
ghost use Rattle.class_graphs.specs.ClassGraphs.{TellsNaming};

use crate::naming_links::binding_links;
use crate::role_links::{RoleLinks, role_links};
use crate::root_links::add_roots;
use extra_syntax::section::Section;
use gdmo_names::roles::Role;
use gdmo_targets::section_references::InstanceTargets;
use gdmo_types::linkage::Linkage;
use link_graphs::Graph;
use reached_elements::reaching::{Reached, elements_reached, targets_reached};
use std::alloc::{AllocError, Global};

/// How classes stand to each other, by the numbers of their templates.
#[derive(Drop)]
pub struct ClassGraph {
    alloc: Global,
    /// The classes of DERIVED FROM.
    superclasses: RoleLinks,
    /// The mandatory packages of classes.
    packages: RoleLinks,
    /// The attributes of packages.
    attributes: RoleLinks,
    /// The classes in whose DERIVED FROM they stand.
    subclasses: Graph,
    /// By which attributes name bindings and ROOTs name objects of classes.
    naming: Graph,
    /// The same of name bindings with AND SUBCLASSES alone.
    naming_below: Graph,
}

/// The attributes that a class has.
#[derive(Drop)]
struct Held {
    /// Those of its mandatory packages, and of those of the classes that it derives from.
    attributes: Reached,
    /// A superclass, a package or an attribute is missing there.
    has_missing: bool,
}

/// The attributes by which the objects of a class can be named, or those of a class that derives from it.
#[derive(Drop)]
struct Naming {
    /// Those that name objects of such classes themselves.
    own: Reached,
    /// Those that AND SUBCLASSES lets name them.
    below: Reached,
}

/// What is known of a class.
#[derive(Drop)]
pub struct ClassFacts {
    held: Held,
    naming: Naming,
}

/// How the classes of templates stand to each other. `instances` tells what the instances of the sections name.
pub fn class_graph(
    linkage: &Linkage,
    sections: &[Section],
    instances: &[InstanceTargets],
) -> Result<ClassGraph, AllocError>
    ensures { IfOk result (λ graph. (parts : PartTerms) → IsLinkage parts linkage.now →
        parts.instances ≡ flat_map section_instances sections.now →
        AreEach (IsInstanceTargets parts linkage.now.templates.now) parts.instances instances.now →
        IsGraph parts (found_views linkage.now.templates.now) graph) }
{
    let alloc = linkage.alloc;
    let superclasses = role_links(linkage, Role::Superclass)?;
    let subclasses = superclasses.links.turned(alloc)?;
    let packages = role_links(linkage, Role::MandatoryPackage)?;
    let attributes = role_links(linkage, Role::PackageAttribute)?;
    let mut naming = binding_links(linkage, false)?;
    add_roots(alloc, sections, instances, &mut naming)?;
    let naming_below = binding_links(linkage, true)?;
    Ok(ClassGraph {
        alloc,
        superclasses,
        packages,
        attributes,
        subclasses,
        naming,
        naming_below,
    })
}

/// Whether one of these elements leads anywhere.
fn lead_anywhere(alloc: Global, graph: &Graph, elements: &[usize]) -> Result<bool, AllocError>
    ensures { IfOk result (λ lead. (lead ≡ true)
        ↔ ((t : ℕ) × IsSomeTarget (target_lists graph.now) elements.now t)) }
{
    let targets = targets_reached(alloc, graph, elements)?;
    let count = targets.elements.as_slice().len();
    Ok(count != 0)
}

impl ClassGraph {
    /// Whether a superclass or a package of these classes, or an attribute of these packages, is missing.
    fn lack(&self, classes: &[usize], packages: &[usize]) -> Result<bool, AllocError>
        ensures { IfOk result (λ lack. (lack ≡ true) ↔ LackSome self.now classes.now packages.now) }
    {
        if lead_anywhere(self.alloc, &self.superclasses.lost, classes)? {
            return Ok(true);
        }
        if lead_anywhere(self.alloc, &self.packages.lost, classes)? {
            return Ok(true);
        }
        let lack = lead_anywhere(self.alloc, &self.attributes.lost, packages)?;
        Ok(lack)
    }

    /// The attributes that a class has.
    fn held(&self, class: usize) -> Result<Held, AllocError>
        ensures { IfOk result (λ held. (parts : PartTerms) (views : List Placed) (x : Placed) →
            IsGraph parts views self.now → AllPairs AreTwo views → slice_get views class ≡ Some x →
            TellsHeld parts views x held) }
    {
        let above = elements_reached(self.alloc, &self.superclasses.links, &[class])?;
        let classes = above.elements.as_slice();
        let packages = targets_reached(self.alloc, &self.packages.links, classes)?;
        let has_missing = self.lack(classes, packages.elements.as_slice())?;
        let attributes = targets_reached(
            self.alloc,
            &self.attributes.links,
            packages.elements.as_slice(),
        )?;
        Ok(Held {
            attributes,
            has_missing,
        })
    }

    /// The attributes by which objects of a class can be named.
    fn naming(&self, class: usize) -> Result<Naming, AllocError>
        ensures { IfOk result (λ naming. (parts : PartTerms) (views : List Placed) (x : Placed) →
            IsGraph parts views self.now → AllPairs AreTwo views → slice_get views class ≡ Some x →
            TellsNaming parts views x naming) }
    {
        let below = elements_reached(self.alloc, &self.subclasses, &[class])?;
        let classes = below.elements.as_slice();
        let around = elements_reached(self.alloc, &self.superclasses.links, classes)?;
        let own = targets_reached(self.alloc, &self.naming, classes)?;
        let below = targets_reached(self.alloc, &self.naming_below, around.elements.as_slice())?;
        Ok(Naming { own, below })
    }

    /// What is known of the class whose template has a number.
    pub fn facts(&self, class: usize) -> Result<ClassFacts, AllocError>
        ensures { IfOk result (λ facts. (parts : PartTerms) (views : List Placed) (x : Placed) →
            IsGraph parts views self.now → AllPairs AreTwo views → slice_get views class ≡ Some x →
            TellsFacts parts views x facts) }
    {
        let held = self.held(class)?;
        let naming = self.naming(class)?;
        Ok(ClassFacts { held, naming })
    }
}

/// Whether objects of the class, or of one that derives from it, can be named by the attribute with a number.
fn is_naming(naming: &Naming, attribute: usize) -> bool
    ensures { (result ≡ true) ↔ (IsMarked naming.now.own.marks attribute
        ⊎ IsMarked naming.now.below.marks attribute) }
{
    if naming.own.has(attribute) {
        return true;
    }
    naming.below.has(attribute)
}

/// Whether it is known that the class hasn't the attribute with a number.
fn is_foreign(held: &Held, attribute: usize) -> bool
    ensures { (result ≡ true) ↔ ((held.now.has_missing ≡ false)
        × (¬ IsMarked held.now.attributes.marks attribute)) }
{
    if held.has_missing {
        return false;
    }
    !held.attributes.has(attribute)
}

impl ClassFacts {
    /// Whether a step of a rule for the class may not name the attribute whose template has a number: it can name
    /// objects of the class, or the class hasn't it, as is known.
    pub fn forbid(&self, attribute: usize) -> bool
        ensures { (parts : PartTerms) (views : List Placed) (class x : Placed) → TellsFacts parts views class self.now →
            slice_get views attribute ≡ Some x → (result ≡ true) ↔ MayNotName parts class x }
    {
        if is_naming(&self.naming, attribute) {
            return true;
        }
        is_foreign(&self.held, attribute)
    }
}
