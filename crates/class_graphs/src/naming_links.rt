//! By which attributes name bindings name objects of classes, as graphs of the numbers of templates (X.722, section
//! 8.6).

ghost use Rattle.std.specs.Prelude.{◌≡◌, ◌↔◌, IfOk, OnOk, Some, false, slice_get, true};
ghost use Rattle.link_graphs.specs.Leading.{target_lists};
ghost use Rattle.gdmo_names.specs.ClassMembers.{names_subclasses};
ghost use Rattle.gdmo_names.specs.FoundViews.{found_term, found_views};
ghost use Rattle.gdmo_names.specs.PartTerms.{PartTerms, Placed, body_of};
ghost use Rattle.gdmo_types.specs.Linkages.{IsLinkage};
ghost use Rattle.class_graphs.specs.ClassLinks.{NamesBy};
ghost use Rattle.class_graphs.specs.NamedLinks.{AddsLinks, AreLinks, ByAny};

use gdmo_names::found::{Body, Found};
use gdmo_names::roles::Role;
use gdmo_types::attribute_types::targets_in_role;
use gdmo_types::linkage::Linkage;
use link_graphs::Graph;
use reached_elements::linking::{add_links, unlinked};
use std::alloc::AllocError;

/// Whether AND SUBCLASSES stands behind the subordinate class of a name binding.
fn names_subclasses(found: &Found) -> bool
    ensures { result ≡ names_subclasses (body_of (found_term found.now)) }
{
    match found.body {
        Body::Class(_) => false,
        Body::Package(_) => false,
        Body::Parameter(_) => false,
        Body::Binding(binding) => binding.subordinate.subclasses.is_some(),
        Body::Attribute(_) => false,
        Body::Group(_) => false,
        Body::Behaviour(_) => false,
        Body::Action(_) => false,
        Body::Notification(_) => false,
    }
}

/// Whether a name binding is wanted: any, or only those with AND SUBCLASSES.
fn is_wanted(found: &Found, with_subclasses: bool) -> bool
    ensures { (result ≡ true) ↔ (with_subclasses ≡ true → names_subclasses (body_of (found_term found.now)) ≡ true) }
{
    if !with_subclasses {
        return true;
    }
    names_subclasses(found)
}

/// Links the subordinate class of a name binding to the attribute by which it names.
fn add_classes(linkage: &Linkage, number: usize, graph: &mut Graph) -> Result<(), AllocError>
    ensures { OnOk result ((parts : PartTerms) (by : Placed) → IsLinkage parts linkage.now →
        slice_get (found_views linkage.now.templates.now) number ≡ Some by →
        AddsLinks (found_views linkage.now.templates.now) (NamesBy parts false by) (target_lists graph.old)
        (target_lists graph.new)) }
{
    let alloc = linkage.alloc;
    let templates = linkage.templates;
    let targets = linkage.targets;
    let classes = targets_in_role(alloc, templates, targets, number, Role::SubordinateClass)?;
    let attributes = targets_in_role(alloc, templates, targets, number, Role::NamingAttribute)?;
    add_links(graph, classes.as_slice(), attributes.as_slice())?;
    Ok(())
}

/// The same of those with AND SUBCLASSES alone, where only they are wanted.
fn add_binding(
    linkage: &Linkage,
    number: usize,
    with_subclasses: bool,
    graph: &mut Graph,
) -> Result<(), AllocError>
    ensures { OnOk result ((parts : PartTerms) (by : Placed) → IsLinkage parts linkage.now →
        slice_get (found_views linkage.now.templates.now) number ≡ Some by →
        AddsLinks (found_views linkage.now.templates.now) (NamesBy parts with_subclasses by) (target_lists graph.old)
        (target_lists graph.new)) }
{
    let Some(found) = linkage.templates.get(number) else {
        return Ok(());
    };
    if !is_wanted(found, with_subclasses) {
        return Ok(());
    }
    add_classes(linkage, number, graph)?;
    Ok(())
}

/// From each class to the attributes by which name bindings name objects of it; where it is asked for, only of those
/// with AND SUBCLASSES.
pub fn binding_links(linkage: &Linkage, with_subclasses: bool) -> Result<Graph, AllocError>
    ensures { IfOk result (λ graph. (parts : PartTerms) → IsLinkage parts linkage.now →
        AreLinks (found_views linkage.now.templates.now)
        (ByAny (found_views linkage.now.templates.now) (NamesBy parts with_subclasses)) (target_lists graph)) }
{
    let count = linkage.templates.len();
    let mut graph = unlinked(linkage.alloc, count)?;
    for number in 0..count {
        add_binding(linkage, number, with_subclasses, &mut graph)?;
    }
    Ok(graph)
}
