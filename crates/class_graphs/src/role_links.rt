//! Where templates lead in a role, as graphs of their numbers (X.722, section 8).

ghost use Rattle.std.specs.Prelude.{◌≡◌, ◌↔◌, ℕ, IfOk, IsTrue, List, OnOk, Option, Some, slice_get};
ghost use Rattle.link_graphs.specs.Leading.{target_lists};
ghost use Rattle.gdmo_names.specs.FoundViews.{found_views};
ghost use Rattle.gdmo_names.specs.PartTerms.{PartTerms, Placed};
ghost use Rattle.gdmo_names.specs.Roles.{role_term};
ghost use Rattle.gdmo_types.specs.Linkages.{IsLinkage};
ghost use Rattle.gdmo_types.specs.RoleTargets.{ListsNone};
ghost use Rattle.class_graphs.specs.ClassLinks.{AreRoleLinks, LeadsBy, LostBy};
ghost use Rattle.class_graphs.specs.NamedLinks.{AddsLinks};

use gdmo_names::roles::Role;
use gdmo_types::attribute_types::targets_in_role;
use gdmo_types::linkage::Linkage;
use link_graphs::Graph;
use reached_elements::linking::{add_links, unlinked};
use std::alloc::AllocError;

/// Where templates lead in a role, by their numbers.
#[derive(Drop)]
pub struct RoleLinks {
    /// From each template to those that it names.
    pub links: Graph,
    /// From each template that names one that isn't there to itself.
    pub lost: Graph,
}

/// Whether none stands at some place.
fn has_none(numbers: &[Option<usize>]) -> bool
    ensures { (IsTrue result) ↔ ListsNone numbers.now }
{
    for number in numbers.iter() {
        if number.is_none() {
            return true;
        }
    }
    false
}

/// Links a template to itself where none stands among the numbers that it names.
fn add_lost(graph: &mut Graph, number: usize, numbers: &[Option<usize>]) -> Result<(), AllocError>
    ensures { OnOk result ((views : List Placed) (by : Placed) → slice_get views number ≡ Some by →
        AddsLinks views (λ one other. (by ≡ one) × (by ≡ other) × ListsNone numbers.now) (target_lists graph.old)
        (target_lists graph.new)) }
{
    if has_none(numbers) {
        let own = [Some(number)];
        add_links(graph, &own, &own)?;
    }
    Ok(())
}

/// Links a template to those that it names in a role.
fn add_role(
    linkage: &Linkage,
    number: usize,
    role: Role,
    own: &mut RoleLinks,
) -> Result<(), AllocError>
    ensures links { OnOk result ((parts : PartTerms) (by : Placed) → IsLinkage parts linkage.now →
        slice_get (found_views linkage.now.templates.now) number ≡ Some by →
        AddsLinks (found_views linkage.now.templates.now) (LeadsBy parts (role_term role) by)
        (target_lists own.old.links) (target_lists own.new.links)) }
    ensures lost { OnOk result ((parts : PartTerms) (by : Placed) → IsLinkage parts linkage.now →
        slice_get (found_views linkage.now.templates.now) number ≡ Some by →
        AddsLinks (found_views linkage.now.templates.now) (LostBy parts (role_term role) by)
        (target_lists own.old.lost) (target_lists own.new.lost)) }
{
    let targets = targets_in_role(
        linkage.alloc,
        linkage.templates,
        linkage.targets,
        number,
        role,
    )?;
    add_links(&mut own.links, &[Some(number)], targets.as_slice())?;
    add_lost(&mut own.lost, number, targets.as_slice())?;
    Ok(())
}

/// Where all templates lead in a role.
pub fn role_links(linkage: &Linkage, role: Role) -> Result<RoleLinks, AllocError>
    ensures { IfOk result (λ own. (parts : PartTerms) → IsLinkage parts linkage.now →
        AreRoleLinks parts (found_views linkage.now.templates.now) (role_term role) own) }
{
    let count = linkage.templates.len();
    let mut own = RoleLinks {
        links: unlinked(linkage.alloc, count)?,
        lost: unlinked(linkage.alloc, count)?,
    };
    for number in 0..count {
        add_role(linkage, number, role, &mut own)?;
    }
    Ok(own)
}
