//! Which attributes derive from themselves (X.722, section 8.7; docs/PROFILE.md, section 18).

ghost use Rattle.std.specs.Prelude.{◌≡◌, IfOk, OnOk};
ghost use Rattle.link_graphs.specs.Cycles.{IsBehindTargets, MarkCycles};
ghost use Rattle.link_graphs.specs.Leading.{target_lists};
ghost use Rattle.class_faults.specs.AttributeSyntaxes.{bases_of};
ghost use Rattle.class_faults.specs.CyclicFaults.{CyclicAttributeFaults, bases_of_each};
ghost use Rattle.class_faults.specs.FaultSets.{Notes};

use class_faults::Faults;
use link_graphs::{Cycles, Graph, find_cycles};
use linked_parts::linked::{LinkedAttribute, LinkedSyntax};
use std::alloc::{AllocError, Global};

/// The attribute from which one derives directly, if it derives from one.
fn bases(alloc: Global, attribute: &LinkedAttribute) -> Result<Vec<usize>, AllocError>
    ensures { IfOk result (λ targets. targets.items ≡ bases_of attribute.now.syntax) }
{
    match &attribute.syntax {
        LinkedSyntax::OfType(_) => Ok(Vec::new(alloc)),
        LinkedSyntax::OfAttribute(base) => Ok(vec![in alloc; *base]?),
    }
}

/// The attributes from which each derives directly.
fn attribute_graph(alloc: Global, attributes: &[LinkedAttribute]) -> Result<Graph, AllocError>
    ensures { IfOk result (λ graph. target_lists graph ≡ bases_of_each attributes.now) }
{
    let mut targets = Vec::new(alloc);
    for attribute in attributes.iter() {
        targets.push(bases(alloc, attribute)?)?;
    }
    Ok(Graph { targets })
}

/// Which attributes derive from themselves, and an order in which each of the others stands behind its base.
fn attribute_cycles(alloc: Global, attributes: &[LinkedAttribute]) -> Result<Cycles, AllocError>
    ensures cyclic { IfOk result (λ cycles. MarkCycles (bases_of_each attributes.now) cycles.cyclic.items) }
    ensures order { IfOk result (λ cycles. IsBehindTargets (bases_of_each attributes.now) cycles.order.items) }
{
    let graph = attribute_graph(alloc, attributes)?;
    find_cycles(alloc, &graph)
}

/// Notes the attributes that are marked.
fn note_marked(attributes: &[LinkedAttribute], cyclic: &[bool], faults: &mut Faults)
    ensures { MarkCycles (bases_of_each attributes.now) cyclic.now →
        Notes (CyclicAttributeFaults attributes.now) faults.old.first faults.new.first }
{
    for (place, attribute) in attributes.iter().enumerate() {
        let head = &attribute.head;
        faults.note_cyclic(head.document, &head.label, cyclic, place);
    }
}

/// Notes the attributes that derive from themselves. The answer is an order in which each of the others stands behind
/// its base, and which ones they are.
pub fn note_cyclic(
    alloc: Global,
    attributes: &[LinkedAttribute],
    faults: &mut Faults,
) -> Result<Cycles, AllocError>
    ensures noted { OnOk result (Notes (CyclicAttributeFaults attributes.now) faults.old.first faults.new.first) }
    ensures order { IfOk result (λ cycles. IsBehindTargets (bases_of_each attributes.now) cycles.order.items) }
{
    let cycles = attribute_cycles(alloc, attributes)?;
    note_marked(attributes, cycles.cyclic.as_slice(), faults);
    Ok(cycles)
}
