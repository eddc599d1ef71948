//! Which classes derive from themselves (X.722, section 8.3; docs/PROFILE.md, section 18).

ghost use Rattle.std.specs.Prelude.{◌≡◌, IfOk, OnOk};
ghost use Rattle.link_graphs.specs.Cycles.{IsBehindTargets, MarkCycles};
ghost use Rattle.link_graphs.specs.Leading.{target_lists};
ghost use Rattle.class_faults.specs.CyclicFaults.{CyclicClassFaults, superclasses_of};
ghost use Rattle.class_faults.specs.FaultSets.{Notes};

use class_faults::Faults;
use link_graphs::{Cycles, Graph, find_cycles};
use linked_parts::linked::LinkedClass;
use std::alloc::{AllocError, Global};

/// The classes from which one derives directly.
fn superclasses(alloc: Global, class: &LinkedClass) -> Result<Vec<usize>, AllocError>
    ensures { IfOk result (λ targets. targets.items ≡ class.now.superclasses.items) }
{
    Vec::from_slice(alloc, class.superclasses.as_slice())
}

/// The classes from which each derives directly.
fn class_graph(alloc: Global, classes: &[LinkedClass]) -> Result<Graph, AllocError>
    ensures { IfOk result (λ graph. target_lists graph ≡ superclasses_of classes.now) }
{
    let mut targets = Vec::new(alloc);
    for class in classes.iter() {
        targets.push(superclasses(alloc, class)?)?;
    }
    Ok(Graph { targets })
}

/// Which classes derive from themselves, and an order in which each of the others stands behind its superclasses.
fn class_cycles(alloc: Global, classes: &[LinkedClass]) -> Result<Cycles, AllocError>
    ensures cyclic { IfOk result (λ cycles. MarkCycles (superclasses_of classes.now) cycles.cyclic.items) }
    ensures order { IfOk result (λ cycles. IsBehindTargets (superclasses_of classes.now) cycles.order.items) }
{
    let graph = class_graph(alloc, classes)?;
    find_cycles(alloc, &graph)
}

/// Notes the classes that are marked.
fn note_marked(classes: &[LinkedClass], cyclic: &[bool], faults: &mut Faults)
    ensures { MarkCycles (superclasses_of classes.now) cyclic.now →
        Notes (CyclicClassFaults classes.now) faults.old.first faults.new.first }
{
    for (place, class) in classes.iter().enumerate() {
        faults.note_cyclic(class.head.document, &class.head.label, cyclic, place);
    }
}

/// Notes the classes that derive from themselves. The answer is an order in which each of the others stands behind its
/// superclasses, and which ones they are.
pub fn note_cyclic(
    alloc: Global,
    classes: &[LinkedClass],
    faults: &mut Faults,
) -> Result<Cycles, AllocError>
    ensures noted { OnOk result (Notes (CyclicClassFaults classes.now) faults.old.first faults.new.first) }
    ensures cyclic { IfOk result (λ cycles. MarkCycles (superclasses_of classes.now) cycles.cyclic.items) }
    ensures order { IfOk result (λ cycles. IsBehindTargets (superclasses_of classes.now) cycles.order.items) }
{
    let cycles = class_cycles(alloc, classes)?;
    note_marked(classes, cycles.cyclic.as_slice(), faults);
    Ok(cycles)
}
