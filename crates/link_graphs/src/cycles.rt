//! Which elements lead back to themselves, and an order in which each of the others stands behind its targets.

ghost use Rattle.std.specs.Prelude.{IfOk};
ghost use Rattle.link_graphs.specs.Leading.{target_lists};
ghost use Rattle.link_graphs.specs.Finishing.{IsFinishing};
ghost use Rattle.link_graphs.specs.Cycles.{IsBehindTargets, MarkCycles};

use crate::graph::Graph;
use crate::marking::Marks;
use crate::walking::finishing_order;
use std::alloc::{AllocError, Global};

/// What was found of a graph.
#[derive(Drop)]
pub struct Cycles {
    /// The elements, each behind those to which it leads, but for those that lead back to themselves.
    pub order: Vec<usize>,
    /// For each element whether it leads back to itself.
    pub cyclic: Vec<bool>,
}

/// For each element whether it leads back to itself, by the order in which a search in depth finishes them: whether
/// it is led to, in the graph turned round, by one that stands no earlier.
fn cyclic_elements(alloc: Global, graph: &Graph, order: &[usize]) -> Result<Vec<bool>, AllocError>
    requires { IsFinishing (target_lists graph.now) order.now }
    ensures { IfOk result (λ marks. MarkCycles (target_lists graph.now) marks.items) }
{
    let turned = graph.turned(alloc)?;
    let count = graph.count();
    let mut cyclic = vec![in alloc; false; count]?;
    let mut marks = Marks::none(alloc, count)?;
    for passed in 0..order.len() {
        let element = order[order.len() - 1 - passed];
        marks.mark_all(&turned, element)?;
        cyclic[element] = marks.is_marked(element);
    }
    Ok(cyclic)
}

/// Which elements of a graph lead back to themselves, and its elements in an order in which each of the others stands
/// behind its targets. The time grows with the number of elements and targets.
pub fn find_cycles(alloc: Global, graph: &Graph) -> Result<Cycles, AllocError>
    ensures cyclic { IfOk result (λ cycles. MarkCycles (target_lists graph.now) cycles.cyclic.items) }
    ensures order { IfOk result (λ cycles. IsBehindTargets (target_lists graph.now) cycles.order.items) }
{
    let order = finishing_order(alloc, graph)?;
    let cyclic = cyclic_elements(alloc, graph, order.as_slice())?;
    Ok(Cycles { order, cyclic })
}
