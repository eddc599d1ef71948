//! A search in depth over all elements of a graph, which lists them as they are finished.

ghost use Rattle.std.specs.Prelude.{◌≡◌, ◌<◌, ◌++◌, ◌∷◌, ◌↔◌, [], ℕ, true, false, Some, length, IfOk, IsTrue};
ghost use Rattle.std.specs.Prelude.{slice_set};
ghost use Rattle.std.specs.List.{slice_get};
ghost use Rattle.link_graphs.specs.Leading.{target_lists, targets_of};
ghost use Rattle.link_graphs.specs.Walking.{IsWalk, StaysReached, steps_left};
ghost use Rattle.link_graphs.specs.Finishing.{IsFinishing};

use crate::graph::Graph;
use std::alloc::{AllocError, Global};

/// An element that is being visited, and how many of its targets were looked at.
#[derive(Clone, Copy)]
struct Visit {
    element: usize,
    looked: usize,
}

/// A search that is going on.
#[derive(Drop)]
struct Walk {
    /// The elements that are finished, in that order.
    finished: Vec<usize>,
    /// Those that are being visited, each led to by the one below it.
    visits: Vec<Visit>,
    reached: Vec<bool>,
}

impl Walk {
    /// Whether there is an element that was not reached yet.
    fn is_fresh(&self, element: usize) -> bool
        ensures { IsTrue result ↔ slice_get self.now.reached.items element ≡ Some false }
    {
        match self.reached.get(element) {
            Some(reached) => !*reached,
            None => false,
        }
    }

    /// Begins to visit an element.
    fn begin(&mut self, element: usize) -> Result<(), AllocError>
        requires { slice_get self.old.reached.items element ≡ Some false }
        ensures same { self.new.finished.items ≡ self.old.finished.items }
        ensures visited { IfOk result (λ _. self.new.visits.items ≡
            self.old.visits.items ++ record { element = element; looked = 0 } ∷ []) }
        ensures reached { self.new.reached.items ≡ slice_set self.old.reached.items element true }
    {
        self.reached[element] = true;
        self.visits.push(Visit { element, looked: 0 })?;
        Ok(())
    }

    /// Goes on with an element that was taken from those being visited: to its next target, or to its end.
    fn step(&mut self, graph: &Graph, visit: Visit) -> Result<(), AllocError>
        requires { IsWalk (target_lists graph.now) self.old.finished.items (self.old.visits.items ++ visit ∷ [])
            self.old.reached.items }
        ensures walk { IfOk result (λ _. IsWalk (target_lists graph.now) self.new.finished.items
            self.new.visits.items self.new.reached.items) }
        ensures stays { IfOk result (λ _. StaysReached self.old.reached.items self.new.reached.items) }
        ensures shorter { IfOk result (λ _. steps_left (target_lists graph.now) self.new.visits.items
            self.new.reached.items < steps_left (target_lists graph.now) (self.old.visits.items ++ visit ∷ [])
            self.old.reached.items) }
    {
        let Visit { element, looked } = visit;
        let Some(target) = graph.target(element, looked) else {
            self.finished.push(element)?;
            return Ok(());
        };
        self.visits.push(Visit {
            element,
            looked: looked + 1,
        })?;
        if self.is_fresh(target) {
            self.begin(target)?;
        }
        Ok(())
    }

    /// Visits until nothing is being visited.
    fn run(&mut self, graph: &Graph) -> Result<(), AllocError>
        requires { IsWalk (target_lists graph.now) self.old.finished.items self.old.visits.items
            self.old.reached.items }
        ensures walk { IfOk result (λ _. IsWalk (target_lists graph.now) self.new.finished.items []
            self.new.reached.items) }
        ensures ended { IfOk result (λ _. self.new.visits.items ≡ []) }
        ensures stays { IfOk result (λ _. StaysReached self.old.reached.items self.new.reached.items) }
    {
        while let Some(visit) = self.visits.pop() {
            self.step(graph, visit)?;
        }
        Ok(())
    }
}

/// All elements, in the order in which a search in depth finishes them.
pub fn finishing_order(alloc: Global, graph: &Graph) -> Result<Vec<usize>, AllocError>
    ensures { IfOk result (λ order. IsFinishing (target_lists graph.now) order.items) }
{
    let count = graph.count();
    let mut walk = Walk {
        finished: Vec::new(alloc),
        visits: Vec::new(alloc),
        reached: vec![in alloc; false; count]?,
    };
    for element in 0..count {
        if walk.is_fresh(element) {
            walk.begin(element)?;
            walk.run(graph)?;
        }
    }
    let Walk { finished, .. } = walk;
    Ok(finished)
}
