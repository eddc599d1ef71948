//! Which elements of a graph are reached from some of them.

ghost use Rattle.std.specs.Prelude.{◌≡◌, ◌↔◌, [], IfOk, IsTrue, OnOk, Some, false, length, replicate};
ghost use Rattle.std.specs.List.{slice_get};
ghost use Rattle.link_graphs.specs.Leading.{target_lists};
ghost use Rattle.link_graphs.specs.Marking.{IsIt, IsListed, IsMarked, IsTarget};
ghost use Rattle.reached_elements.specs.Reaching.{AddsSome, AreReached, AreTargets, IsTargetAt, IsTargetOf};

use crate::marks::Marks;
use link_graphs::Graph;
use std::alloc::{AllocError, Global};

/// Elements that were reached.
#[derive(Drop)]
pub struct Reached {
    /// For each element whether it was.
    pub marks: Marks,
    /// Those that were, each once.
    pub elements: Vec<usize>,
}

impl Reached {
    /// None of so many elements.
    fn none(alloc: Global, count: usize) -> Reached
        ensures marks { result.marks ≡ replicate count false }
        ensures elements { result.elements.items ≡ [] }
    {
        Reached {
            marks: Marks::none(alloc, count),
            elements: Vec::new(alloc),
        }
    }

    /// Whether an element was reached.
    pub fn has(&self, element: usize) -> bool
        ensures { IsTrue result ↔ IsMarked self.now.marks element }
    {
        self.marks.has(element)
    }

    /// Whether there is such an element, and it wasn't reached yet.
    fn lacks(&self, element: usize) -> bool
        ensures { IsTrue result ↔ slice_get self.now.marks element ≡ Some false }
    {
        self.marks.lacks(element)
    }

    /// Adds an element.
    fn add(&mut self, element: usize) -> Result<(), AllocError>
        ensures { OnOk result (AddsSome (IsIt element) self.old.marks self.new.marks
            self.old.elements.items self.new.elements.items) }
    {
        if self.lacks(element) {
            self.marks.mark(element)?;
            self.elements.push(element)?;
        }
        Ok(())
    }

    /// Adds these elements.
    fn add_all(&mut self, elements: &[usize]) -> Result<(), AllocError>
        ensures { OnOk result (AddsSome (IsListed elements.now) self.old.marks self.new.marks
            self.old.elements.items self.new.elements.items) }
    {
        for element in elements.iter() {
            self.add(*element)?;
        }
        Ok(())
    }

    /// Adds the targets of an element.
    fn add_targets(&mut self, graph: &Graph, element: usize) -> Result<(), AllocError>
        ensures { OnOk result (AddsSome (IsTarget (target_lists graph.now) element) self.old.marks
            self.new.marks self.old.elements.items self.new.elements.items) }
    {
        match graph.targets.get(element) {
            Some(targets) => self.add_all(targets.as_slice()),
            None => Ok(()),
        }
    }

    /// Adds the targets of these elements.
    fn add_targets_of(&mut self, graph: &Graph, elements: &[usize]) -> Result<(), AllocError>
        ensures { OnOk result (AddsSome (IsTargetOf (target_lists graph.now) elements.now) self.old.marks
            self.new.marks self.old.elements.items self.new.elements.items) }
    {
        for element in elements.iter() {
            self.add_targets(graph, *element)?;
        }
        Ok(())
    }

    /// The element that stands at a place.
    fn element_at(&self, place: usize) -> Option<usize>
        ensures { result ≡ slice_get self.now.elements.items place }
    {
        match self.elements.get(place) {
            Some(element) => Some(*element),
            None => None,
        }
    }

    /// Adds the targets of the element that stands at a place.
    fn add_targets_at(&mut self, graph: &Graph, place: usize) -> Result<(), AllocError>
        ensures { OnOk result (AddsSome (IsTargetAt (target_lists graph.now) self.old.elements.items place)
            self.old.marks self.new.marks self.old.elements.items self.new.elements.items) }
    {
        match self.element_at(place) {
            Some(element) => self.add_targets(graph, element),
            None => Ok(()),
        }
    }
}

/// These elements, and all to which they lead, directly or not. The time grows with the number of those that are reached
/// and of their targets, and with the logarithm of it.
pub fn elements_reached(alloc: Global, graph: &Graph, from: &[usize]) -> Result<Reached, AllocError>
    ensures { IfOk result (λ reached. AreReached (target_lists graph.now) from.now reached.marks
        reached.elements.items) }
{
    let count = graph.count();
    let mut reached = Reached::none(alloc, count);
    reached.add_all(from)?;
    for place in 0..count {
        if place >= reached.elements.as_slice().len() {
            return Ok(reached);
        }
        reached.add_targets_at(graph, place)?;
    }
    Ok(reached)
}

/// The targets of these elements. The time grows with the number of these elements and of the targets, and with the
/// logarithm of it.
pub fn targets_reached(
    alloc: Global,
    graph: &Graph,
    elements: &[usize],
) -> Result<Reached, AllocError>
    ensures { IfOk result (λ reached. AreTargets (target_lists graph.now) elements.now reached.marks
        reached.elements.items) }
{
    let count = graph.count();
    let mut reached = Reached::none(alloc, count);
    reached.add_targets_of(graph, elements)?;
    Ok(reached)
}
