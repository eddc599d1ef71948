//! Marks of all elements to which an element leads.

ghost use Rattle.std.specs.Prelude.{◌≡◌, ◌⊎◌, ◌↔◌, [], ℕ, false, true, Some, IfOk, IsTrue, length, replicate};
ghost use Rattle.std.specs.List.{slice_get};
ghost use Rattle.link_graphs.specs.Leading.{Leads, target_lists};
ghost use Rattle.link_graphs.specs.Marking.{IsClosed, IsIt, IsMarked, IsTarget, MarksSome};

use crate::graph::Graph;
use std::alloc::{AllocError, Global};

/// Elements that are marked.
#[derive(Drop)]
pub struct Marks {
    pub marked: Vec<bool>,
    /// Those of which the targets were not looked at yet.
    pub found: Vec<usize>,
}

impl Marks {
    /// No mark on so many elements.
    pub fn none(alloc: Global, count: usize) -> Result<Marks, AllocError>
        ensures marked { IfOk result (λ marks. marks.marked.items ≡ replicate count false) }
        ensures found { IfOk result (λ marks. marks.found.items ≡ []) }
    {
        Ok(Marks {
            marked: vec![in alloc; false; count]?,
            found: Vec::new(alloc),
        })
    }

    /// Whether an element is marked.
    pub fn is_marked(&self, element: usize) -> bool
        ensures { IsTrue result ↔ IsMarked self.now.marked.items element }
    {
        match self.marked.get(element) {
            Some(marked) => *marked,
            None => false,
        }
    }

    /// Whether there is an element that is not marked.
    fn is_unmarked(&self, element: usize) -> bool
        ensures { IsTrue result ↔ slice_get self.now.marked.items element ≡ Some false }
    {
        match self.marked.get(element) {
            Some(marked) => !*marked,
            None => false,
        }
    }

    /// Marks an element.
    fn mark(&mut self, element: usize) -> Result<(), AllocError>
        ensures { IfOk result (λ _. MarksSome (IsIt element) self.old.marked.items self.new.marked.items
            self.old.found.items self.new.found.items) }
    {
        if self.is_unmarked(element) {
            self.marked[element] = true;
            self.found.push(element)?;
        }
        Ok(())
    }

    /// Marks the targets of an element.
    fn mark_targets(&mut self, graph: &Graph, element: usize) -> Result<(), AllocError>
        ensures { IfOk result (λ _. MarksSome (IsTarget (target_lists graph.now) element) self.old.marked.items
            self.new.marked.items self.old.found.items self.new.found.items) }
    {
        let mut place = 0;
        while let Some(target) = graph.target(element, place) {
            self.mark(target)?;
            place += 1;
        }
        Ok(())
    }

    /// Marks all to which an element leads.
    pub fn mark_all(&mut self, graph: &Graph, element: usize) -> Result<(), AllocError>
        requires size { length self.old.marked.items ≡ length (target_lists graph.now) }
        requires closed { IsClosed (target_lists graph.now) self.old.marked.items }
        requires found { self.old.found.items ≡ [] }
        ensures size { IfOk result (λ _. length self.new.marked.items ≡ length self.old.marked.items) }
        ensures marked { IfOk result (λ _. (e : ℕ) → IsMarked self.new.marked.items e
            ↔ (IsMarked self.old.marked.items e ⊎ Leads (target_lists graph.now) element e)) }
        ensures found { IfOk result (λ _. self.new.found.items ≡ []) }
    {
        self.mark_targets(graph, element)?;
        while let Some(next) = self.found.pop() {
            self.mark_targets(graph, next)?;
        }
        Ok(())
    }
}
