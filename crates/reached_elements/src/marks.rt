//! Marks of the elements of a graph, of which few are set.

ghost use Rattle.std.specs.Prelude.{◌≡◌, ◌↔◌, IsTrue, OnOk, Some, false, replicate, set, true};
ghost use Rattle.std.specs.List.{slice_get};
ghost use Rattle.link_graphs.specs.Marking.{IsMarked};

use std::alloc::{AllocError, Global};
use std::collections::BTreeSet;
use std::marker::Model;

/// A mark for each element of a graph. Contracts see them in a row; what is kept is the set of those that are set.
#[derive(Drop)]
pub struct Marks {
    count: usize,
    marked: BTreeSet<usize>,
}

impl Model for Marks {
    ghost use Rattle.std.specs.Prelude.{Bool, List};

    ghost Value = { List Bool };

    ghost use Rattle.reached_elements.specs.MarkedSets.{marks_of};

    ghost view = { λ marks. marks_of marks.marked marks.count };
}

impl Marks {
    /// So many, none of them set.
    pub(crate) fn none(alloc: Global, count: usize) -> Marks
        ensures { result ≡ replicate count false }
    {
        Marks {
            count,
            marked: BTreeSet::new(alloc),
        }
    }

    /// Whether the mark of an element is set.
    pub fn has(&self, element: usize) -> bool
        ensures { IsTrue result ↔ IsMarked self.now element }
    {
        if element < self.count {
            self.marked.contains(&element)
        } else {
            false
        }
    }

    /// Whether the mark of an element is there and not set.
    pub(crate) fn lacks(&self, element: usize) -> bool
        ensures { IsTrue result ↔ slice_get self.now element ≡ Some false }
    {
        if element < self.count {
            !self.marked.contains(&element)
        } else {
            false
        }
    }

    /// Sets the mark of an element.
    pub(crate) fn mark(&mut self, element: usize) -> Result<(), AllocError>
        ensures { OnOk result (slice_get self.old element ≡ Some false → self.new ≡ set self.old element true) }
    {
        self.marked.insert(element)?;
        Ok(())
    }
}
