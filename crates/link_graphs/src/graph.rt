//! Which elements of a list lead to which.

ghost use Rattle.std.specs.Prelude.{◌≡◌, ◌+◌, ◌<◌, ◌^◌, [], IfOk, IfSome, length, replicate};
ghost use Rattle.std.specs.List.{slice_get};
ghost use Rattle.link_graphs.specs.Leading.{target_lists, targets_of};
ghost use Rattle.link_graphs.specs.Turning.{IsTurned, with_target};

use std::alloc::{AllocError, Global};

/// To which elements each leads: a place past the end of the list leads nowhere.
#[derive(Drop)]
pub struct Graph {
    /// For each element the places of its targets in the list.
    pub targets: Vec<Vec<usize>>,
}

impl Graph {
    /// How many elements there are.
    pub fn count(&self) -> usize
        ensures { result ≡ length (target_lists self.now) }
    {
        self.targets.as_slice().len()
    }

    /// The target of an element at a place among its targets.
    pub fn target(&self, element: usize, place: usize) -> Option<usize>
        ensures target { result ≡ slice_get (targets_of (target_lists self.now) element) place }
        ensures counts { IfSome result (λ _. place + 1 < 2 ^ 64) }
    {
        let targets = self.targets.get(element)?;
        if place < targets.len() {
            Some(targets[place])
        } else {
            None
        }
    }

    /// Lets an element lead to one more.
    fn add(&mut self, element: usize, target: usize) -> Result<(), AllocError>
        ensures { IfOk result (λ _. target_lists self.new ≡ with_target (target_lists self.old) element target) }
    {
        if let Some(targets) = self.targets.get_mut(element) {
            targets.push(target)?;
        }
        Ok(())
    }

    /// The graph turned round, in which each element leads to those that lead to it.
    pub fn turned(&self, alloc: Global) -> Result<Graph, AllocError>
        ensures { IfOk result (λ turned. IsTurned (target_lists self.now) (target_lists turned)) }
    {
        let count = self.count();
        let mut turned = empty_graph(alloc, count)?;
        for element in 0..count {
            let mut place = 0;
            while let Some(target) = self.target(element, place) {
                turned.add(target, element)?;
                place += 1;
            }
        }
        Ok(turned)
    }
}

/// A graph of elements that lead nowhere.
fn empty_graph(alloc: Global, count: usize) -> Result<Graph, AllocError>
    ensures { IfOk result (λ graph. target_lists graph ≡ replicate count []) }
{
    let mut targets = Vec::new(alloc);
    for _ in 0..count {
        targets.push(Vec::new(alloc))?;
    }
    Ok(Graph { targets })
}
