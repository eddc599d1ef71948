//! Maps of objects that hand out those at and below a base object: docs/PROFILE.md, section 4.

ghost use Rattle.std.specs.Prelude.{◌≡◌, ◌+◌, ◌≤◌, IfOk, OnOk, length};
ghost use Rattle.std.specs.Option.{option_copied};
ghost use Rattle.term_model.specs.NamedObjects.{IsByName};
ghost use Rattle.term_model.specs.StepCounts.{IsOneCall};
ghost use Rattle.scope_select.specs.Subtrees.{IsOneSubtree, entry_of, referred, subtree_of};

use std::alloc::{AllocError, Global};
use term_model::ranged::Ranged;
use term_model::{Name, NamedObject, StepLedger, Steps};

/// A map whose objects are handed out with their names, one by its name or all of a subtree, to a caller who lends a
/// counter of visits: each object that is handed out is one visit at least.
pub trait Subtrees<L: StepLedger>: Ranged<L> {
    /// The object with this name, and its name, where there is one. Takes no memory.
    fn entry(&self, name: &Name, steps: &mut Steps<L>) -> Option<&NamedObject>
        ensures found { option_copied result ≡ entry_of (Self.objects self.now) name.now }
        ensures rising { IsByName (Self.objects self.now) }
        ensures visits { IsOneCall (Self.objects self.now) steps.old steps.new };

    /// The objects whose names the base is or begins, by the order of names.
    fn subtree(
        &self,
        alloc: Global,
        base: &Name,
        steps: &mut Steps<L>,
    ) -> Result<Vec<&NamedObject>, AllocError>
        ensures entries { IfOk result (λ entries. referred entries.items ≡ subtree_of (Self.objects self.now) base.now) }
        ensures rising { IsByName (Self.objects self.now) }
        ensures visits { IsOneSubtree (Self.objects self.now) base.now steps.old steps.new }
        ensures each { OnOk result (steps.old + length (subtree_of (Self.objects self.now) base.now) ≤ steps.new) };
}
