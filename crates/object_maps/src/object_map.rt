//! Maps of objects in which objects are put and taken out, and which are shared: docs/PROFILE.md, section 4.

ghost use Rattle.std.specs.Prelude.{◌≡◌, [], IfErr, IfOk, OnErr, OnOk, is_some, length};
ghost use Rattle.term_model.specs.NamedObjects.{object_at, removed, stored};
ghost use Rattle.term_model.specs.StepCounts.{IsOneCall};

use scope_select::Subtrees;
use std::alloc::{AllocError, Global};
use term_model::{Name, Object, StepLedger, Steps};

/// The name and the object that weren't stored.
#[derive(Drop)]
pub struct Back {
    /// The name under which it was to be put.
    pub name: Name,
    /// The object itself.
    pub object: Object,
}

/// A finite map from names to objects that changes. Each call that looks a name up adds visits to the counter that it is
/// lent, as [`term_model::Ranged`] says.
pub trait ObjectMap<L: StepLedger>: Subtrees<L> {
    /// No objects. Takes no memory.
    fn empty() -> Self
        ensures { Self.objects result ≡ [] };

    /// How many objects there are. Takes no memory.
    fn len(&self) -> u64
        ensures { result ≡ length (Self.objects self.now) };

    /// Puts an object under its name, in place of the one that had it, and answers whether the name was there. For want
    /// of memory the map is as it was, and both are handed back.
    fn put(
        &mut self,
        alloc: Global,
        name: Name,
        object: Object,
        steps: &mut Steps<L>,
    ) -> Result<bool, Back>
        ensures stored { OnOk result
            (Self.objects self.new ≡ stored (record { name = name; object = object }) (Self.objects self.old)) }
        ensures had { IfOk result (λ had. had ≡ is_some (object_at (Self.objects self.old) name)) }
        ensures kept { OnErr result (self.new ≡ self.old) }
        ensures back { IfErr result (λ back. (back.name ≡ name) × (back.object ≡ object)) }
        ensures visits { IsOneCall (Self.objects self.old) steps.old steps.new };

    /// Takes the object of a name out, and answers whether the name was there. For want of memory the map is as it was.
    fn take_out(
        &mut self,
        alloc: Global,
        name: &Name,
        steps: &mut Steps<L>,
    ) -> Result<bool, AllocError>
        ensures removed { OnOk result (Self.objects self.new ≡ removed name.now (Self.objects self.old)) }
        ensures had { IfOk result (λ had. had ≡ is_some (object_at (Self.objects self.old) name.now)) }
        ensures kept { OnErr result (self.new ≡ self.old) }
        ensures visits { IsOneCall (Self.objects self.old) steps.old steps.new };

    /// The same map again. A change of one leaves the other as it is. The refusal is that there is no memory.
    fn share(&self) -> Result<Self, AllocError>
        ensures { IfOk result (λ map. Self.objects map ≡ Self.objects self.now) };
}
