//! Maps from names to objects that are looked up by name and gone through in the order of names.

ghost use Rattle.std.specs.Prelude.{◌≡◌, List, MatchOption, None, Some};
ghost use Rattle.std.specs.Option.{option_copied};
ghost use Rattle.term_model.specs.declared.objects.NamedObject.{NamedObject};
ghost use Rattle.term_model.specs.Following.{entry_after};
ghost use Rattle.term_model.specs.NamedObjects.{IsByName, object_at};
ghost use Rattle.term_model.specs.StepCounts.{IsOneCall};

use crate::name::Name;
use crate::object::Object;
use crate::steps::{StepLedger, Steps};

/// A finite map from names to objects. It gives an object only to a caller who lends a counter of visits: each call
/// adds at least one visit where the map isn't empty, and at most 128 up to 100,000 objects. No call takes memory.
pub trait Ranged<L: StepLedger> {
    ghost objects: { Self → List NamedObject };

    /// The object with this name, where there is one.
    fn at(&self, name: &Name, steps: &mut Steps<L>) -> Option<&Object>
        ensures found { option_copied result ≡ object_at (objects self.now) name.now }
        ensures rising { IsByName (objects self.now) }
        ensures visits { IsOneCall (objects self.now) steps.old steps.new };

    /// The least greater name with its object: none exactly where no name is greater.
    fn after(&self, name: &Name, steps: &mut Steps<L>) -> Option<(&Name, &Object)>
        ensures next { MatchOption result (entry_after (objects self.now) name.now ≡ None)
            (λ next. entry_after (objects self.now) name.now
            ≡ Some (record { name = next.0.now; object = next.1.now })) }
        ensures rising { IsByName (objects self.now) }
        ensures visits { IsOneCall (objects self.now) steps.old steps.new };
}
