//! The reference object of a creation: X.711, section 7.4, m-Create, referenceObjectInstance; docs/PROFILE.md, section
//! 15, the fifth step.

ghost use Rattle.std.specs.Prelude.{◌≡◌, IfOk};
ghost use Rattle.std.specs.Option.{option_copied};
ghost use Rattle.term_model.specs.Creating.{named_object};
ghost use Rattle.op_life.specs.Referring.{attributes_held, is_of_class, lacks_found, raw_of, referred};

use std::alloc::{AllocError, Global};
use term_model::ranged::Ranged;
use term_model::{Attrs, Instance, Named, Object, StepLedger, Steps};
use term_values::Oid;

/// The object that an instance names, where it is there.
fn named_object<'a, L: StepLedger, M: Ranged<L>>(
    mib: &'a M,
    named: &Named,
    steps: &mut Steps<L>,
) -> Option<&'a Object>
    ensures { option_copied result ≡ named_object (M.objects mib.now) named.now }
{
    match named {
        Named::Object(name) => mib.at(name, steps),
        _ => None,
    }
}

/// The reference object, where one is asked for and is there.
pub fn referred<'a, L: StepLedger, M: Ranged<L>>(
    mib: &'a M,
    reference: &Option<Instance>,
    steps: &mut Steps<L>,
) -> Option<&'a Object>
    ensures { option_copied result ≡ referred (M.objects mib.now) reference.now }
{
    match reference {
        Some(instance) => named_object(mib, &instance.named, steps),
        None => None,
    }
}

/// Whether a reference object is of the class.
fn is_of_class(class: &Oid, found: Option<&Object>) -> bool
    ensures { result ≡ is_of_class class.now (option_copied found.entry) }
{
    match found {
        Some(object) => object.class == *class,
        None => false,
    }
}

/// Whether a reference object is asked for, and none of the class was found.
pub fn lacks_found(class: &Oid, reference: &Option<Instance>, found: Option<&Object>) -> bool
    ensures { result ≡ lacks_found class.now reference.now (option_copied found.entry) }
{
    reference.is_some() && !is_of_class(class, found)
}

/// The values that are taken over.
pub fn attributes_held(alloc: Global, found: Option<&Object>) -> Result<Attrs, AllocError>
    ensures { IfOk result (λ attributes. attributes ≡ attributes_held (option_copied found.entry)) }
{
    match found {
        Some(object) => object.attrs.copy(alloc),
        None => Ok(Attrs {
            items: Vec::new(alloc),
        }),
    }
}

/// The octets of a reference, where there is one.
pub fn raw_of(reference: &Option<Instance>) -> &[u8]
    ensures { result.now ≡ raw_of reference.now }
{
    match reference {
        Some(instance) => instance.raw.as_slice(),
        None => &[],
    }
}
