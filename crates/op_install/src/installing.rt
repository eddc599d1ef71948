//! The changes of a plan, installed in the map of objects: docs/PROFILE.md, section 17.

ghost use Rattle.std.specs.Prelude.{◌≡◌, OnOk};
ghost use Rattle.term_model.specs.NamedObjects.{IsByName};
ghost use Rattle.operation_model.specs.WholeOperation.{installed, installed_at};

use mo_list::ListMib as Mib;
use object_maps::ObjectMap;
use std::alloc::{AllocError, Global};
use term_model::{Name, Object, Patch, Ranged, StepLedger, Steps};

/// Lets this object stand under a name, or none.
fn install_one<L: StepLedger>(
    alloc: Global,
    mib: &mut Mib<L>,
    name: Name,
    left: Option<Object>,
    steps: &mut Steps<L>,
) -> Result<(), AllocError>
    ensures { OnOk result (mib.new ≡ installed_at mib.old name left) }
{
    match left {
        Some(object) => match mib.put(alloc, name, object, steps) {
            Ok(_) => Ok(()),
            Err(_) => Err(AllocError),
        },
        None => {
            mib.take_out(alloc, &name, steps)?;
            Ok(())
        }
    }
}

/// Installs changes, one after the other. That the names rise is told by each look into the map.
pub(crate) fn install<L: StepLedger>(
    alloc: Global,
    mib: &mut Mib<L>,
    changes: Patch,
    steps: &mut Steps<L>,
) -> Result<(), AllocError>
    ensures installed { OnOk result (mib.new ≡ installed mib.old changes) }
    ensures rising { IsByName mib.old }
{
    let _ = mib.at(&Name::root(alloc), steps);
    for (name, left) in changes.items {
        install_one(alloc, mib, name, left, steps)?;
    }
    Ok(())
}
