//! Whether a schema asks more of an agent than objects that hold attributes: X.722, section 8.4, ACTIONS and
//! NOTIFICATIONS; X.721, X.734, X.735, discriminators and logs; docs/PROFILE.md, section 15.

ghost use Rattle.std.specs.Prelude.{◌≡◌, IfOk};
ghost use Rattle.std.specs.List.{list_any};
ghost use Rattle.bound_classes.specs.Behaviour.{has_behaviour, has_members, has_operations, is_bound_class};
ghost use Rattle.bound_classes.specs.KnownLabels.{is_known};

use crate::discriminators::is_bound_discriminator;
use attribute_rules::is_bound_log;
use std::alloc::{AllocError, Global};
use term_model::{ClassRec, PackageRec, Set};

/// A package has an action or a notification.
#[tactic(auto, unfolding(crate::specs::Behaviour::has_members))]
fn has_members(of_package: &PackageRec) -> bool
    ensures { result ≡ has_members of_package.now }
{
    !of_package.actions.items.as_slice().is_empty()
        || !of_package.notifications.items.as_slice().is_empty()
}

/// One of the packages has one.
fn have_members(packages: &[PackageRec]) -> bool
    ensures { result ≡ list_any has_members packages.now }
{
    for of_package in packages {
        if has_members(of_package) {
            return true;
        }
    }
    false
}

/// One of the packages that a class itself states, mandatory or conditional, has an action or a notification: X.722,
/// section 8.4.
#[tactic(auto, unfolding(crate::specs::Behaviour::has_operations))]
pub fn has_operations(of_class: &ClassRec) -> bool
    ensures { result ≡ has_operations of_class.now }
{
    have_members(of_class.mandatory.items.as_slice())
        || have_members(of_class.conditional.items.as_slice())
}

/// One of the classes has one.
fn have_operations(classes: &[ClassRec]) -> bool
    ensures { result ≡ list_any has_operations classes.now }
{
    for of_class in classes {
        if has_operations(of_class) {
            return true;
        }
    }
    false
}

/// The objects of a class are discriminators or logs on which the agent acts.
#[tactic(auto, unfolding(crate::specs::Behaviour::is_bound_class))]
pub fn is_bound_class(alloc: Global, schema: &Set, of_class: &ClassRec) -> Result<bool, AllocError>
    ensures { IfOk result (λ bound. bound ≡ is_bound_class schema.now of_class.now) }
{
    if is_bound_discriminator(alloc, schema, &of_class.id)? {
        return Ok(true);
    }
    is_bound_log(alloc, schema, &of_class.id)
}

/// One of the classes is such a class, each asked for itself.
fn is_one_bound(alloc: Global, schema: &Set) -> Result<bool, AllocError>
    ensures { IfOk result (λ bound. bound ≡ list_any (is_bound_class schema.now) schema.now.classes) }
{
    for of_class in schema.classes.as_slice() {
        if is_bound_class(alloc, schema, of_class)? {
            return Ok(true);
        }
    }
    Ok(false)
}

/// A class has the label of discriminators or that of logs.
#[tactic(auto, unfolding(crate::specs::KnownLabels::is_known))]
fn is_known(of_class: &ClassRec) -> bool
    ensures { result ≡ is_known of_class.now }
{
    let label = of_class.label.as_slice();
    label == b"eventForwardingDiscriminator".as_slice() || label == b"log".as_slice()
}

/// One of the classes has.
fn is_one_known(classes: &[ClassRec]) -> bool
    ensures { result ≡ list_any is_known classes.now }
{
    for of_class in classes {
        if is_known(of_class) {
            return true;
        }
    }
    false
}

/// One of the classes is bound; no class is asked where none has the label of discriminators or of logs.
fn has_bound_class(alloc: Global, schema: &Set) -> Result<bool, AllocError>
    ensures { IfOk result (λ bound. bound ≡ list_any (is_bound_class schema.now) schema.now.classes) }
{
    if !is_one_known(schema.classes.as_slice()) {
        return Ok(false);
    }
    is_one_bound(alloc, schema)
}

/// Some class has an action or a notification, in a mandatory or a conditional package, or the agent acts on its
/// objects as discriminators or logs. Labels are looked at before any class is asked what it inherits.
#[tactic(auto, unfolding(crate::specs::Behaviour::has_behaviour))]
pub fn has_behaviour(alloc: Global, schema: &Set) -> Result<bool, AllocError>
    ensures { IfOk result (λ found. found ≡ has_behaviour schema.now) }
{
    if have_operations(schema.classes.as_slice()) {
        return Ok(true);
    }
    has_bound_class(alloc, schema)
}
