//! Whether the class with the label of discriminators, or of logs, is one that the agent acts on: X.721, X.734, X.735;
//! docs/PROFILE.md, sections 15 and 19.

ghost use Rattle.std.specs.Prelude.{◌≡◌, ◌&&◌, codes, IfOk};
ghost use Rattle.bound_classes.specs.BoundLabels.{is_label_bound};
ghost use Rattle.term_model.specs.BoundClasses.{is_bound_discriminator, is_bound_log};
ghost use Rattle.term_model.specs.Comparing.{is_same_octets};
ghost use Rattle.term_model.specs.ControlSyntaxes.{discriminator_attributes, log_attributes};

use crate::discriminators::is_bound_discriminator;
use attribute_rules::is_bound_log;
use std::alloc::{AllocError, Global};
use term_model::{ClassRec, Set};

/// A class is the one with the label of discriminators, and is bound.
fn is_the_discriminator(
    alloc: Global,
    schema: &Set,
    of_class: &ClassRec,
) -> Result<bool, AllocError>
    ensures { IfOk result (λ bound. bound
        ≡ (is_same_octets of_class.now.label (codes "eventForwardingDiscriminator")
        && is_bound_discriminator schema.now of_class.now.id)) }
{
    if of_class.label.as_slice() != b"eventForwardingDiscriminator".as_slice() {
        return Ok(false);
    }
    is_bound_discriminator(alloc, schema, &of_class.id)
}

/// The class with the label of discriminators is bound.
pub fn has_bound_discriminator(alloc: Global, schema: &Set) -> Result<bool, AllocError>
    ensures { IfOk result (λ bound. bound
        ≡ is_label_bound schema.now (codes "eventForwardingDiscriminator") discriminator_attributes) }
{
    for of_class in schema.classes.as_slice() {
        if is_the_discriminator(alloc, schema, of_class)? {
            return Ok(true);
        }
    }
    Ok(false)
}

/// A class is the one with the label of logs, and is bound.
fn is_the_log(alloc: Global, schema: &Set, of_class: &ClassRec) -> Result<bool, AllocError>
    ensures { IfOk result (λ bound. bound
        ≡ (is_same_octets of_class.now.label (codes "log") && is_bound_log schema.now of_class.now.id)) }
{
    if of_class.label.as_slice() != b"log".as_slice() {
        return Ok(false);
    }
    is_bound_log(alloc, schema, &of_class.id)
}

/// The class with the label of logs is bound.
pub fn has_bound_log(alloc: Global, schema: &Set) -> Result<bool, AllocError>
    ensures { IfOk result (λ bound. bound ≡ is_label_bound schema.now (codes "log") log_attributes) }
{
    for of_class in schema.classes.as_slice() {
        if is_the_log(alloc, schema, of_class)? {
            return Ok(true);
        }
    }
    Ok(false)
}
