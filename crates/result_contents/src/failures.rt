//! processingFailure and classInstanceConflict, which have a class and an instance as the request brought them: X.711,
//! section 7.5.
#![tactic(auto, using(ber_tree::proofs::Extending::extending))]

ghost use Rattle.std.specs.Prelude.{◌≡◌, ◌++◌, [], false, true, IfOk, OnOk, reverse};
ghost use Rattle.ber_tree.specs.Writing.{Extends};
ghost use Rattle.term_model.specs.FailureValues.{base_value, failure_value, kept_base, kept_failure, reason_id};
ghost use Rattle.term_model.specs.FailureValues.{reason_number};
ghost use Rattle.term_model.specs.Replies.{contents_of};
ghost use Rattle.term_model.specs.ResultValues.{id_value};
ghost use Rattle.result_contents.specs.ResultOctets.{reason_octets};
ghost use Rattle.term_values.specs.CmipTypes.{object_class};
ghost use Rattle.term_values.specs.Der.{encoded};
ghost use Rattle.term_values.specs.Oid.{oid_contents};
ghost use Rattle.term_values.specs.Tag.{context, universal};
ghost use Rattle.term_values.specs.Typed.TypedValue.{Raw};
ghost use Rattle.term_values.specs.Written.{der};

use crate::contents::Contents;
use crate::identifiers::{FormTags, write_id};
use ber_tree::tree_writing::{write_backwards, write_header_backwards};
use ber_tree::value_writing::write_value_backwards;
use std::alloc::{AllocError, Global};
use term_model::{FailureReason, IdRef};
use term_values::Tag;
use term_values::tag::CONTEXT;

/// The tag of the reason in a processingFailure.
const SPECIFIC_INFO: Tag = Tag {
    class: CONTEXT,
    number: 5,
};

/// The last arc of a reason's identifier.
fn reason_arc(reason: FailureReason) -> u8
    ensures { result ≡ reason_number reason }
{
    match reason {
        FailureReason::Contained => 1,
        FailureReason::NotDeletable => 2,
        FailureReason::NotCreatable => 3,
        FailureReason::Limit => 4,
        FailureReason::Rule => 5,
    }
}

/// Appends the identifier of a reason, 2.999.9.10 and its number, the last octet first.
fn write_reason(reason: FailureReason, into: &mut Vec<u8>) -> Result<(), AllocError>
    ensures written { OnOk result (into.new.items
        ≡ into.old.items ++ reverse (encoded false (universal 6) (oid_contents (reason_id reason)))) }
    ensures begun { Extends into.old.items into.new.items }
{
    let arc = reason_arc(reason);
    write_value_backwards(
        false,
        Tag::OBJECT_IDENTIFIER,
        &[0x88, 0x37, 0x09, 0x0A, arc],
        into,
    )
}

/// Appends the reason of a failure with its NULL, the last octet first.
fn write_reason_value(reason: FailureReason, into: &mut Vec<u8>) -> Result<(), AllocError>
    ensures written { OnOk result (into.new.items ≡ into.old.items ++ reverse (encoded true (universal 16)
        (encoded false (universal 6) (oid_contents (reason_id reason)) ++ encoded false (universal 5) []))) }
    ensures begun { Extends into.old.items into.new.items }
{
    let start = into.as_slice().len();
    write_value_backwards(false, Tag::NULL, &[], into)?;
    write_reason(reason, into)?;
    let size = into.as_slice().len() - start;
    write_header_backwards(true, Tag::SEQUENCE, size, into)
}

/// Appends the reason of a failure under its tag, the last octet first.
fn write_specific_info(reason: FailureReason, into: &mut Vec<u8>) -> Result<(), AllocError>
    ensures written { OnOk result (into.new.items ≡ into.old.items ++ reverse (reason_octets reason)) }
    ensures begun { Extends into.old.items into.new.items }
{
    let start = into.as_slice().len();
    write_reason_value(reason, into)?;
    let size = into.as_slice().len() - start;
    write_header_backwards(true, SPECIFIC_INFO, size, into)
}

/// Appends a class as the request named it and an instance, which stands in these octets, the last octet first.
fn write_base(class: &IdRef, instance: &[u8], into: &mut Vec<u8>) -> Result<(), AllocError>
    ensures written { OnOk result
        (into.new.items ≡ into.old.items ++ reverse (der object_class (id_value class.now) ++ instance.now)) }
    ensures begun { Extends into.old.items into.new.items }
{
    write_backwards(instance, into)?;
    write_id(FormTags::CLASS_OR_ATTRIBUTE, class, into)
}

/// A processingFailure: the class, the octets of the instance, and the reason.
pub fn failure_contents(
    alloc: Global,
    class: &IdRef,
    instance: &[u8],
    reason: FailureReason,
) -> Result<Contents, AllocError>
    ensures { IfOk result (λ contents. contents
        ≡ contents_of kept_failure (failure_value class.now (Raw instance.now) reason)) }
{
    let mut turned = Vec::new(alloc);
    write_specific_info(reason, &mut turned)?;
    write_base(class, instance, &mut turned)?;
    Ok(Contents { turned })
}

/// The base object of a request: the class and the octets of the instance.
pub fn base_contents(alloc: Global, class: &IdRef, instance: &[u8]) -> Result<Contents, AllocError>
    ensures { IfOk result (λ contents. contents
        ≡ contents_of kept_base (base_value class.now (Raw instance.now))) }
{
    let mut turned = Vec::new(alloc);
    write_base(class, instance, &mut turned)?;
    Ok(Contents { turned })
}
