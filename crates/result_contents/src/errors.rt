//! The errors of CMIP with their parameters: X.711, section 7.5. Identifiers stand as the request named them,
//! instances, filters and values octet for octet as they are handed in.
#![tactic(auto, using(ber_tree::proofs::Extending::extending))]

ghost use Rattle.std.specs.Prelude.{◌≡◌, Some, false, IfOk, reverse};
ghost use Rattle.term_model.specs.CmisErrors.{no_such_object_class, no_such_instance, duplicate_instance};
ghost use Rattle.term_model.specs.CmisErrors.{no_such_reference, invalid_instance, access_denied};
ghost use Rattle.term_model.specs.CmisErrors.{complexity_limitation, mistyped_operation, operation_cancelled};
ghost use Rattle.term_model.specs.CmisErrors.{sync_not_supported, invalid_filter, no_such_attribute};
ghost use Rattle.term_model.specs.CmisErrors.{invalid_attribute_value, get_list_error, set_list_error};
ghost use Rattle.term_model.specs.CmisErrors.{no_such_action, no_such_event_type, no_such_action_argument};
ghost use Rattle.term_model.specs.CmisErrors.{no_such_event_argument, invalid_action_argument};
ghost use Rattle.term_model.specs.CmisErrors.{invalid_event_argument, processing_failure, invalid_scope};
ghost use Rattle.term_model.specs.CmisErrors.{missing_attribute_value, class_instance_conflict, no_such_invoke_id};
ghost use Rattle.term_model.specs.ResultValues.{id_value};
ghost use Rattle.term_values.specs.CmipTypes.{identifier};
ghost use Rattle.term_values.specs.Der.{encoded};
ghost use Rattle.term_values.specs.Octets.{integer_contents};
ghost use Rattle.term_values.specs.Written.{der};

use crate::contents::Contents;
use crate::error_codes::{
    ACCESS_DENIED, CLASS_INSTANCE_CONFLICT, COMPLEXITY_LIMITATION, DUPLICATE_OBJECT_INSTANCE,
    GET_LIST_ERROR, INVALID_ARGUMENT_VALUE, INVALID_ATTRIBUTE_VALUE, INVALID_FILTER,
    INVALID_OBJECT_INSTANCE, INVALID_SCOPE, MISSING_ATTRIBUTE_VALUE, MISTYPED_OPERATION,
    NO_SUCH_ACTION, NO_SUCH_ARGUMENT, NO_SUCH_ATTRIBUTE, NO_SUCH_EVENT_TYPE, NO_SUCH_INVOKE_ID,
    NO_SUCH_OBJECT_CLASS, NO_SUCH_OBJECT_INSTANCE, NO_SUCH_REFERENCE_OBJECT, OPERATION_CANCELLED,
    PROCESSING_FAILURE, SET_LIST_ERROR, SYNC_NOT_SUPPORTED,
};
use crate::failures::{base_contents, failure_contents};
use crate::identifiers::{FormTags, write_id};
use crate::information::write_ids;
use crate::results::{get_list_contents, set_list_contents};
use ber_tree::tree_writing::{reverse_from, write_backwards};
use ber_tree::value_writing::write_integer_backwards;
use std::alloc::{AllocError, Global};
use term_model::{CmisError, FailureReason, GetInfoStatus, IdRef, Rdn, Scope, SetInfoStatus};
use term_values::tag::CONTEXT;
use term_values::{Bytes, Oid, Tag};

/// The tag of individualLevels in a Scope.
const INDIVIDUAL_LEVELS: Tag = Tag {
    class: CONTEXT,
    number: 1,
};

/// The tag of baseToNthLevel in a Scope.
const BASE_TO_NTH_LEVEL: Tag = Tag {
    class: CONTEXT,
    number: 2,
};

/// The error whose parameter has these octets, the last one first.
fn with_parameter(code: i64, mut turned: Vec<u8>) -> CmisError
    ensures { result ≡ record { code = code; parameter = Some (reverse turned.items) } }
{
    reverse_from(0, &mut turned);
    CmisError {
        code,
        parameter: Some(Bytes { items: turned }),
    }
}

/// The error whose parameter is what the request brought.
fn brought(alloc: Global, code: i64, octets: &[u8]) -> Result<CmisError, AllocError>
    ensures { IfOk result (λ error. error ≡ record { code = code; parameter = Some octets.now }) }
{
    let parameter = Some(Bytes::from_slice(alloc, octets)?);
    Ok(CmisError { code, parameter })
}

/// The error whose parameter is an identifier under these tags.
fn of_id(alloc: Global, code: i64, tags: FormTags, id: &IdRef) -> Result<CmisError, AllocError>
    ensures { IfOk result (λ error. error
        ≡ record { code = code; parameter = Some (der (identifier tags.global tags.local) (id_value id.now)) }) }
{
    let mut turned = Vec::new(alloc);
    write_id(tags, id, &mut turned)?;
    Ok(with_parameter(code, turned))
}

/// The error whose parameter is a whole number under this tag.
fn of_number(alloc: Global, code: i64, tag: Tag, number: i64) -> Result<CmisError, AllocError>
    ensures { IfOk result (λ error. error
        ≡ record { code = code; parameter = Some (encoded false tag (integer_contents number)) }) }
{
    let mut turned = Vec::new(alloc);
    write_integer_backwards(tag, number, &mut turned)?;
    Ok(with_parameter(code, turned))
}

/// The class is local, or no document has it.
pub fn no_such_object_class(alloc: Global, class: &IdRef) -> Result<CmisError, AllocError>
    ensures { IfOk result (λ error. error ≡ no_such_object_class class.now) }
{
    of_id(
        alloc,
        NO_SUCH_OBJECT_CLASS,
        FormTags::CLASS_OR_ATTRIBUTE,
        class,
    )
}

/// There is no object under the instance, which stands in these octets.
pub fn no_such_instance(alloc: Global, instance: &[u8]) -> Result<CmisError, AllocError>
    ensures { IfOk result (λ error. error ≡ no_such_instance instance.now) }
{
    brought(alloc, NO_SUCH_OBJECT_INSTANCE, instance)
}

/// The object to create is there.
pub fn duplicate_instance(alloc: Global, instance: &[u8]) -> Result<CmisError, AllocError>
    ensures { IfOk result (λ error. error ≡ duplicate_instance instance.now) }
{
    brought(alloc, DUPLICATE_OBJECT_INSTANCE, instance)
}

/// The reference object is not there, or is of another class.
pub fn no_such_reference(alloc: Global, instance: &[u8]) -> Result<CmisError, AllocError>
    ensures { IfOk result (λ error. error ≡ no_such_reference instance.now) }
{
    brought(alloc, NO_SUCH_REFERENCE_OBJECT, instance)
}

/// The instance can name no object.
pub fn invalid_instance(alloc: Global, instance: &[u8]) -> Result<CmisError, AllocError>
    ensures { IfOk result (λ error. error ≡ invalid_instance instance.now) }
{
    brought(alloc, INVALID_OBJECT_INSTANCE, instance)
}

/// The object may not be read or changed.
pub fn access_denied() -> CmisError
    ensures { result ≡ access_denied }
{
    CmisError {
        code: ACCESS_DENIED,
        parameter: None,
    }
}

/// A list or a filter is too long, there are too many names in scope, or the replies are too long.
pub fn complexity_limitation() -> CmisError
    ensures { result ≡ complexity_limitation }
{
    CmisError {
        code: COMPLEXITY_LIMITATION,
        parameter: None,
    }
}

/// The operation to cancel is no Get.
pub fn mistyped_operation() -> CmisError
    ensures { result ≡ mistyped_operation }
{
    CmisError {
        code: MISTYPED_OPERATION,
        parameter: None,
    }
}

/// The Get was cancelled.
pub fn operation_cancelled() -> CmisError
    ensures { result ≡ operation_cancelled }
{
    CmisError {
        code: OPERATION_CANCELLED,
        parameter: None,
    }
}

/// The synchronization is neither best effort nor atomic.
pub fn sync_not_supported(alloc: Global, sync: i64) -> Result<CmisError, AllocError>
    ensures { IfOk result (λ error. error ≡ sync_not_supported sync) }
{
    of_number(alloc, SYNC_NOT_SUPPORTED, Tag::ENUMERATED, sync)
}

/// The filter, which stands in these octets, has an item that can't be matched.
pub fn invalid_filter(alloc: Global, filter: &[u8]) -> Result<CmisError, AllocError>
    ensures { IfOk result (λ error. error ≡ invalid_filter filter.now) }
{
    brought(alloc, INVALID_FILTER, filter)
}

/// The object has no such attribute.
pub fn no_such_attribute(alloc: Global, attribute: &IdRef) -> Result<CmisError, AllocError>
    ensures { IfOk result (λ error. error ≡ no_such_attribute attribute.now) }
{
    of_id(
        alloc,
        NO_SUCH_ATTRIBUTE,
        FormTags::CLASS_OR_ATTRIBUTE,
        attribute,
    )
}

/// The attribute can't have the value in these octets.
pub fn invalid_attribute_value(
    alloc: Global,
    attribute: &IdRef,
    octets: &[u8],
) -> Result<CmisError, AllocError>
    ensures { IfOk result (λ error. error ≡ invalid_attribute_value attribute.now octets.now) }
{
    let mut turned = Vec::new(alloc);
    write_backwards(octets, &mut turned)?;
    write_id(FormTags::CLASS_OR_ATTRIBUTE, attribute, &mut turned)?;
    Contents { turned }.error(INVALID_ATTRIBUTE_VALUE)
}

/// Some of the attributes of a Get are not given.
pub fn get_list_error(
    alloc: Global,
    class: &Oid,
    name: &[Rdn],
    time: &[u8],
    statuses: &[GetInfoStatus],
) -> Result<CmisError, AllocError>
    ensures { IfOk result (λ error. error ≡ get_list_error class.now name.now time.now statuses.now) }
{
    get_list_contents(alloc, class, name, time, statuses)?.error(GET_LIST_ERROR)
}

/// Some of the modifications of a Set failed.
pub fn set_list_error(
    alloc: Global,
    class: &Oid,
    name: &[Rdn],
    time: &[u8],
    statuses: &[SetInfoStatus],
) -> Result<CmisError, AllocError>
    ensures { IfOk result (λ error. error ≡ set_list_error class.now name.now time.now statuses.now) }
{
    set_list_contents(alloc, class, name, time, statuses)?.error(SET_LIST_ERROR)
}

/// The object's class has no such action.
pub fn no_such_action(alloc: Global, action: &IdRef) -> Result<CmisError, AllocError>
    ensures { IfOk result (λ error. error ≡ no_such_action action.now) }
{
    of_id(alloc, NO_SUCH_ACTION, FormTags::ACTION, action)
}

/// The object's class has no such notification.
pub fn no_such_event_type(alloc: Global, event: &IdRef) -> Result<CmisError, AllocError>
    ensures { IfOk result (λ error. error ≡ no_such_event_type event.now) }
{
    of_id(alloc, NO_SUCH_EVENT_TYPE, FormTags::EVENT, event)
}

/// The action takes no argument.
pub fn no_such_action_argument(alloc: Global, action: &IdRef) -> Result<CmisError, AllocError>
    ensures { IfOk result (λ error. error ≡ no_such_action_argument action.now) }
{
    of_id(alloc, NO_SUCH_ARGUMENT, FormTags::ACTION, action)
}

/// The notification takes no information.
pub fn no_such_event_argument(alloc: Global, event: &IdRef) -> Result<CmisError, AllocError>
    ensures { IfOk result (λ error. error ≡ no_such_event_argument event.now) }
{
    of_id(alloc, NO_SUCH_ARGUMENT, FormTags::EVENT, event)
}

/// The action's argument is missing, or does not fit its syntax.
pub fn invalid_action_argument(alloc: Global, action: &IdRef) -> Result<CmisError, AllocError>
    ensures { IfOk result (λ error. error ≡ invalid_action_argument action.now) }
{
    of_id(alloc, INVALID_ARGUMENT_VALUE, FormTags::ACTION, action)
}

/// The notification's information is missing, or does not fit its syntax.
pub fn invalid_event_argument(alloc: Global, event: &IdRef) -> Result<CmisError, AllocError>
    ensures { IfOk result (λ error. error ≡ invalid_event_argument event.now) }
{
    of_id(alloc, INVALID_ARGUMENT_VALUE, FormTags::EVENT, event)
}

/// The operation failed for this reason, with the class and the octets of the instance.
pub fn processing_failure(
    alloc: Global,
    class: &IdRef,
    instance: &[u8],
    reason: FailureReason,
) -> Result<CmisError, AllocError>
    ensures { IfOk result (λ error. error ≡ processing_failure class.now instance.now reason) }
{
    failure_contents(alloc, class, instance, reason)?.error(PROCESSING_FAILURE)
}

/// The scope's level is negative, or its number none of a scope.
pub fn invalid_scope(alloc: Global, scope: Scope) -> Result<CmisError, AllocError>
    ensures { IfOk result (λ error. error ≡ invalid_scope scope) }
{
    match scope {
        Scope::Plain(number) => of_number(alloc, INVALID_SCOPE, Tag::INTEGER, number),
        Scope::Level(number) => of_number(alloc, INVALID_SCOPE, INDIVIDUAL_LEVELS, number),
        Scope::Upto(number) => of_number(alloc, INVALID_SCOPE, BASE_TO_NTH_LEVEL, number),
    }
}

/// These attributes of the object to create have no value.
pub fn missing_attribute_value(alloc: Global, attributes: &[Oid]) -> Result<CmisError, AllocError>
    ensures { IfOk result (λ error. error ≡ missing_attribute_value attributes.now) }
{
    let mut turned = Vec::new(alloc);
    write_ids(alloc, attributes, &mut turned)?;
    Ok(with_parameter(MISSING_ATTRIBUTE_VALUE, turned))
}

/// The object is of another class, with the class and the octets of the instance.
pub fn class_instance_conflict(
    alloc: Global,
    class: &IdRef,
    instance: &[u8],
) -> Result<CmisError, AllocError>
    ensures { IfOk result (λ error. error ≡ class_instance_conflict class.now instance.now) }
{
    base_contents(alloc, class, instance)?.error(CLASS_INSTANCE_CONFLICT)
}

/// No operation is outstanding under this invoke id.
pub fn no_such_invoke_id(alloc: Global, invoke: i64) -> Result<CmisError, AllocError>
    ensures { IfOk result (λ error. error ≡ no_such_invoke_id invoke) }
{
    of_number(alloc, NO_SUCH_INVOKE_ID, Tag::INTEGER, invoke)
}
