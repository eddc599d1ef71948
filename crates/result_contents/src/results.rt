//! What results hold, and the list errors that stand in their place: X.711, section 7.5. Class, instance and the moment
//! of the grant come first.
#![tactic(auto, using(ber_tree::proofs::Extending::extending))]

ghost use Rattle.std.specs.Prelude.{◌≡◌, ◌++◌, Some, false, true, IfOk, OnOk, reverse};
ghost use Rattle.ber_tree.specs.Writing.{Extends};
ghost use Rattle.term_model.specs.FailureValues.{action_error_value};
ghost use Rattle.term_model.specs.Replies.{contents_of};
ghost use Rattle.term_model.specs.ResultValues.{action_value, attributes_value, get_list_value, id_value};
ghost use Rattle.term_model.specs.ResultValues.{plain_value, set_list_value};
ghost use Rattle.term_values.specs.CmipTypes.{action_type_id};
ghost use Rattle.term_values.specs.Der.{encoded};
ghost use Rattle.term_values.specs.Octets.{integer_contents};
ghost use Rattle.term_values.specs.ResultSyntaxes.{action_error, action_result, attributes_result, get_list_error};
ghost use Rattle.term_values.specs.ResultSyntaxes.{plain_result, set_list_error};
ghost use Rattle.term_values.specs.Tag.{context, universal};
ghost use Rattle.term_values.specs.Written.{der};
ghost use Rattle.result_contents.specs.ResultOctets.{reply_octets, told_octets};

use crate::contents::{Contents, close};
use crate::identifiers::FormTags;
use crate::information::{
    GLOBAL_FORM, write_attributes, write_get_info, write_set_info, write_status,
};
use crate::names::write_instance;
use ber_tree::tree_writing::write_header_backwards;
use ber_tree::value_writing::{write_oid_backwards, write_value_backwards};
use std::alloc::{AllocError, Global};
use term_model::{ActionReply, AttributeValue, GetInfoStatus, IdRef, Rdn, SetInfoStatus};
use term_values::tag::CONTEXT;
use term_values::{Oid, Tag};

/// The tag of currentTime.
const CURRENT_TIME: Tag = Tag {
    class: CONTEXT,
    number: 5,
};

/// The tag of an action's reply, and of an action's error.
const ACTION_REPLY: Tag = Tag {
    class: CONTEXT,
    number: 6,
};

/// The tag of globalForm in an ActionTypeId.
const ACTION: Tag = Tag {
    class: CONTEXT,
    number: 2,
};

/// The tag of the information of an action's reply.
const REPLY_INFO: Tag = Tag {
    class: CONTEXT,
    number: 4,
};

/// Appends class, instance and time, the last octet first.
fn write_told(class: &Oid, name: &[Rdn], time: &[u8], into: &mut Vec<u8>) -> Result<(), AllocError>
    ensures written { OnOk result
        (into.new.items ≡ into.old.items ++ reverse (told_octets class.now name.now time.now)) }
    ensures begun { Extends into.old.items into.new.items }
{
    write_value_backwards(false, CURRENT_TIME, time, into)?;
    write_instance(name, into)?;
    write_oid_backwards(GLOBAL_FORM, class, into)
}

/// The result of a Get, a Set or a Create: the object and these attributes, in any order.
pub fn attributes_contents(
    alloc: Global,
    class: &Oid,
    name: &[Rdn],
    time: &[u8],
    attributes: &[AttributeValue],
) -> Result<Contents, AllocError>
    ensures { IfOk result (λ contents. contents
        ≡ contents_of attributes_result (attributes_value class.now name.now time.now attributes.now)) }
{
    let mut turned = Vec::new(alloc);
    write_attributes(alloc, attributes, &mut turned)?;
    write_told(class, name, time, &mut turned)?;
    Ok(Contents { turned })
}

/// Appends the information of an action's reply, the last octet first.
fn write_reply_info(info: &[u8], into: &mut Vec<u8>) -> Result<(), AllocError>
    ensures written { OnOk result (into.new.items ≡ into.old.items ++ reverse (encoded true (context 4) info.now)) }
    ensures begun { Extends into.old.items into.new.items }
{
    write_value_backwards(true, REPLY_INFO, info, into)
}

/// Appends an action's reply, the last octet first.
fn write_action_reply(reply: &ActionReply, into: &mut Vec<u8>) -> Result<(), AllocError>
    ensures written { OnOk result (into.new.items ≡ into.old.items ++ reverse (reply_octets (Some reply.now))) }
    ensures begun { Extends into.old.items into.new.items }
{
    let start = into.as_slice().len();
    write_reply_info(reply.info.as_slice(), into)?;
    write_oid_backwards(ACTION, &reply.action, into)?;
    let size = into.as_slice().len() - start;
    write_header_backwards(true, ACTION_REPLY, size, into)
}

/// Appends an action's reply, where there is one, the last octet first.
fn write_optional_reply(reply: &Option<ActionReply>, into: &mut Vec<u8>) -> Result<(), AllocError>
    ensures written { OnOk result (into.new.items ≡ into.old.items ++ reverse (reply_octets reply.now)) }
    ensures begun { Extends into.old.items into.new.items }
{
    match reply {
        Some(reply) => write_action_reply(reply, into),
        None => Ok(()),
    }
}

/// The result of an action: the object, and what the action replied.
pub fn action_contents(
    alloc: Global,
    class: &Oid,
    name: &[Rdn],
    time: &[u8],
    reply: &Option<ActionReply>,
) -> Result<Contents, AllocError>
    ensures { IfOk result (λ contents. contents
        ≡ contents_of action_result (action_value class.now name.now time.now reply.now)) }
{
    let mut turned = Vec::new(alloc);
    write_optional_reply(reply, &mut turned)?;
    write_told(class, name, time, &mut turned)?;
    Ok(Contents { turned })
}

/// The result of a Delete or of an event report: the object alone.
pub fn plain_contents(
    alloc: Global,
    class: &Oid,
    name: &[Rdn],
    time: &[u8],
) -> Result<Contents, AllocError>
    ensures { IfOk result (λ contents. contents
        ≡ contents_of plain_result (plain_value class.now name.now time.now)) }
{
    let mut turned = Vec::new(alloc);
    write_told(class, name, time, &mut turned)?;
    Ok(Contents { turned })
}

/// A getListError: the object, and the errors and the attributes of a Get.
pub fn get_list_contents(
    alloc: Global,
    class: &Oid,
    name: &[Rdn],
    time: &[u8],
    statuses: &[GetInfoStatus],
) -> Result<Contents, AllocError>
    ensures { IfOk result (λ contents. contents
        ≡ contents_of get_list_error (get_list_value class.now name.now time.now statuses.now)) }
{
    let mut turned = Vec::new(alloc);
    write_get_info(alloc, statuses, &mut turned)?;
    write_told(class, name, time, &mut turned)?;
    Ok(Contents { turned })
}

/// A setListError: the object, and the errors and the attributes of a Set.
pub fn set_list_contents(
    alloc: Global,
    class: &Oid,
    name: &[Rdn],
    time: &[u8],
    statuses: &[SetInfoStatus],
) -> Result<Contents, AllocError>
    ensures { IfOk result (λ contents. contents
        ≡ contents_of set_list_error (set_list_value class.now name.now time.now statuses.now)) }
{
    let mut turned = Vec::new(alloc);
    write_set_info(alloc, statuses, &mut turned)?;
    write_told(class, name, time, &mut turned)?;
    Ok(Contents { turned })
}

/// Appends the number of an action's error and the action, the last octet first.
fn write_action_status(status: i64, action: &IdRef, into: &mut Vec<u8>) -> Result<(), AllocError>
    ensures written { OnOk result (into.new.items ≡ into.old.items ++ reverse (encoded true (universal 16)
        (encoded false (universal 10) (integer_contents status) ++ der action_type_id (id_value action.now)))) }
    ensures begun { Extends into.old.items into.new.items }
{
    let start = into.as_slice().len();
    write_status(status, FormTags::ACTION, action, into)?;
    let size = into.as_slice().len() - start;
    write_header_backwards(true, Tag::SEQUENCE, size, into)
}

/// Appends the error of an action, the last octet first.
fn write_action_error(status: i64, action: &IdRef, into: &mut Vec<u8>) -> Result<(), AllocError>
    ensures written { OnOk result (into.new.items ≡ into.old.items ++ reverse (encoded true (context 6)
        (encoded true (universal 16)
        (encoded false (universal 10) (integer_contents status) ++ der action_type_id (id_value action.now))))) }
    ensures begun { Extends into.old.items into.new.items }
{
    let start = into.as_slice().len();
    write_action_status(status, action, into)?;
    close(ACTION_REPLY, start, into)?;
    Ok(())
}

/// An actionError: the object, the number of the error and the action as the request named it.
pub fn action_error_contents(
    alloc: Global,
    class: &Oid,
    name: &[Rdn],
    time: &[u8],
    status: i64,
    action: &IdRef,
) -> Result<Contents, AllocError>
    ensures { IfOk result (λ contents. contents
        ≡ contents_of action_error (action_error_value class.now name.now time.now status action.now)) }
{
    let mut turned = Vec::new(alloc);
    write_action_error(status, action, &mut turned)?;
    write_told(class, name, time, &mut turned)?;
    Ok(Contents { turned })
}
