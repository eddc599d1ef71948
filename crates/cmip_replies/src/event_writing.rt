//! Writes the frames of event reports: X.711, section 7.4, m-EventReport.
#![tactic(auto, using(ber_tree::proofs::Extending::extending))]

ghost use Rattle.std.specs.Prelude.{◌≡◌, ◌++◌, None, pos, OnErr, OnOk, reverse};
ghost use Rattle.ber_tree.specs.Writing.{Extends};
ghost use Rattle.term_model.specs.ApduWriting.{invoke_apdu};
ghost use Rattle.term_model.specs.RemoteOperation.{frame};
ghost use Rattle.term_model.specs.SentApdus.{sent_event};
ghost use Rattle.cmip_replies.specs.ReplyOctets.{argument_octets, event_octets, happened_octets, info_octets};

use ber_tree::tree_writing::reverse_from;
use ber_tree::value_writing::{
    write_integer_backwards, write_oid_backwards, write_value_backwards,
};
use result_contents::information::GLOBAL_FORM;
use result_contents::names::write_instance;
use rose_frames::apdu_reading::INVOKE;
use rose_frames::apdu_writing::{close_frame, close_value};
use std::alloc::AllocError;
use term_model::Event;
use term_values::tag::CONTEXT;
use term_values::{Bytes, Tag};

/// The operation m-EventReport, which is not confirmed.
const M_EVENT_REPORT: i64 = 0;

/// The tag of eventTime.
const EVENT_TIME: Tag = Tag {
    class: CONTEXT,
    number: 5,
};

/// The tag of globalForm in an EventTypeId.
const EVENT_TYPE: Tag = Tag {
    class: CONTEXT,
    number: 6,
};

/// The tag of eventInfo.
const EVENT_INFO: Tag = Tag {
    class: CONTEXT,
    number: 8,
};

/// Appends a report's information, where there is some, the last octet first.
fn write_info(info: &Option<Bytes>, into: &mut Vec<u8>) -> Result<(), AllocError>
    ensures written { OnOk result (into.new.items ≡ into.old.items ++ reverse (info_octets info.now)) }
    ensures begun { Extends into.old.items into.new.items }
{
    match info {
        Some(info) => write_value_backwards(true, EVENT_INFO, info.as_slice(), into),
        None => Ok(()),
    }
}

/// Appends when something happened, what it was and its information, the last octet first.
fn write_happened(event: &Event, into: &mut Vec<u8>) -> Result<(), AllocError>
    ensures written { OnOk result (into.new.items ≡ into.old.items ++ reverse (happened_octets event.now)) }
    ensures begun { Extends into.old.items into.new.items }
{
    write_info(&event.info, into)?;
    write_oid_backwards(EVENT_TYPE, &event.kind, into)?;
    write_value_backwards(false, EVENT_TIME, event.time.as_slice(), into)
}

/// Appends what stands in a report's argument, the last octet first.
fn write_event_contents(event: &Event, into: &mut Vec<u8>) -> Result<(), AllocError>
    ensures written { OnOk result (into.new.items ≡ into.old.items ++ reverse (event_octets event.now)) }
    ensures begun { Extends into.old.items into.new.items }
{
    write_happened(event, into)?;
    write_instance(event.name.parts.as_slice(), into)?;
    write_oid_backwards(GLOBAL_FORM, &event.class, into)
}

/// Appends a report's argument, the last octet first.
fn write_argument(event: &Event, into: &mut Vec<u8>) -> Result<(), AllocError>
    ensures written { OnOk result (into.new.items ≡ into.old.items ++ reverse (argument_octets event.now)) }
    ensures begun { Extends into.old.items into.new.items }
{
    let start = into.as_slice().len();
    write_event_contents(event, into)?;
    close_value(Tag::SEQUENCE, start, into)?;
    Ok(())
}

/// Appends the frame of a report, the last octet first.
fn write_frame_backwards(event: &Event, own: i64, into: &mut Vec<u8>) -> Result<(), AllocError>
    ensures written { OnOk result (into.new.items
        ≡ into.old.items ++ reverse (frame (invoke_apdu own None (pos 0) (argument_octets event.now)))) }
    ensures begun { Extends into.old.items into.new.items }
{
    let start = into.as_slice().len();
    write_argument(event, into)?;
    write_integer_backwards(Tag::INTEGER, M_EVENT_REPORT, into)?;
    write_integer_backwards(Tag::INTEGER, own, into)?;
    close_value(INVOKE, start, into)?;
    close_frame(start, into)?;
    Ok(())
}

/// Appends the frame of a report. After want of memory `into` is as it was.
fn write_turned(event: &Event, own: i64, into: &mut Vec<u8>) -> Result<(), AllocError>
    ensures written { OnOk result (into.new.items
        ≡ into.old.items ++ frame (invoke_apdu own None (pos 0) (argument_octets event.now))) }
    ensures kept { OnErr result (into.new.items ≡ into.old.items) }
{
    let start = into.as_slice().len();
    match write_frame_backwards(event, own, into) {
        Ok(()) => {
            reverse_from(start, into);
            Ok(())
        }
        Err(fault) => {
            into.truncate(start);
            Err(fault)
        }
    }
}

/// Appends the frame of an event report, an unconfirmed one, under the agent's own invoke id `own`. The cost is linear
/// in what is appended. After want of memory `into` is as it was.
pub fn write_event(event: &Event, own: i32, into: &mut Vec<u8>) -> Result<(), AllocError>
    ensures written { OnOk result (into.new.items ≡ into.old.items ++ sent_event own event.now) }
    ensures kept { OnErr result (into.new.items ≡ into.old.items) }
{
    write_turned(event, i64::from(own), into)
}
