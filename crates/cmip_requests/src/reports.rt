//! The argument of m-EventReport: X.711, section 7.4.

ghost use Rattle.std.specs.Prelude.{◌≡◌, IfOk, find, option_and_then};
ghost use Rattle.std.specs.Option.{option_copied, option_map};
ghost use Rattle.term_values.specs.Tree.{listed};
ghost use Rattle.term_model.specs.declared.actions.NoteRec.{NoteRec};
ghost use Rattle.term_model.specs.Comparing.{is_same_oid};
ghost use Rattle.term_model.specs.ReportReading.{event_of, event_with, notification_syntax, report_behind, report_in};
ghost use Rattle.term_model.specs.ReportReading.{report_of, report_trees, report_with, time_in, time_of};

use crate::actions::given_any;
use argument_parts::asserting::read_id;
use argument_parts::heads::read_object;
use argument_parts::rows::{at_end, at_front, held_under};
use ber_values::string_reading::read_octets;
use std::alloc::{AllocError, Global};
use term_model::{Given, IdRef, Instance, NoteRec, NoteRecs, Request, Set};
use term_values::times::is_time;
use term_values::{Bytes, Oid, Syntax, Tree};

/// The trees that stand for the components behind class and instance.
#[derive(Clone, Copy)]
struct Reported<'a> {
    time: Option<&'a Tree>,
    kind: &'a Tree,
    info: Option<&'a Tree>,
}

/// The components behind the time.
fn report_behind<'a>(time: Option<&'a Tree>, trees: &'a [Tree]) -> Option<Reported<'a>>
    ensures { option_map (λ r. record {
      time = option_copied r.time;
      kind = r.kind.now;
      info = option_copied r.info;
    }) result ≡ report_behind (option_copied time.entry) (listed trees.now) }
{
    match trees.split_first() {
        None => None,
        Some((kind, rest)) => {
            let info = at_end(8, rest)?;
            Some(Reported { time, kind, info })
        }
    }
}

fn report_parts(trees: &[Tree]) -> Option<Reported<'_>>
    ensures { option_map (λ r. record {
      time = option_copied r.time;
      kind = r.kind.now;
      info = option_copied r.info;
    }) result ≡ report_trees (listed trees.now) }
{
    let (time, rest) = at_front(5, trees);
    report_behind(time, rest)
}

/// The octets of a GeneralizedTime.
fn time_in(alloc: Global, tree: &Tree) -> Result<Option<Bytes>, AllocError>
    ensures { IfOk result (λ time. time ≡ time_in tree.now) }
{
    match read_octets(alloc, tree)? {
        None => Ok(None),
        Some(octets) => {
            if is_time(octets.as_slice()) {
                Ok(Some(octets))
            } else {
                Ok(None)
            }
        }
    }
}

fn time_of(alloc: Global, tree: Option<&Tree>) -> Result<Option<Option<Bytes>>, AllocError>
    ensures { IfOk result (λ time. time ≡ time_of (option_copied tree.entry)) }
{
    match tree {
        None => Ok(Some(None)),
        Some(tree) => match time_in(alloc, tree)? {
            None => Ok(None),
            Some(time) => Ok(Some(Some(time))),
        },
    }
}

/// The first record with this identifier.
fn find_notification<'a>(records: &'a [NoteRec], id: &Oid) -> Option<&'a NoteRec>
    ensures { option_copied result
        ≡ find (λ (of_notification : NoteRec). is_same_oid of_notification.id id.now) records.now }
{
    for notification in records {
        if notification.id == *id {
            return Some(notification);
        }
    }
    None
}

/// The syntax of the information of a notification, where it has one.
fn information(notification: Option<&NoteRec>) -> Option<&Syntax>
    ensures { option_copied result
        ≡ option_and_then (λ (of_notification : NoteRec). of_notification.information)
        (option_copied notification.entry) }
{
    match notification {
        None => None,
        Some(notification) => match &notification.information {
            None => None,
            Some(syntax) => Some(syntax),
        },
    }
}

/// The syntax of the information of the notification that is named, where it is known and has one.
fn notification_syntax<'a>(records: &'a NoteRecs, id: &IdRef) -> Option<&'a Syntax>
    ensures { option_copied result ≡ notification_syntax records.now id.now }
{
    match id {
        IdRef::Global(id) => information(find_notification(records.items.as_slice(), id)),
        IdRef::Local(_) => None,
    }
}

/// The notification with its information, where that came.
fn event_with(
    alloc: Global,
    records: &NoteRecs,
    id: IdRef,
    value: Option<&Tree>,
) -> Result<(IdRef, Option<Given>), AllocError>
    ensures { IfOk result (λ event. event ≡ event_with records.now id (option_copied value.entry)) }
{
    let info = given_any(alloc, notification_syntax(records, &id), &id, value)?;
    Ok((id, info))
}

fn event_of(
    alloc: Global,
    records: &NoteRecs,
    kind: &Tree,
    info: Option<&Tree>,
) -> Result<Option<(IdRef, Option<Given>)>, AllocError>
    ensures { IfOk result (λ event. event ≡ event_of records.now kind.now (option_copied info.entry)) }
{
    match held_under(8, info) {
        None => Ok(None),
        Some(info) => match read_id(alloc, 6, 7, kind)? {
            None => Ok(None),
            Some(kind) => Ok(Some(event_with(alloc, records, kind, info)?)),
        },
    }
}

/// The report of this event on this object.
fn report_with(
    alloc: Global,
    confirmed: bool,
    object: (IdRef, Instance),
    event: (IdRef, Option<Given>),
    time: Option<&Tree>,
) -> Result<Option<Request>, AllocError>
    ensures { IfOk result (λ request. request
        ≡ report_with confirmed object event (option_copied time.entry)) }
{
    match time_of(alloc, time)? {
        None => Ok(None),
        Some(time) => {
            let (class, at) = object;
            let (kind, info) = event;
            Ok(Some(Request::Report {
                class,
                at,
                kind,
                time,
                info,
                confirmed,
            }))
        }
    }
}

fn report_of(
    alloc: Global,
    set: &Set,
    confirmed: bool,
    class: &Tree,
    base: &Tree,
    trees: Reported<'_>,
) -> Result<Option<Request>, AllocError>
    ensures { IfOk result (λ request. request ≡ report_of set.now confirmed class.now base.now (record {
      time = option_copied trees.entry.time;
      kind = trees.entry.kind.now;
      info = option_copied trees.entry.info;
    })) }
{
    match event_of(alloc, &set.notifications, trees.kind, trees.info)? {
        None => Ok(None),
        Some(event) => match read_object(alloc, set, class, base)? {
            None => Ok(None),
            Some(object) => report_with(alloc, confirmed, object, event, trees.time),
        },
    }
}

fn report_behind_object(
    alloc: Global,
    set: &Set,
    confirmed: bool,
    class: &Tree,
    base: &Tree,
    rest: &[Tree],
) -> Result<Option<Request>, AllocError>
    ensures { IfOk result (λ request. request
        ≡ option_and_then (report_of set.now confirmed class.now base.now) (report_trees (listed rest.now))) }
{
    match report_parts(rest) {
        None => Ok(None),
        Some(trees) => report_of(alloc, set, confirmed, class, base, trees),
    }
}

/// The request that the components of an m-EventReport give.
pub fn read_report(
    alloc: Global,
    set: &Set,
    confirmed: bool,
    trees: &[Tree],
) -> Result<Option<Request>, AllocError>
    ensures { IfOk result (λ request. request ≡ report_in set.now confirmed (listed trees.now)) }
{
    match trees.split_first() {
        None => Ok(None),
        Some((class, behind)) => match behind.split_first() {
            None => Ok(None),
            Some((base, rest)) => report_behind_object(alloc, set, confirmed, class, base, rest),
        },
    }
}
