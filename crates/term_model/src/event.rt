//! Event reports, and records that wait for their log: X.734 and X.735.

use crate::name::Name;
use std::marker::Model;
use term_values::{Bytes, Oid};

/// An event report: X.711, section 7.4, the argument of m-EventReport.
#[derive(Drop)]
pub struct Event {
    /// The class of the object.
    pub class: Oid,
    /// The name of the object.
    pub name: Name,
    /// The notification.
    pub kind: Oid,
    /// When it happened, as GeneralizedTime.
    pub time: Bytes,
    /// The written encoding of its information, where it has some.
    pub info: Option<Bytes>,
}

/// Event reports in the order in which they come.
#[derive(Drop)]
pub struct Events {
    /// The events.
    pub items: Vec<Event>,
}

impl Model for Events {
    ghost use Rattle.std.specs.Prelude.{List};
    ghost use Rattle.term_model.specs.declared.event.Event.{Event};

    ghost Value = { List Event };

    ghost view = { λ list. list.items.items };
}

/// An event that waits to be appended to a log.
#[derive(Drop)]
pub struct WaitingRecord {
    /// Its number; each waiting record has a greater one than those that came before it.
    pub number: u64,
    /// The name of the log.
    pub log: Name,
    /// The event.
    pub event: Event,
}

/// Waiting records, the oldest one first.
#[derive(Drop)]
pub struct WaitingRecords {
    /// The records.
    pub items: Vec<WaitingRecord>,
}

impl Model for WaitingRecords {
    ghost use Rattle.std.specs.Prelude.{List};
    ghost use Rattle.term_model.specs.declared.event.WaitingRecord.{WaitingRecord};

    ghost Value = { List WaitingRecord };

    ghost view = { λ list. list.items.items };
}
