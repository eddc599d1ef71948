//! Entries of the journal.

use std::marker::Model;
use term_model::Name;
use term_values::Bytes;

/// Why an association was closed.
#[derive(Clone, Copy, Debug, PartialEq, Eq)]
pub enum Why {
    /// Its input ended between frames, and all was answered and taken.
    End,
    /// A frame that begins at this byte of the input has a length out of bounds or no end.
    BadFrame(u64),
    /// Its input failed.
    ReadFault,
    /// Its output failed.
    WriteFault,
    /// The journal had no room.
    JournalFull,
    /// There was no memory.
    Memory,
}

/// One step of the agent. Associations and operations are numbered from 1.
#[derive(Drop)]
pub enum Entry {
    /// This association was asked for by this BIND.
    Opened(u64, Bytes),
    /// Of this association this APDU arrived.
    Arrived(u64, Bytes),
    /// An operation begins that appends a waiting record to the log with this name.
    Begun(u64, Name),
    /// This operation has all its locks, at this time in seconds since 1970.
    Granted(u64, u64),
    /// This operation was performed.
    Committed(u64),
    /// This operation ended for want of memory.
    Starved(u64),
    /// Of those placed for this association so many bytes were taken to be sent.
    Taken(u64, u64),
    /// No more comes from this association.
    Finished(u64),
    /// This association was closed, for this cause.
    Closed(u64, Why),
}

/// Entries in their order.
#[derive(Drop)]
pub struct Entries {
    /// The first one stands at the place 0.
    pub items: Vec<Entry>,
}

impl Model for Entries {
    ghost use Rattle.std.specs.Prelude.{List};
    ghost use Rattle.agent_model.specs.declared.entry.Entry.{Entry};

    ghost Value = { List Entry };

    ghost view = { λ entries. entries.items.items };
}
