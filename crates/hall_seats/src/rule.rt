//! The rule of the table whose word counts the journal, and the steps that keep it.

use crate::right::Right;
use agent_model::Entry;
use atomic_table::{Join, Play, Seat, Split, Table, TableRule};
use std::alloc::Global;
use std::collections::LinkedList;

/// What a seat knows. No value of it is made.
pub struct View {
    /// Whether its list is the journal.
    pub marked: bool,
    /// The journal that it has seen.
    pub list: LinkedList<Entry>,
    /// Its rights.
    pub rights: LinkedList<Right>,
    /// What it had seen when it last took in another seat's view.
    pub at: LinkedList<Entry>,
    /// What that other seat had seen.
    pub old: LinkedList<Entry>,
    /// The rights of that other seat.
    pub olds: LinkedList<Right>,
}

/// The rule.
pub struct Law;

impl TableRule<Entry, View, ()> for Law {
    ghost use Rattle.std.specs.Prelude.{[]};
    ghost use Rattle.hall_seats.specs.Views.{marked_with};
    ghost use Rattle.hall_seats.specs.Rule.{Kept};

    ghost holds = { λ _ s. Kept s.words s.views };

    ghost first = { λ _. marked_with [] };
}

/// The table: one word and no slots.
pub type Slate = Table<Entry, View, (), Law, Global>;

/// A seat of the table.
pub type Place = Seat<Entry, View>;

/// A look at the word.
pub struct Look;

impl Play<Entry, View> for Look {
    ghost use Rattle.hall_seats.specs.Rule.{Looks};

    ghost then = { Looks };
}

/// The step that adds an entry.
pub struct Count;

impl Play<Entry, View> for Count {
    ghost use Rattle.hall_seats.specs.Rule.{Counts};

    ghost then = { Counts };
}

/// A further seat without rights.
pub struct Spare;

impl Split<View> for Spare {
    ghost use Rattle.std.specs.Prelude.{[]};
    ghost use Rattle.hall_seats.specs.Views.{cut_off, with_rights};

    ghost left = { λ v. with_rights v v.rights };

    ghost right = { λ v. cut_off v [] };
}

/// A further seat with all rights.
pub struct Whole;

impl Split<View> for Whole {
    ghost use Rattle.std.specs.Prelude.{[]};
    ghost use Rattle.hall_seats.specs.Views.{cut_off, with_rights};

    ghost left = { λ v. with_rights v [] };

    ghost right = { λ v. cut_off v v.rights };
}

/// A further seat with the taking rights.
pub struct Halved;

impl Split<View> for Halved {
    ghost use Rattle.hall_seats.specs.Rights.{arriving, taking};
    ghost use Rattle.hall_seats.specs.Views.{cut_off, with_rights};

    ghost left = { λ v. with_rights v (arriving v.rights) };

    ghost right = { λ v. cut_off v (taking v.rights) };
}

/// Another seat's view is taken in.
pub struct TakenIn;

impl Join<View> for TakenIn {
    ghost use Rattle.hall_seats.specs.Views.{spent, taken_in};

    ghost both = { taken_in };

    ghost spent = { spent };
}
