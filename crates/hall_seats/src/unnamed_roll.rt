//! A roll that no type stands for yet.

ghost use Rattle.std.specs.Prelude.{◌≡◌, ◌<◌, [], IfOk};

use crate::naming::Naming;
use crate::pass::Pass;
use crate::roll::Roll;
use crate::rule::{Place, Slate};
use std::alloc::{AllocError, Global};
use std::marker::Model;
use std::sync::ledger::Blank;

/// A table and a ledger for a journal without entries, which no type stands for yet. Contracts see which they are, and
/// into how many parts the ledger is cut.
#[derive(Drop)]
pub struct UnnamedRoll {
    table: Slate,
    seat: Place,
    blank: Blank,
}

impl Model for UnnamedRoll {
    ghost use Rattle.std.specs.Prelude.{◌≡◌, ◌<◌, []};
    ghost use Rattle.hall_seats.specs.Namings.{Identity};
    ghost use Rattle.hall_seats.specs.Views.{marked_with};

    ghost Value = { Identity };

    ghost view = { λ u. record { table = u.table.shared.table_id; name = u.blank.name; parts = u.blank.parts } };

    ghost invariant = { λ u. (u.seat.table_id ≡ u.table.shared.table_id) × (u.seat.me ≡ (marked_with [], []))
        × (0 < u.table.shared.table_id.words) × (0 < u.blank.parts) };
}

impl UnnamedRoll {
    /// A table, and a ledger of this many parts, at least 1.
    pub fn new(alloc: Global, parts: u64) -> Result<UnnamedRoll, AllocError>
        requires { 0 < parts }
        ensures { IfOk result (λ u. u.parts ≡ parts) }
    {
        let (table, seat) = Slate::of_words(alloc, &[0], &())?;
        Ok(UnnamedRoll {
            table,
            seat,
            blank: Blank::new(parts),
        })
    }

    /// The roll under a name, with the pass that has all parts and no right. The journal has no entry.
    pub fn named<J: Naming>(self) -> (Roll<J>, Pass<J>)
        requires table { self.table ≡ J.table }
        requires name { self.name ≡ J.name }
        requires parts { self.parts ≡ J.parts }

        ensures roll { result.0 ≡ [] }
        ensures pass { result.1 ≡ record { list = []; rights = []; parts = J.parts; admissions = 0 } }
    {
        let UnnamedRoll { table, seat, blank } = self;
        let (book, share) = blank.open::<J>();
        Roll::first(table, seat, book, share)
    }
}
