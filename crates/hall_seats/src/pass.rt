//! Passes.

ghost use Rattle.std.specs.Prelude.{◌≡◌, length};

use crate::naming::Naming;
use crate::rule::Place;
use std::marker::Model;
use std::sync::ledger::Share;

/// Proof that its holder has seen a prefix of the journal, with rights to extend it.
///
/// Contracts see the journal that it has seen, its rights, its parts of the ledger of admissions, of which it has at
/// least one, and the number of admissions that these parts count. The roll makes, splits and joins passes.
#[derive(Drop)]
pub struct Pass<J: Naming> {
    pub(crate) seen: u64,
    pub(crate) seat: Place,
    pub(crate) share: Share<J>,
}

impl<J: Naming> Model for Pass<J> {
    ghost use Rattle.std.specs.Prelude.{◌≡◌, ◌<◌, [], length};
    ghost use Rattle.hall_seats.specs.Passes.{Known};
    ghost use Rattle.hall_seats.specs.Views.{known};

    ghost Value = { Known };

    ghost view = { λ p. known p.seat.me.0 p.share.parts p.share.amount };

    ghost invariant = { λ p. (p.seat.table_id ≡ J.table) × (p.seat.me.1 ≡ []) × (p.seen ≡ length p.seat.me.0.list)
        × (0 < p.share.parts) };
}

impl<J: Naming> Pass<J> {
    /// How many entries of the journal it has seen.
    pub fn seen(&self) -> u64
        ensures length { result ≡ length self.now.list }
    {
        self.seen
    }
}
