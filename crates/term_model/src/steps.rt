//! The count of visits of nodes of the map of objects. Contracts see it as a number; with the ledger [`Tally`] it takes
//! no bytes, and counting does nothing at run time.

ghost use Rattle.std.specs.Prelude.{◌≡◌, ◌+◌, ◌<◌, ℕ};

use std::marker::Model;
use std::sync::ledger::{Blank, Book, Ledger, Share};

/// What visits are entered into. Code that is generic over it can't make one, and so counts on the one that it was
/// lent.
pub trait StepLedger {
    ghost visits: { Self → ℕ };

    /// Enters one visit.
    fn enter(&mut self)
        ensures { visits self.new ≡ visits self.old + 1 };
}

/// A ledger of visits that takes no bytes: the tokens of a ledger of the library, which the type `N` names.
#[derive(Drop)]
pub struct Tally<N: Ledger> {
    book: Book<N>,
    share: Share<N>,
}

impl<N: Ledger> Model for Tally<N> {
    ghost use Rattle.std.specs.Prelude.{ℕ, ◌<◌};

    ghost Value = { ℕ };

    ghost view = { λ tally. tally.book.total };

    ghost invariant = { λ tally. 0 < tally.share.parts };
}

impl<N: Ledger> Tally<N> {
    /// A tally without visits, of a ledger of at least one part that nothing stands for but the type `N`.
    pub fn open(blank: Blank) -> Tally<N>
        requires name { blank.name ≡ N.name }
        requires parts { blank.parts ≡ N.parts }
        requires some { 0 < blank.parts }
        ensures { result ≡ 0 }
    {
        let (book, share) = blank.open();
        Tally { book, share }
    }
}

impl<N: Ledger> StepLedger for Tally<N> {
    ghost visits = { λ tally. tally };

    fn enter(&mut self) {
        self.book.add(&mut self.share, 1);
    }
}

/// Counts visits of tree nodes; no bytes at run time. It can't be copied.
#[derive(Drop)]
pub struct Steps<L: StepLedger> {
    ledger: L,
}

impl<L: StepLedger> Model for Steps<L> {
    ghost use Rattle.std.specs.Prelude.{ℕ};

    ghost Value = { ℕ };

    ghost view = { λ steps. L.visits steps.ledger };
}

impl<L: StepLedger> Steps<L> {
    /// A counter that goes on from what the ledger has. There is no other way to one.
    pub fn start(ledger: L) -> Steps<L>
        ensures { result ≡ L.visits ledger }
    {
        Steps { ledger }
    }

    /// Counts one visit of a node. Whoever looks a name up in a map calls it for each probe.
    pub fn visit(&mut self)
        ensures { self.new ≡ self.old + 1 }
    {
        self.ledger.enter();
    }
}
