//! The roll: the seat whose list is the journal, with the table and the book of admissions.

ghost use Rattle.std.specs.Prelude.{◌≡◌, ◌+◌, ◌<◌, ◌^◌, true, [], ◌∷◌, ◌++◌, length};
ghost use Rattle.hall_seats.specs.declared.right.Right.{Right};
ghost use Rattle.hall_seats.specs.Rights.{Distinct, Has, Holds, admissions, admitted, arriving, association, given};
ghost use Rattle.hall_seats.specs.Rights.{is_opened, own, taking};
ghost use Rattle.hall_seats.specs.Passes.{Grew, MayAdd, Sees};
ghost use Rattle.hall_seats.specs.Views.{IsJournal, cut_off, marked_with, taken_in, with_entry, with_rights};
ghost use Rattle.hall_seats.specs.Rule.{IsTold};

use crate::naming::Naming;
use crate::pass::Pass;
use crate::rule::{Count, Halved, Look, Place, Slate, Spare, TakenIn, Whole};
use agent_model::Entry;
use std::marker::Model;
use std::mem;
use std::sync::ledger::{Book, Share};

/// The owner of the journal's length. Contracts see the journal.
///
/// It stands beside the journal itself, and each entry that is added to the journal is told to it. It has no right
/// between two calls.
#[derive(Drop)]
pub struct Roll<J: Naming> {
    table: Slate,
    seat: Place,
    book: Book<J>,
}

impl<J: Naming> Model for Roll<J> {
    ghost use Rattle.std.specs.Prelude.{◌≡◌, ◌<◌, List, []};
    ghost use Rattle.agent_model.specs.declared.entry.Entry.{Entry};
    ghost use Rattle.hall_seats.specs.Rights.{admissions};
    ghost use Rattle.hall_seats.specs.Views.{IsJournal};

    ghost Value = { List Entry };

    ghost view = { λ r. r.seat.me.0.list };

    ghost invariant = { λ r. (r.table.shared.table_id ≡ J.table) × (0 < J.table.words) × (r.seat.table_id ≡ J.table)
        × IsJournal r.seat.me.0 × (r.seat.me.0.rights ≡ []) × (r.book.total ≡ admissions r.seat.me.0.list) };
}

impl<J: Naming> Roll<J> {
    // The roll of a table whose one seat is this one, and a pass with all parts.
    pub(crate) fn first(
        table: Slate,
        mut seat: Place,
        book: Book<J>,
        share: Share<J>,
    ) -> (Roll<J>, Pass<J>)
        requires table { (table.shared.table_id ≡ J.table) × (0 < J.table.words) × (seat.table_id ≡ J.table) }
        requires seat { seat.me ≡ (marked_with [], []) }
        requires ledger { (book.total ≡ 0) × (share.parts ≡ J.parts) × (share.amount ≡ 0) × (0 < J.parts) }

        ensures roll { result.0 ≡ [] }
        ensures pass { result.1 ≡ record { list = []; rights = []; parts = J.parts; admissions = 0 } }
    {
        let free = release(&table, &mut seat);
        let roll = Roll { table, seat, book };
        let pass = Pass {
            seen: 0,
            seat: free,
            share,
        };
        (roll, pass)
    }

    /// Counts an entry that is added to the journal by the holder of the pass. Each call counts one entry.
    ///
    /// The pass has then seen the journal with the entry, and has the rights that the entry brings: both of an
    /// association that it opens, with one admission more.
    pub fn count(&mut self, pass: &mut Pass<J>, entry: &Entry)
        requires may { MayAdd pass.old.rights self.old entry.now }
        requires room { length self.old + 1 < 2 ^ 64 }

        // the journal is one entry longer, and the pass has seen it
        ensures counted { self.new ≡ self.old ++ entry.now ∷ [] }
        ensures shown { pass.new.list ≡ self.new }
        ensures grew { Grew pass.old pass.new (entry.now ∷ []) }

        // what the pass had seen began the journal, with all entries of its rights
        ensures sees { Sees self.old pass.old.list pass.old.rights }

        // of an association that the entry opens there was no entry, and each right stands once
        ensures fresh { (r : Right) → Holds (given entry.now) r → own r pass.new.list ≡ [] }
        ensures once { Distinct pass.new.rights }
    {
        let found = gather(&self.table, &mut self.seat, &mut pass.seat);
        add(&self.table, &mut self.seat, entry, found);
        self.book.add(&mut pass.share, admissions_of(entry));
        pass.seen = found + 1;
        pass.seat = release(&self.table, &mut self.seat);
    }

    /// Shows the journal to the pass.
    pub fn look(&mut self, pass: &mut Pass<J>)
        // the journal is as before, and the pass has seen it
        ensures same { self.new ≡ self.old }
        ensures shown { pass.new.list ≡ self.new }
        ensures grew { Grew pass.old pass.new [] }

        // what the pass had seen began the journal, with all entries of its rights
        ensures sees { Sees self.old pass.old.list pass.old.rights }

        // each right stands once, of an association that the journal has opened
        ensures once { Distinct pass.new.rights }
        ensures opened { (r : Right) → Has pass.new.rights r → is_opened (association r) self.new ≡ true }

        // the pass with all parts counts all admissions
        ensures whole { pass.old.parts ≡ J.parts → pass.new.admissions ≡ admissions self.new }
    {
        let found = gather(&self.table, &mut self.seat, &mut pass.seat);
        self.book.audit(&mut pass.share);
        pass.seen = found;
        pass.seat = release(&self.table, &mut self.seat);
    }

    /// Splits a pass in two. The first one has the arriving rights, and the second one the taking rights, with `parts`
    /// of the parts.
    pub fn split(&mut self, pass: Pass<J>, parts: u64) -> (Pass<J>, Pass<J>)
        requires parts { (0 < parts) × (parts < pass.parts) }

        // the journal is as before, and both have seen it
        ensures same { self.new ≡ self.old }
        ensures shown { (result.0.list ≡ self.new) × (result.1.list ≡ self.new) }

        // the rights and the parts are divided between them, and they count what the pass counted
        ensures rights { (result.0.rights ≡ arriving pass.rights) × (result.1.rights ≡ taking pass.rights) }
        ensures parts { (result.0.parts + parts ≡ pass.parts) × (result.1.parts ≡ parts) }
        ensures admissions { result.0.admissions + result.1.admissions ≡ pass.admissions }

        // what the pass had seen began the journal, with all entries of its rights
        ensures sees { Sees self.old pass.list pass.rights }
    {
        let Pass {
            seen: _,
            seat,
            mut share,
        } = pass;
        let seen = take_in(&self.table, &mut self.seat, seat);
        let takes = halve(&self.table, &mut self.seat);
        let arrives = release(&self.table, &mut self.seat);
        let other = share.split_off(parts, 0);
        let first = Pass {
            seen,
            seat: arrives,
            share,
        };
        let second = Pass {
            seen,
            seat: takes,
            share: other,
        };
        (first, second)
    }

    /// Joins two passes: the one that comes of them has the rights, the parts and the admissions of both.
    pub fn join(&mut self, first: Pass<J>, second: Pass<J>) -> Pass<J>
        // the journal is as before, and the pass has seen it
        ensures same { self.new ≡ self.old }
        ensures shown { result.list ≡ self.new }

        // it has what both had, and each right stands once
        ensures rights { result.rights ≡ first.rights ++ second.rights }
        ensures parts { result.parts ≡ first.parts + second.parts }
        ensures admissions { result.admissions ≡ first.admissions + second.admissions }
        ensures once { Distinct result.rights }

        // what either had seen began the journal, with all entries of its rights
        ensures first { Sees self.old first.list first.rights }
        ensures second { Sees self.old second.list second.rights }
    {
        let Pass {
            seen: _,
            seat: one,
            mut share,
        } = first;
        let Pass {
            seen: _,
            seat: other,
            share: more,
        } = second;
        take_in(&self.table, &mut self.seat, one);
        let seen = take_in(&self.table, &mut self.seat, other);
        share.merge(more);
        let seat = release(&self.table, &mut self.seat);
        Pass { seen, seat, share }
    }
}

// How many associations an entry opens.
fn admissions_of(entry: &Entry) -> u64
    ensures { result ≡ admitted entry.now }
{
    match entry {
        Entry::Opened(_, _) => 1,
        _ => 0,
    }
}

// The seat with the journal takes in another one and looks at the word, which is the journal's length.
fn take_in(table: &Slate, seat: &mut Place, other: Place) -> u64
    requires table { (seat.old.table_id ≡ table.now.shared.table_id) × (0 < table.now.shared.table_id.words) }
    requires other { (other.table_id ≡ table.now.shared.table_id) × (other.me.1 ≡ []) }
    requires journal { IsJournal seat.old.me.0 }

    ensures table { seat.new.table_id ≡ seat.old.table_id }
    ensures view { seat.new.me.0 ≡ taken_in seat.old.me.0 other.me.0 }
    ensures told { IsTold (taken_in seat.old.me.0 other.me.0) result }
{
    table.shared.join_seat::<TakenIn>(seat, other);
    table.shared.load::<Look>(seat, 0)
}

// The same with a seat that is lent, which has no right from then on.
fn gather(table: &Slate, seat: &mut Place, held: &mut Place) -> u64
    requires table { (seat.old.table_id ≡ table.now.shared.table_id) × (0 < table.now.shared.table_id.words) }
    requires held { (held.old.table_id ≡ table.now.shared.table_id) × (held.old.me.1 ≡ []) }
    requires journal { IsJournal seat.old.me.0 }

    ensures table { seat.new.table_id ≡ seat.old.table_id }
    ensures view { seat.new.me.0 ≡ taken_in seat.old.me.0 held.old.me.0 }
    ensures told { IsTold (taken_in seat.old.me.0 held.old.me.0) result }
{
    let spare = table.shared.split_seat::<Spare>(seat);
    let other = mem::replace(held, spare);
    take_in(table, seat, other)
}

// Adds an entry to the list of the seat with the journal.
fn add(table: &Slate, seat: &mut Place, entry: &Entry, found: u64)
    requires table { (seat.old.table_id ≡ table.now.shared.table_id) × (0 < table.now.shared.table_id.words) }
    requires journal { IsJournal seat.old.me.0 }
    requires may { MayAdd seat.old.me.0.rights seat.old.me.0.list entry.now }
    requires found { (found ≡ length seat.old.me.0.list) × (found + 1 < 2 ^ 64) }

    ensures table { seat.new.table_id ≡ seat.old.table_id }
    ensures view { seat.new.me.0 ≡ with_entry seat.old.me.0 entry.now }
{
    table
        .shared
        .compare_exchange_with::<Count>(seat, 0, found, found + 1, entry);
}

// A further seat with all rights of the seat.
fn release(table: &Slate, seat: &mut Place) -> Place
    requires table { (seat.old.table_id ≡ table.now.shared.table_id) × (0 < table.now.shared.table_id.words) }

    ensures table { (seat.new.table_id ≡ seat.old.table_id) × (result.table_id ≡ seat.old.table_id) }
    ensures view { seat.new.me.0 ≡ with_rights seat.old.me.0 [] }
    ensures free { result.me ≡ (cut_off seat.old.me.0 seat.old.me.0.rights, []) }
{
    table.shared.split_seat::<Whole>(seat)
}

// A further seat with the taking rights of the seat.
fn halve(table: &Slate, seat: &mut Place) -> Place
    requires table { (seat.old.table_id ≡ table.now.shared.table_id) × (0 < table.now.shared.table_id.words) }

    ensures table { (seat.new.table_id ≡ seat.old.table_id) × (result.table_id ≡ seat.old.table_id) }
    ensures view { seat.new.me.0 ≡ with_rights seat.old.me.0 (arriving seat.old.me.0.rights) }
    ensures free { result.me ≡ (cut_off seat.old.me.0 (taking seat.old.me.0.rights), []) }
{
    table.shared.split_seat::<Halved>(seat)
}
