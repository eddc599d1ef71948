//! The table of operations with their paths, and what they hold of them: docs/PROFILE.md, section 20.

ghost use Rattle.std.specs.Prelude.{◌≡◌, ℕ, [], IsSome, OnErr, OnOk, Some};
ghost use Rattle.std.specs.BTreeMap.{insert_entry, is_at};
ghost use Rattle.std.specs.Map.{remove_entry, set_value};
ghost use Rattle.std.specs.Option.{option_copied};
ghost use Rattle.std.specs.Ordering.{nat_cmp};
ghost use Rattle.subtree_locks.specs.declared.lock_table.Row.{Row};
ghost use Rattle.subtree_locks.specs.LockRows.{CanEndAt, IsChanged, IsTable, entered_row, row_of};
ghost use Rattle.subtree_locks.specs.Grants.{IsAnswer, left_by};

use crate::grant::Grant;
use crate::looking::look;
use lock_model::Path;
use std::alloc::{AllocError, Global};
use std::collections::BTreeMap;
use std::marker::Model;

/// An operation in the table.
#[derive(Drop)]
pub struct Row {
    /// The path that was entered, from the root's subtree to the unit.
    pub path: Path,
    /// The place at which the path ends by now, where that is told: the mode there is that of the last place that was
    /// entered. Without one the path is the one that was entered.
    pub end: Option<u64>,
    /// How many places it holds, from the first one on.
    pub held: u64,
}

/// The lock table. Contracts see the operations in it by rising number, each with its row.
#[derive(Drop)]
pub struct LockTable {
    rows: BTreeMap<u64, Row>,
}

impl Model for LockTable {
    ghost use Rattle.std.specs.Prelude.{ℕ, List};
    ghost use Rattle.subtree_locks.specs.declared.lock_table.Row.{Row};
    ghost use Rattle.subtree_locks.specs.LockRows.{IsTable};

    ghost Value = { List (ℕ × Row) };

    ghost view = { λ table. table.rows.entries };

    ghost invariant = { λ table. IsTable table.rows.entries };
}

impl LockTable {
    /// A table without operations.
    pub fn new(alloc: Global) -> LockTable
        ensures { result ≡ [] }
    {
        LockTable {
            rows: BTreeMap::new(alloc),
        }
    }

    /// Puts an operation into the table, which then holds nothing. One that is there and holds nothing gets the new
    /// path in place of its own. Want of memory leaves the table as it was.
    pub fn enter(&mut self, op: u64, path: Path) -> Result<(), AllocError>
        requires { (row : Row) → row_of self.old op ≡ Some row → row.held ≡ 0 }
        ensures entered { OnOk result (self.new ≡ insert_entry nat_cmp self.old op (entered_row path)) }
        ensures err { OnErr result (self.new ≡ self.old) }
        ensures table { IsTable self.new }
    {
        let _way = path.places();
        let row = Row {
            path,
            end: None,
            held: 0,
        };
        self.rows.insert(op, row)?;
        Ok(())
    }

    /// Grants an operation that is in the table the next lock of its path, unless another one holds on the same lock
    /// name a mode that doesn't go with the wanted one. It takes no memory.
    pub fn next_grant(&mut self, op: u64) -> Grant
        requires { IsSome (row_of self.old op) }
        ensures answer { (row : Row) → row_of self.old op ≡ Some row → IsAnswer self.old op row result }
        ensures left { (row : Row) → row_of self.old op ≡ Some row → self.new ≡ left_by self.old op row result }
        ensures table { IsTable self.new }
    {
        let grant = look(&self.rows, op);
        if let Grant::Held(place) = grant {
            hold(&mut self.rows, op, place + 1);
        }
        grant
    }

    /// Takes an operation out of the table, with all that it holds: nothing changes where it isn't there. It takes no
    /// memory.
    pub fn leave(&mut self, op: u64)
        ensures left { self.new ≡ remove_entry (is_at (nat_cmp op)) self.old }
        ensures table { IsTable self.new }
    {
        self.rows.remove(&op);
    }

    /// Says where the path of an operation ends from now on: at a place of the path that was entered, with the mode of
    /// that path's last place, or with None where it ended as it was entered. The operation is in the table, hasn't its
    /// whole path, and holds neither that place nor one behind it. It takes no memory.
    pub fn end_at(&mut self, op: u64, at: Option<u64>)
        requires there { IsSome (row_of self.old op) }
        requires waits { (row : Row) → row_of self.old op ≡ Some row → CanEndAt row at }
        ensures left { (row : Row) → row_of self.old op ≡ Some row
            → self.new ≡ set_value (is_at (nat_cmp op)) self.old (record row { end = at }) }
        ensures table { IsTable self.new }
    {
        end_row(&mut self.rows, op, at);
    }

    /// The row of an operation: none exactly where it isn't in the table.
    pub fn row(&self, op: u64) -> Option<&Row>
        ensures row { option_copied result ≡ row_of self.now op }
        ensures table { IsTable self.now }
    {
        self.rows.get(&op)
    }
}

/// Lets an operation hold so many places.
fn hold(rows: &mut BTreeMap<u64, Row>, op: u64, held: u64)
    ensures { (row : Row) → row_of rows.old.entries op ≡ Some row
        → IsChanged rows.old.entries op (record row { held = held }) rows.new.entries }
{
    if let Some(row) = rows.get_mut(&op) {
        row.held = held;
    }
}

/// Lets the path of an operation end at a place, or as it was entered.
fn end_row(rows: &mut BTreeMap<u64, Row>, op: u64, end: Option<u64>)
    ensures { (row : Row) → row_of rows.old.entries op ≡ Some row
        → IsChanged rows.old.entries op (record row { end = end }) rows.new.entries }
{
    if let Some(row) = rows.get_mut(&op) {
        row.end = end;
    }
}
