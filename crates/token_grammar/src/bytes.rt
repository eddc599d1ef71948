//! Octets that are kept: the text of a token.

ghost use Rattle.std.specs.Prelude.{◌≡◌, ◌==◌, ℕ, List, length, IfOk};
ghost use Rattle.std.specs.Cmp.Lexicographic.{pointwise};
ghost use Rattle.std.specs.Cmp.Rules.{comparing};
ghost use Rattle.std.proofs.Common.{rules};

use std::alloc::{AllocError, Global};
use std::fmt;
use std::marker::Model;

/// A sequence of octets. Contracts see it as the list of the octets' values.
#[derive(Drop)]
pub struct Bytes {
    items: Vec<u8>,
}

impl Model for Bytes {
    ghost use Rattle.std.specs.Prelude.{ℕ, List};

    ghost Value = { List ℕ };

    ghost view = { λ bytes. bytes.items.items };
}

impl Bytes {
    /// Wraps the octets of a vector.
    pub fn new(items: Vec<u8>) -> Self
        ensures { result ≡ items.items }
    {
        Bytes { items }
    }

    /// Copies octets; only memory can fail.
    pub fn from_slice(alloc: Global, items: &[u8]) -> Result<Self, AllocError>
        ensures { IfOk result (λ bytes. bytes ≡ items.now) }
    {
        Ok(Bytes {
            items: Vec::from_slice(alloc, items)?,
        })
    }

    /// The octets.
    pub fn as_slice(&self) -> &[u8]
        ensures { result.now ≡ self.now }
    {
        self.items.as_slice()
    }

    /// A copy with the same octets; only memory can fail.
    pub fn copy(&self, alloc: Global) -> Result<Self, AllocError>
        ensures { IfOk result (λ bytes. bytes ≡ self.now) }
    {
        Bytes::from_slice(alloc, self.as_slice())
    }
}

impl PartialEq for Bytes {
    ghost eq = { pointwise ◌==◌ };

    ghost laws = { Prim.search (comparing, rules) };

    fn eq(&self, other: &Self) -> bool {
        self.items == other.items
    }
}

impl Eq for Bytes {
    ghost laws = { Prim.search (comparing, rules) };
}

impl fmt::Debug for Bytes {
    fn fmt<W: fmt::Write>(&self, f: &mut fmt::Formatter<W>) -> fmt::Result {
        fmt::Debug::fmt(&self.items, f)
    }
}
