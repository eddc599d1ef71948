//! The titles of the associations to which reports may go: X.734, the destination of a discriminator.

use std::marker::Model;
use term_values::Oid;

/// Associations with the titles of their managers: those that were admitted and are neither finished nor closed, by
/// rising number, each once.
#[derive(Drop)]
pub struct Titles {
    /// Each association's number with the title.
    pub items: Vec<(u64, Oid)>,
}

impl Model for Titles {
    ghost use Rattle.std.specs.Prelude.{List, ℕ};

    ghost Value = { List (ℕ × List ℕ) };

    ghost view = { λ titles. titles.items.items };
}
