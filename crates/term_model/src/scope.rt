//! Scopes of operations, and names in their order: X.711, section 7.5, type Scope.

use crate::name::Name;
use std::marker::Model;

/// baseObject: the base object alone.
pub const BASE_OBJECT: i64 = 0;

/// firstLevelOnly: the objects one level below the base object.
pub const FIRST_LEVEL_ONLY: i64 = 1;

/// wholeSubtree: the base object and all objects below it.
pub const WHOLE_SUBTREE: i64 = 2;

/// How far below its base object a request reaches.
#[derive(Clone, Copy, Debug, PartialEq, Eq, Drop)]
pub enum Scope {
    /// baseObject, firstLevelOnly or wholeSubtree, by its number; with any other number no object.
    Plain(i64),
    /// individualLevels: the objects so many levels below the base object.
    Level(i64),
    /// baseToNthLevel: the base object and those at most so many levels below it.
    Upto(i64),
}

/// Names of objects in their order.
#[derive(Drop)]
pub struct Names {
    /// The names.
    pub items: Vec<Name>,
}

impl Model for Names {
    ghost use Rattle.std.specs.Prelude.{List};
    ghost use Rattle.term_model.specs.declared.name.Rdn.{Rdn};

    ghost Value = { List (List Rdn) };

    ghost view = { λ names. names.items.items };
}
