//! Items of filters: X.711, section 7.5, type FilterItem.

use crate::request::IdRef;
use std::marker::Model;
use term_values::{Bytes, Value};

/// The kind of a piece that begins the attribute's value: initialString.
pub const INITIAL_PIECE: u8 = 0;

/// The kind of a piece that stands anywhere in it: anyString.
pub const ANY_PIECE: u8 = 1;

/// The kind of a piece that ends it: finalString.
pub const FINAL_PIECE: u8 = 2;

/// An attribute value assertion: an identifier with its raw and its decoded value.
#[derive(Drop)]
pub struct Given {
    /// The identifier.
    pub id: IdRef,
    /// The value; none where what is identified is unknown, or the octets are no value of its syntax.
    pub value: Option<Value>,
    /// The octets of the value, as they are given back: with the shortest definite lengths.
    pub raw: Bytes,
}

/// A piece of a value of an attribute.
#[derive(Drop)]
pub struct Piece {
    /// 0 an initial piece, 1 any other one, 2 a final one.
    pub kind: u8,
    /// The piece.
    pub given: Given,
}

/// Pieces in their order.
#[derive(Drop)]
pub struct Pieces {
    /// The pieces.
    pub items: Vec<Piece>,
}

impl Model for Pieces {
    ghost use Rattle.std.specs.Prelude.{List};
    ghost use Rattle.std.specs.Coded.{codes};
    ghost use Rattle.term_values.specs.Typed.{value_code};
    ghost use Rattle.term_model.specs.declared.filter_item.Piece.{Piece};

    ghost Value = { List Piece };

    ghost coded = { Prim.hlevel (codes, value_code) };

    ghost view = { λ pieces. pieces.items.items };
}

/// What a filter asks of one attribute.
#[derive(Drop)]
pub enum Item {
    /// equality: the asserted value is the attribute's.
    Equality(Given),
    /// substrings: the pieces stand in the attribute's value, in their order and without overlap. The value beside them
    /// is always theirs, a `Many` with a `Pick` of its kind for each; none where the value of one of them is none.
    Substrings(Pieces, Option<Value>),
    /// greaterOrEqual: the asserted value is greater than the attribute's, or equal to it.
    GreaterOrEqual(Given),
    /// lessOrEqual: the asserted value is less than the attribute's, or equal to it.
    LessOrEqual(Given),
    /// present: the attribute is there.
    Present(IdRef),
    /// subsetOf: the asserted set is within the attribute's.
    SubsetOf(Given),
    /// supersetOf: the attribute's set is within the asserted one.
    SupersetOf(Given),
    /// nonNullSetIntersection: the asserted set and the attribute's have a common member.
    Meets(Given),
}
