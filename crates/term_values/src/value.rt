//! Typed values: X.680.

ghost use Rattle.std.specs.Prelude.{◌≡◌};
ghost use Rattle.term_values.specs.Typed.TypedValue.{Int};

use crate::bytes::Bytes;
use crate::oid::Oid;
use std::boxed::Box;
use std::marker::Model;

/// A value of a syntax.
#[cycle(value)]
#[derive(Drop)]
pub struct Value {
    pub form: ValueForm,
}

/// The forms of values.
#[cycle(value)]
#[derive(Drop)]
pub enum ValueForm {
    /// BOOLEAN.
    Bool(bool),
    /// INTEGER and ENUMERATED.
    Int(i64),
    /// BIT STRING: its octets, and how many bits of the last octet, 0 to 7, are unused. Where the value fits its syntax
    /// the unused bits are 0, and where there are no octets none are unused.
    Bits(Bytes, u8),
    /// OCTET STRING.
    Octets(Bytes),
    /// NULL.
    Null,
    /// OBJECT IDENTIFIER.
    Oid(Oid),
    /// A value of a string type, as its octets.
    Text(Bytes),
    /// GeneralizedTime, as it was spelled.
    Time(Bytes),
    /// SEQUENCE and SET: the components in the order of the type.
    Parts(Slots),
    /// SEQUENCE OF: the members in their order. SET OF: the members by rising encoding.
    Many(Values),
    /// CHOICE: the alternative, counted from 0, and its value.
    Pick(u32, Box<Value>),
    /// ANY and CMISFilter: the octets of one value, undecoded.
    Raw(Bytes),
}

/// One component of a SEQUENCE or a SET.
#[cycle(value)]
#[derive(Drop)]
pub enum Slot {
    /// An OPTIONAL component that was left out.
    Absent,
    /// The value of a component; of one with a DEFAULT that was left out the default.
    Present(Value),
}

/// The components of a SEQUENCE or a SET, one for each of the type's and in its order.
#[cycle(value)]
#[derive(Drop)]
pub struct Slots {
    pub items: Vec<Slot>,
}

/// The members of a SEQUENCE OF or a SET OF.
#[cycle(value)]
#[derive(Drop)]
pub struct Values {
    pub items: Vec<Value>,
}

impl Model for Value {
    ghost use Rattle.term_values.specs.Typed.{TypedValue, value_code};

    ghost Value = { TypedValue };

    ghost coded = { value_code };

    ghost use Rattle.term_values.specs.ValueView.{value_of};
    ghost use Rattle.term_values.specs.ValueSize.{nodes};

    ghost view = { λ value. value_of value.form };

    ghost size = { nodes };

    ghost use Rattle.term_values.specs.ValueDepth.{depth_below_nodes};

    ghost size_decreases = { λ value h. depth_below_nodes value.form };
}

impl Model for Slots {
    ghost use Rattle.term_values.specs.Typed.{TypedSlots, slots_code};

    ghost Value = { TypedSlots };

    ghost coded = { slots_code };

    ghost use Rattle.term_values.specs.SlotsView.{slots_listed};
    ghost use Rattle.term_values.specs.ValueSize.{nodes_slots};

    ghost view = { λ slots. slots_listed slots.items.items };

    ghost size = { nodes_slots };

    ghost use Rattle.std.proofs.Common.{arith};
    ghost use Rattle.term_values.specs.SlotsDepth.{most_below_slots};

    ghost size_decreases = { λ slots h. Prim.omega (arith, most_below_slots slots.items.items) };
}

impl Model for Values {
    ghost use Rattle.term_values.specs.Typed.{TypedValues, values_code, listed};
    ghost use Rattle.term_values.specs.ValueSize.{nodes_values};
    ghost use Rattle.std.proofs.Common.{arith};
    ghost use Rattle.term_values.specs.ValuesDepth.{most_below_values};

    ghost Value = { TypedValues };

    ghost coded = { values_code };

    ghost view = { λ values. listed values.items.items };

    ghost size = { nodes_values };

    ghost size_decreases = { λ values h. Prim.omega (arith, most_below_values values.items.items) };
}

impl Value {
    /// A whole number.
    pub fn integer(number: i64) -> Value
        ensures { result ≡ Int number }
    {
        Value {
            form: ValueForm::Int(number),
        }
    }
}
