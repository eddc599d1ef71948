//! Syntaxes: the types of X.680 that attributes, actions and notifications have.

ghost use Rattle.std.specs.Prelude.{◌≡◌, [], ◌∷◌, ◌<◌, ◌^◌, ◌↔◌, IfSome, IsSome, length};
ghost use Rattle.term_values.specs.Syntaxes.TypeSyntax.{Integer};
ghost use Rattle.term_values.specs.PartsView.{parts_listed};

use crate::bytes::Bytes;
use crate::charset::Charset;
use crate::tag::Tag;
use crate::value::Value;
use std::alloc::Global;
use std::boxed::Box;
use std::marker::Model;

/// The type of a value.
#[cycle(syntax)]
#[derive(Drop)]
pub struct Syntax {
    pub form: SyntaxForm,
}

/// The forms of types.
#[cycle(syntax)]
#[derive(Drop)]
pub enum SyntaxForm {
    /// BOOLEAN.
    Bool,
    /// INTEGER, of at most 64 bits, with its named numbers and its ranges. Any number in the ranges is a value.
    Int(Names, Ranges),
    /// ENUMERATED. Only the named numbers are values.
    Enumerated(Names),
    /// BIT STRING with its named bits and its sizes in bits.
    Bits(Names, Ranges),
    /// OCTET STRING with its sizes in octets.
    Octets(Ranges),
    /// NULL.
    Null,
    /// OBJECT IDENTIFIER.
    Oid,
    /// A string type with its sizes in octets.
    Text(Charset, Ranges),
    /// GeneralizedTime.
    Time,
    /// SEQUENCE.
    Seq(Parts),
    /// SET.
    Unordered(Parts),
    /// SEQUENCE OF, with its sizes in members.
    ListOf(Box<Syntax>, Ranges),
    /// SET OF, with its sizes in members.
    SetOf(Box<Syntax>, Ranges),
    /// CHOICE, whose alternatives are neither optional nor have defaults.
    Choice(Parts),
    /// A tag, true where it is explicit, and what is tagged.
    Tagged(Tag, bool, Box<Syntax>),
    /// ANY: one value of any tag, kept undecoded.
    Any,
    /// CMISFilter: X.711, kept undecoded.
    Filter,
}

/// A component of a SEQUENCE or a SET, or an alternative of a CHOICE.
#[cycle(syntax)]
#[derive(Drop)]
pub struct Part {
    /// Its name, empty where it has none.
    pub name: Bytes,
    pub syntax: Syntax,
    /// OPTIONAL.
    pub optional: bool,
    /// DEFAULT: the value that the component has where it is left out.
    pub default: Option<Value>,
}

/// Components or alternatives in their order, fewer than 2^32.
#[cycle(syntax)]
#[derive(Drop)]
pub struct Parts {
    pub items: Vec<Part>,
}

/// Named numbers or named bits, in their order.
#[derive(Drop)]
pub struct Names {
    /// A name and its number.
    pub items: Vec<(Bytes, i64)>,
}

/// Which numbers, or sizes, are allowed: those that are at least the first and at most the second number of some pair.
/// No pairs: no bound is stated, and all are allowed. Where bounds leave no number, a pair stands that holds none, as
/// (1, 0).
#[derive(Drop)]
pub struct Ranges {
    pub items: Vec<(i64, i64)>,
}

impl Model for Syntax {
    ghost use Rattle.term_values.specs.Syntaxes.{TypeSyntax};
    ghost use Rattle.term_values.specs.SyntaxCode.{syntax_code};

    ghost Value = { TypeSyntax };

    ghost coded = { syntax_code };

    ghost use Rattle.term_values.specs.SyntaxView.{syntax_of};
    ghost use Rattle.term_values.specs.SyntaxSize.{nodes};

    ghost view = { λ syntax. syntax_of syntax.form };

    ghost size = { nodes };

    ghost use Rattle.term_values.specs.SyntaxDepth.{depth_below_nodes};

    ghost size_decreases = { λ syntax h. depth_below_nodes syntax.form };
}

impl Model for Parts {
    ghost use Rattle.std.specs.Prelude.{◌<◌, ◌^◌, length};
    ghost use Rattle.term_values.specs.Syntaxes.{TypeParts};
    ghost use Rattle.term_values.specs.SyntaxCode.{parts_code};

    ghost Value = { TypeParts };

    ghost coded = { parts_code };

    ghost use Rattle.term_values.specs.PartsView.{parts_listed};
    ghost use Rattle.term_values.specs.SyntaxSize.{nodes_parts};

    ghost view = { λ parts. parts_listed parts.items.items };

    ghost invariant = { λ parts. length parts.items.items < 2 ^ 32 };

    ghost size = { nodes_parts };

    ghost use Rattle.std.proofs.Common.{arith};
    ghost use Rattle.term_values.specs.SyntaxDepth.{most_below_parts};

    ghost size_decreases = { λ parts h. Prim.omega (arith, most_below_parts parts.items.items) };
}

impl Model for Names {
    ghost use Rattle.term_values.specs.Syntaxes.{Named};

    ghost Value = { Named };

    ghost view = { λ names. names.items.items };
}

impl Model for Ranges {
    ghost use Rattle.term_values.specs.Syntaxes.{Bounds};

    ghost Value = { Bounds };

    ghost view = { λ ranges. ranges.items.items };
}

impl Names {
    /// No names.
    pub fn new(alloc: Global) -> Names
        ensures { result ≡ [] }
    {
        Names {
            items: Vec::new(alloc),
        }
    }
}

impl Ranges {
    /// No bound is stated.
    pub fn new(alloc: Global) -> Ranges
        ensures { result ≡ [] }
    {
        Ranges {
            items: Vec::new(alloc),
        }
    }
}

impl Parts {
    /// These components or alternatives, or none where they are 2^32 or more.
    pub fn from_items(items: Vec<Part>) -> Option<Parts>
        ensures found { IsSome result ↔ length items.items < 2 ^ 32 }
        ensures parts { IfSome result (λ parts. parts ≡ parts_listed items.items) }
    {
        if items.as_slice().len() < 4_294_967_296 {
            Some(Parts { items })
        } else {
            None
        }
    }
}

impl Syntax {
    /// INTEGER without names and ranges.
    pub fn integer(alloc: Global) -> Syntax
        ensures { result ≡ Integer [] [] }
    {
        Syntax {
            form: SyntaxForm::Int(Names::new(alloc), Ranges::new(alloc)),
        }
    }
}
