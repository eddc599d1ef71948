//! Reads the parts of an Invoke where they stand: X.229, section 9, type ROIVapdu.

ghost use Rattle.std.specs.Prelude.{◌≡◌, Bool, ℤ};
ghost use Rattle.std.specs.Option.{option_copied, option_map_or};
ghost use Rattle.term_values.specs.Tree.{listed};
ghost use Rattle.term_model.specs.declared.schema.Set.{Set};
ghost use Rattle.term_model.specs.ApduReading.{invoke_in};
ghost use Rattle.agent_model.specs.Receiving.{invoked, mistyped_apdu};
ghost use Rattle.apdu_receiving.specs.Bringing.{brought};

use rose_frames::parts::{at_most_one, id_first, linked_first, number_first};
use term_values::Tree;

/// The parts of an Invoke on which an agent acts, which a linked id is none of.
#[derive(Clone, Copy)]
pub struct InvokeParts<'a> {
    /// The invoke id.
    pub id: i32,
    /// The number of the operation.
    pub op: i64,
    /// The argument, undecoded.
    pub argument: Option<&'a Tree>,
}

/// The parts of the Invoke that has these fields, none where they aren't those of one.
pub fn invoke_parts(inside: &[Tree]) -> Option<InvokeParts<'_>>
    ensures { (schema : Set) → (in_use : ℤ → Bool)
        → option_map_or (λ parts. invoked schema in_use parts.id parts.op (option_copied parts.argument)) result
        mistyped_apdu ≡ brought schema in_use (invoke_in (listed inside.now)) }
{
    let (id, rest) = id_first(inside)?;
    let (_, rest) = linked_first(rest)?;
    let (op, rest) = number_first(rest)?;
    let argument = at_most_one(rest)?;
    Some(InvokeParts { id, op, argument })
}
