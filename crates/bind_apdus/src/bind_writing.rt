//! Writes the answer to a BIND in a frame: docs/PROFILE.md, section 4. It is written with its last octet first, so that
//! the length of each part is known when its header is written.
#![tactic(auto, using(ber_tree::proofs::Extending::extending))]

ghost use Rattle.std.specs.Prelude.{◌≡◌, ◌++◌, ◌^◌, ◌<◌, IfOk, OnOk, reverse};
ghost use Rattle.ber_tree.specs.Writing.{Extends};
ghost use Rattle.agent_model.specs.Bind.{bind_answer};
ghost use Rattle.term_model.specs.RemoteOperation.{frame};

use ber_tree::tree_writing::reverse_from;
use ber_tree::value_writing::write_integer_backwards;
use rose_frames::apdu_writing::{close_frame, close_value};
use std::alloc::{AllocError, Global};
use term_values::Tag;

/// Appends the answer to the BIND of an association with this number, the last octet first.
fn write_bind_answer(code: u8, association: u64, into: &mut Vec<u8>) -> Result<(), AllocError>
    requires { association < 2 ^ 63 }
    ensures written { OnOk result
        (into.new.items ≡ into.old.items ++ reverse (bind_answer code association)) }
    ensures begun { Extends into.old.items into.new.items }
{
    let start = into.as_slice().len();
    write_integer_backwards(Tag::INTEGER, association as i64, into)?;
    write_integer_backwards(Tag::ENUMERATED, i64::from(code), into)?;
    close_value(Tag::SEQUENCE, start, into)?;
    Ok(())
}

/// The frame that answers the BIND of an association with this number.
pub fn bind_answer_frame(alloc: Global, code: u8, association: u64) -> Result<Vec<u8>, AllocError>
    requires { association < 2 ^ 63 }
    ensures { IfOk result (λ octets. octets.items ≡ frame (bind_answer code association)) }
{
    let mut octets = Vec::new(alloc);
    write_bind_answer(code, association, &mut octets)?;
    close_frame(0, &mut octets)?;
    reverse_from(0, &mut octets);
    Ok(octets)
}
