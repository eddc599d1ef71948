//! The contents octets of a SEQUENCE on their way into a reply: X.711, section 7.5.

ghost use Rattle.std.specs.Prelude.{◌≡◌, ℕ, ◌≤◌, List, ◌++◌, Some, true, IfOk, OnOk, length, reverse};
ghost use Rattle.ber_tree.specs.Writing.{Extends};
ghost use Rattle.term_values.specs.Der.{encoded};
ghost use Rattle.term_values.specs.Tag.{universal};

use ber_tree::tree_writing::{reverse_from, write_header_backwards};
use std::alloc::AllocError;
use std::marker::Model;
use term_model::{CmisError, Reply};
use term_values::{Bytes, Tag};

/// The contents octets of a SEQUENCE, which stands alone as a result or as an error's parameter, and under a tag of
/// LinkedReply as a linked reply.
#[derive(Drop)]
pub struct Contents {
    /// The octets, the last one first.
    pub(crate) turned: Vec<u8>,
}

impl Model for Contents {
    ghost use Rattle.std.specs.Prelude.{ℕ, List, reverse};

    ghost Value = { List ℕ };

    ghost view = { λ contents. reverse contents.turned.items };
}

/// Appends the identifier and length octets of the constructed value whose contents stand behind the place `start`, all
/// with the last octet first.
#[tactic(auto, using(ber_tree::proofs::Extending::extending))]
pub(crate) fn close(tag: Tag, start: usize, into: &mut Vec<u8>) -> Result<(), AllocError>
    requires { start ≤ length into.old.items }
    ensures written { OnOk result ((before contents : List ℕ) → start ≡ length before
        → into.old.items ≡ before ++ reverse contents
        → into.new.items ≡ before ++ reverse (encoded true tag contents)) }
    ensures begun { Extends into.old.items into.new.items }
{
    let size = into.as_slice().len() - start;
    write_header_backwards(true, tag, size, into)?;
    Ok(())
}

/// The octets of the SEQUENCE with these contents.
fn sequence(contents: Contents) -> Result<Bytes, AllocError>
    ensures { IfOk result (λ octets. octets ≡ encoded true (universal 16) contents) }
{
    let mut items = contents.turned;
    let size = items.as_slice().len();
    write_header_backwards(true, Tag::SEQUENCE, size, &mut items)?;
    reverse_from(0, &mut items);
    Ok(Bytes { items })
}

impl Contents {
    /// The result of a confirmed operation.
    pub fn single(self) -> Result<Reply, AllocError>
        ensures { IfOk result (λ reply. reply ≡ Reply.Single (encoded true (universal 16) self)) }
    {
        Ok(Reply::Single(sequence(self)?))
    }

    /// A linked reply, by its number in LinkedReply.
    pub fn linked(self, number: u8) -> Reply
        ensures { result ≡ Reply.Linked number self }
    {
        let mut items = self.turned;
        reverse_from(0, &mut items);
        Reply::Linked(number, Bytes { items })
    }

    /// The error with this number, whose parameter is the SEQUENCE.
    pub fn error(self, code: i64) -> Result<CmisError, AllocError>
        ensures { IfOk result (λ error. error
            ≡ record { code = code; parameter = Some (encoded true (universal 16) self) }) }
    {
        let parameter = Some(sequence(self)?);
        Ok(CmisError { code, parameter })
    }
}
