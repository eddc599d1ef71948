//! Whole streams in pieces: docs/PROFILE.md, section 4. However a stream is cut into pieces, its frames are the same.

ghost use Rattle.std.specs.Prelude.{ℕ, ◌≡◌, ◌⊎◌, ◌<◌, ◌^◌, List, ◌++◌, Some, None, IfOk, IfErr, OnOk, false, length};
ghost use Rattle.std.specs.Prelude.{flat_map};
ghost use Rattle.term_model.specs.RemoteOperation.{frame};
ghost use Rattle.rose_frames.specs.Cutting.{Begins, IsCut, OneCut, joined, place_after};
ghost use Rattle.rose_frames.specs.Framing.{fault_in, in_hand, is_whole, place_behind};
ghost use Rattle.rose_frames.specs.declared.frame_refusal.FrameRefusal.TheVariants.{Memory};

use crate::frame_refusal::FrameRefusal;
use crate::framer::Framer;
use std::alloc::Global;
use term_values::Bytes;

/// Feeds a whole piece, and appends the APDU of each frame as soon as it is held. No frame is held then.
fn feed_piece(framer: &mut Framer, piece: &[u8], apdus: &mut Vec<Bytes>) -> Result<(), FrameRefusal>
    requires { framer.old.place < 2 ^ 64 }
    ensures fed { OnOk result ((found : List (List ℕ)) × (apdus.new.items ≡ apdus.old.items ++ found)
        × Begins (framer.old.octets ++ piece.now) found framer.new.octets
        × (framer.new.place ≡ place_behind framer.old.place (length (flat_map frame found)))) }
    ensures stops { OnOk result ((in_hand framer.new.octets ≡ framer.new.octets) × (is_whole framer.new.octets ≡ false)
        × (fault_in 0 framer.new.octets ≡ None)) }
    ensures refused { IfErr result (λ refusal. (refusal ≡ Memory)
        ⊎ ((found : List (List ℕ)) × (rest : List ℕ) × (apdus.new.items ≡ apdus.old.items ++ found)
        × Begins (framer.old.octets ++ piece.now) found rest
        × (fault_in (place_behind framer.old.place (length (flat_map frame found))) rest ≡ Some refusal))) }
{
    let mut at = 0;
    'frames: loop {
        at += framer.feed(&piece[at..])?;
        match framer.next_frame() {
            None => return Ok(()),
            Some(items) => apdus.push(Bytes { items })?,
        }
    }
}

/// Feeds the pieces of a stream to a new framer, one after another, and appends the APDU of each frame as soon as it is
/// held. What is appended before a refusal stays.
pub fn cut_stream(
    alloc: Global,
    pieces: &[Bytes],
    apdus: &mut Vec<Bytes>,
) -> Result<Framer, FrameRefusal>
    // the frames of the joined pieces, and what is left of them
    ensures cut { IfOk result (λ framer. (found : List (List ℕ)) × (apdus.new.items ≡ apdus.old.items ++ found)
        × IsCut (joined pieces.now) found framer.octets
        × (fault_in 0 framer.octets ≡ None) × (framer.place ≡ place_after found)) }

    // or the frames before a length that is refused
    ensures refused { IfErr result (λ refusal. (refusal ≡ Memory)
        ⊎ ((found : List (List ℕ)) × (rest : List ℕ) × (apdus.new.items ≡ apdus.old.items ++ found)
        × IsCut (joined pieces.now) found rest × (fault_in (place_after found) rest ≡ Some refusal))) }
{
    let mut framer = Framer::new(alloc);
    'pieces: for piece in pieces {
        feed_piece(&mut framer, piece.as_slice(), apdus)?;
    }
    Ok(framer)
}

/// Octets are cut into frames in one way, so the frames of a stream don't depend on its pieces. Does nothing.
pub fn one_cut()
    ensures { OneCut }
{}
