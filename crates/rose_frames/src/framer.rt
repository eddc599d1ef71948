//! The frames of a byte stream that comes in pieces: docs/PROFILE.md, section 4.

ghost use Rattle.std.specs.Prelude.{ℕ, ◌≡◌, ◌↔◌, ◌⊎◌, ◌+◌, ◌-◌, ◌<◌, ◌≤◌, [], ◌++◌, Some, None, Ok, Err, IfOk, IfErr};
ghost use Rattle.std.specs.Prelude.{OnOk, OnErr, IfSome, IfNone, length, take, min, true, false};
ghost use Rattle.term_values.specs.Octets.{number};
ghost use Rattle.term_model.specs.RemoteOperation.{frame};
ghost use Rattle.rose_frames.specs.Cutting.{IsFramed};
ghost use Rattle.rose_frames.specs.Framing.{fault_of, fault_in, in_hand, is_size, is_whole, place_behind, place_inside};
ghost use Rattle.rose_frames.specs.declared.frame_refusal.FrameRefusal.{FrameRefusal};
ghost use Rattle.rose_frames.specs.declared.frame_refusal.FrameRefusal.TheVariants.{Memory};

use crate::frame_refusal::FrameRefusal;
use byteorder::{BigEndian, ByteOrder};
use std::alloc::{AllocError, Global};
use std::marker::Model;
use std::mem;

/// The octets of a frame's length.
pub const LENGTH_OCTETS: usize = 4;

/// The most octets of the APDU in a frame.
pub const MOST_OCTETS: u32 = 1_048_576;

/// Cuts a stream of octets that comes in pieces into frames. One whole frame is held at a time, until it is handed out.
#[derive(Drop)]
pub struct Framer {
    alloc: Global,
    place: u64,
    size: [u8; LENGTH_OCTETS],
    filled: usize,
    apdu: Vec<u8>,
}

impl Model for Framer {
    ghost use Rattle.std.specs.Prelude.{◌≡◌, ◌⊎◌, ◌<◌, ◌≤◌, [], ◌++◌, length, take};
    ghost use Rattle.term_values.specs.Octets.{number};
    ghost use Rattle.rose_frames.specs.Framing.{Framing};

    ghost Value = { Framing };

    ghost view = { λ framer. record {
      place = framer.place;
      octets = take framer.filled framer.size ++ framer.apdu.items;
    } };

    ghost invariant = { λ framer. (length framer.size ≡ 4) × (framer.filled ≤ 4)
        × (framer.filled < 4 → framer.apdu.items ≡ [])
        × ((framer.apdu.items ≡ [])
        ⊎ ((length framer.apdu.items ≤ number framer.size) × (number framer.size ≤ 1048576))) };
}

/// The octets of a length with those that more octets add to them, and how many these are.
fn lengthened(
    begun: [u8; LENGTH_OCTETS],
    filled: usize,
    piece: &[u8],
) -> ([u8; LENGTH_OCTETS], usize)
    requires { filled ≤ 4 }
    ensures octets { take (filled + result.1) result.0 ≡ take filled begun ++ take result.1 piece.now }
    ensures count { result.1 ≡ min (length piece.now) (4 - filled) }
{
    let more = piece.len().min(LENGTH_OCTETS - filled);
    let mut octets = begun;
    octets[filled..filled + more].copy_from_slice(&piece[..more]);
    (octets, more)
}

/// What is wrong with a length at this place.
fn fault_of(place: u64, size: u32) -> Option<FrameRefusal>
    ensures { result ≡ fault_of place size }
{
    if size == 0 {
        Some(FrameRefusal::ZeroLength { at: place })
    } else if size > MOST_OCTETS {
        Some(FrameRefusal::TooLong {
            at: place,
            length: size,
        })
    } else {
        None
    }
}

/// The number that the octets of a length stand for.
fn size_of(octets: &[u8; LENGTH_OCTETS]) -> u32
    ensures { result ≡ number octets.now }
{
    BigEndian::read_u32(octets)
}

/// Whether a length is that of an APDU.
fn is_size(size: u32) -> bool
    ensures { result ≡ is_size size }
{
    size > 0 && size <= MOST_OCTETS
}

/// Appends octets; want of memory leaves what was there, and comes where there are some.
fn append(octets: &[u8], into: &mut Vec<u8>) -> Result<(), AllocError>
    ensures items { OnOk result (into.new.items ≡ into.old.items ++ octets.now) }
    ensures kept { OnErr result (into.new.items ≡ into.old.items) }
    ensures some { OnErr result (0 < length octets.now) }
{
    if octets.is_empty() {
        Ok(())
    } else {
        into.extend_from_slice(octets)
    }
}

impl Framer {
    /// A framer to which nothing was fed.
    pub fn new(alloc: Global) -> Framer
        ensures { result ≡ record { place = 0; octets = [] } }
    {
        Framer {
            alloc,
            place: 0,
            size: [0; LENGTH_OCTETS],
            filled: 0,
            apdu: Vec::new(alloc),
        }
    }

    /// Takes the whole piece, or as much of it as ends the frame in hand where that is less, and says how many octets
    /// it took: none where a frame is held. After a length of 0 or past 1,048,576 it takes nothing more and answers
    /// the same from then on. Where there is no memory, it is as it was.
    pub fn feed(&mut self, piece: &[u8]) -> Result<usize, FrameRefusal>
        // what is taken
        ensures taken { IfOk result (λ size.
            (self.new ≡ record self.old { octets = in_hand (self.old.octets ++ piece.now) })
            × (length self.old.octets + size ≡ length self.new.octets)) }
        ensures within { IfOk result (λ size. size ≤ length piece.now) }
        ensures nothing { (result ≡ Ok 0)
            ↔ ((fault_in self.old.place self.old.octets ≡ None)
            × ((is_whole self.old.octets ≡ true) ⊎ (piece.now ≡ []))) }

        // a length that is refused, exactly, and for good
        ensures sound { OnOk result (fault_in self.old.place (self.old.octets ++ piece.now) ≡ None) }
        ensures faulty { (refusal : FrameRefusal)
            → fault_in self.old.place (self.old.octets ++ piece.now) ≡ Some refusal → (result ≡ Err refusal)
            × (self.new ≡ record self.old { octets = take 4 (self.old.octets ++ piece.now) }) }
        ensures fault { IfErr result (λ refusal. (refusal ≡ Memory)
            ⊎ (fault_in self.old.place (self.old.octets ++ piece.now) ≡ Some refusal)) }
        ensures again { (refusal : FrameRefusal) → fault_in self.old.place self.old.octets ≡ Some refusal
            → (result ≡ Err refusal) × (self.new ≡ self.old) }

        // want of memory
        ensures memory { result ≡ Err Memory → self.new ≡ self.old }
    {
        let (octets, more) = lengthened(self.size, self.filled, piece);
        if self.filled + more < LENGTH_OCTETS {
            self.size = octets;
            self.filled += more;
            return Ok(more);
        }
        let size = size_of(&octets);
        match fault_of(self.place, size) {
            None => {}
            Some(refusal) => {
                self.size = octets;
                self.filled = LENGTH_OCTETS;
                return Err(refusal);
            }
        }
        let rest = &piece[more..];
        let due = rest.len().min(size as usize - self.apdu.as_slice().len());
        append(&rest[..due], &mut self.apdu)?;
        self.size = octets;
        self.filled = LENGTH_OCTETS;
        Ok(more + due)
    }

    /// Whether a whole frame is held.
    fn is_held(&self) -> bool
        ensures { result ≡ is_whole self.now.octets }
    {
        if self.filled < LENGTH_OCTETS {
            return false;
        }
        let size = size_of(&self.size);
        if !is_size(size) {
            return false;
        }
        self.apdu.as_slice().len() == size as usize
    }

    /// Hands out the APDU of the frame that is held; none where none is.
    pub fn next_frame(&mut self) -> Option<Vec<u8>>
        ensures found { IfSome result (λ apdu. (self.old.octets ≡ frame apdu.items) × IsFramed apdu.items) }
        ensures behind { IfSome result (λ apdu.
            self.new ≡ record { place = place_behind self.old.place (length self.old.octets); octets = [] }) }
        ensures none { (result ≡ None) ↔ (is_whole self.old.octets ≡ false) }
        ensures kept { IfNone result (self.new ≡ self.old) }
    {
        if !self.is_held() {
            return None;
        }
        let size = (LENGTH_OCTETS + self.apdu.as_slice().len()) as u64;
        self.place = self.place.saturating_add(size);
        self.filled = 0;
        Some(mem::replace(&mut self.apdu, Vec::new(self.alloc)))
    }

    /// The place of the frame that is begun and not ended, counted in all that was fed from 0 on and at most 2^64 - 1;
    /// none where there is none.
    pub fn inside(&self) -> Option<u64>
        ensures { result ≡ place_inside self.now }
    {
        if self.filled == 0 {
            return None;
        }
        if self.is_held() {
            return None;
        }
        Some(self.place)
    }
}
