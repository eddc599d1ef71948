//! Rows of streams that come in pieces.

use rose_frames::{FrameRefusal, Framer};
use row_arguments::showing::show_octets;
use row_arguments::{RowFault, reading};
use std::alloc::Global;

/// Appends a refusal.
fn show_refusal(refusal: FrameRefusal, out: &mut String) -> Result<(), RowFault> {
    match refusal {
        FrameRefusal::TooLong { at, length } => Ok(write!(out, "TooLong {length} at {at}; ")?),
        FrameRefusal::ZeroLength { at } => Ok(write!(out, "ZeroLength at {at}; ")?),
        FrameRefusal::Memory => Err(RowFault::Memory),
    }
}

/// Feeds a piece until it is taken or refused, and appends each frame. Whether it was taken.
fn feed_piece(framer: &mut Framer, piece: &[u8], out: &mut String) -> Result<bool, RowFault> {
    let mut rest = piece;
    for _ in 0..=piece.len() {
        match framer.feed(rest) {
            Ok(size) => rest = &rest[size..],
            Err(refusal) => {
                show_refusal(refusal, out)?;
                return Ok(false);
            }
        }
        match framer.next_frame() {
            None => return Ok(true),
            Some(apdu) => {
                show_octets(apdu.as_slice(), out)?;
                out.push_str("; ")?;
            }
        }
    }
    Ok(true)
}

/// The frames of a stream in pieces of this size, and what is left; behind a refusal the answer to one octet more.
fn cut(alloc: Global, size: usize, stream: &[u8]) -> Result<String, RowFault> {
    let mut out = String::new(alloc);
    let mut framer = Framer::new(alloc);
    if size == 0 {
        return Err(RowFault::Number);
    }
    for piece in stream.chunks(size) {
        if !feed_piece(&mut framer, piece, &mut out)? {
            feed_piece(&mut framer, &[1], &mut out)?;
            break;
        }
    }
    match framer.inside() {
        Some(at) => write!(out, "inside {at}")?,
        None => out.push_str("between frames")?,
    }
    Ok(out)
}

/// A stream in pieces of one size.
pub fn pieces_row(alloc: Global, text: &str, out: &mut String) -> Result<(), RowFault> {
    let (size, stream) = reading::two(text)?;
    let stream = reading::octets(alloc, stream)?;
    let found = cut(alloc, reading::natural(size)? as usize, &stream)?;
    Ok(out.push_str(found.as_str())?)
}

/// A stream in pieces of each size from 1 to its own, and how many sizes give the same as the whole.
pub fn sizes_row(alloc: Global, text: &str, out: &mut String) -> Result<(), RowFault> {
    let stream = reading::octets(alloc, text)?;
    let whole = cut(alloc, stream.len(), &stream)?;
    let mut same = 0usize;
    for size in 1..=stream.len() {
        let found = cut(alloc, size, &stream)?;
        if found.as_str() == whole.as_str() {
            same = same.saturating_add(1);
        }
    }
    write!(out, "{same} of {}: ", stream.len())?;
    Ok(out.push_str(whole.as_str())?)
}
