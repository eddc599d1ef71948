//! Octets as an answer has them.

use std::alloc::AllocError;

/// So many equal octets and more in a row are a word of their own.
const LONG_RUN: usize = 16;

/// Appends an octet so many times.
fn show_run(octet: u8, count: usize, out: &mut String) -> Result<(), AllocError> {
    if count < LONG_RUN {
        for _ in 0..count {
            write!(out, "{octet:02X}")?;
        }
        return Ok(());
    }
    write!(out, " {octet:02X}*{count} ")
}

/// Appends octets in digits. Sixteen equal octets and more in a row are a word of their own with their number, as in a
/// row; no octets are `-`.
pub fn show_octets(octets: &[u8], out: &mut String) -> Result<(), AllocError> {
    if octets.is_empty() {
        return out.push_str("-");
    }
    let mut last = 0u8;
    let mut count = 0usize;
    for octet in octets {
        if *octet != last {
            show_run(last, count, out)?;
            last = *octet;
            count = 0;
        }
        count = count.saturating_add(1);
    }
    show_run(last, count, out)
}
