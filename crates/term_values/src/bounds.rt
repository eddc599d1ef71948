//! Which numbers, sizes and names a syntax allows: X.680, sections 19, 20 and 51.

ghost use Rattle.std.specs.Prelude.{◌≡◌, ℤ, pos};
ghost use Rattle.term_values.specs.Bounded.{allowed, allowed_size, one_allows, is_named, bit_count};

use crate::syntax::{Names, Ranges};

/// Some pair holds the number.
fn one_allows(pairs: &[(i64, i64)], number: i64) -> bool
    ensures { result ≡ one_allows pairs.now number }
{
    for (least, most) in pairs {
        if *least <= number && number <= *most {
            return true;
        }
    }
    false
}

/// Some pair holds the size.
fn one_allows_size(pairs: &[(i64, i64)], size: u128) -> bool
    ensures { result ≡ one_allows pairs.now (pos size) }
{
    for (least, most) in pairs {
        let reached = *least < 0 || *least as u128 <= size;
        let kept = *most >= 0 && size <= *most as u128;
        if reached && kept {
            return true;
        }
    }
    false
}

impl Ranges {
    /// Whether the number is allowed: no bound is stated, or some pair holds it.
    pub fn allow(&self, number: i64) -> bool
        ensures { result ≡ allowed self.now number }
    {
        match self.items.as_slice() {
            [] => true,
            pairs => one_allows(pairs, number),
        }
    }

    /// Whether the size is allowed: of a text or a string of octets in octets, of a list in members.
    pub fn allow_size(&self, size: usize) -> bool
        ensures { result ≡ allowed_size self.now size }
    {
        match self.items.as_slice() {
            [] => true,
            pairs => one_allows_size(pairs, size as u128),
        }
    }

    /// Whether the size of a BIT STRING is allowed, which is counted in bits.
    pub fn allow_bits(&self, octets: &[u8], unused: u8) -> bool
        ensures { result ≡ allowed_size self.now (bit_count octets.now unused) }
    {
        let bits = (octets.len() as u128 * 8).saturating_sub(unused as u128);
        match self.items.as_slice() {
            [] => true,
            pairs => one_allows_size(pairs, bits),
        }
    }
}

impl Names {
    /// Whether some name has the number.
    pub fn have(&self, number: i64) -> bool
        ensures { result ≡ is_named self.now number }
    {
        for (_, named) in self.items.as_slice() {
            if *named == number {
                return true;
            }
        }
        false
    }
}
