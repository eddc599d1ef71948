//! Bits in digits, and bits as octets (X.680, sections 12.10, 12.12 and 22).

ghost use Rattle.std.specs.Prelude.{◌≡◌, IfOk, OnOk, length, ◌≤◌};
ghost use Rattle.asn1_leaf_values.specs.Bits.{digit_number, hexadecimal_bits, binary_bits, behind_first, bits_of};
ghost use Rattle.asn1_leaf_values.specs.Bits.{weighed, packed, filled};
ghost use Rattle.asn1_leaf_values.specs.LeafTexts.{with_bit};

use std::alloc::{AllocError, Global};
use std::marker::Model;
use term_values::Bytes;
use token_grammar::Token;
use token_grammar::token::{BIT_STRING, HEX_STRING};

/// What stands round the digits of a literal.
const APOSTROPHE: u8 = b'\'';

/// The weight of the first bit of an octet.
const FIRST_BIT: u8 = 128;

/// Bits in their order.
#[derive(Drop)]
pub struct BitList {
    pub items: Vec<bool>,
}

impl Model for BitList {
    ghost use Rattle.std.specs.Prelude.{Bool, List};

    ghost Value = { List Bool };

    ghost view = { λ bits. bits.items.items };
}

/// The number of a hexadecimal digit.
fn digit_number(digit: u8) -> u8
    ensures { result ≡ digit_number digit }
{
    if digit < b'A' {
        digit.saturating_sub(b'0')
    } else {
        digit - 55
    }
}

/// The bits of hexadecimal digits up to an apostrophe.
fn hexadecimal_bits(alloc: Global, digits: &[u8]) -> Result<BitList, AllocError>
    ensures { IfOk result (λ bits. hexadecimal_bits digits.now ≡ bits) }
{
    let mut items = Vec::new(alloc);
    for digit in digits {
        if *digit == APOSTROPHE {
            return Ok(BitList { items });
        }
        let number = digit_number(*digit);
        items.push(number / 8 % 2 == 1)?;
        items.push(number / 4 % 2 == 1)?;
        items.push(number / 2 % 2 == 1)?;
        items.push(number % 2 == 1)?;
    }
    Ok(BitList { items })
}

/// The bits of binary digits up to an apostrophe.
fn binary_bits(alloc: Global, digits: &[u8]) -> Result<BitList, AllocError>
    ensures { IfOk result (λ bits. binary_bits digits.now ≡ bits) }
{
    let mut items = Vec::new(alloc);
    for digit in digits {
        if *digit == APOSTROPHE {
            return Ok(BitList { items });
        }
        items.push(*digit == b'1')?;
    }
    Ok(BitList { items })
}

/// What stands behind the apostrophe with which a literal begins.
fn behind_first(text: &[u8]) -> &[u8]
    ensures { result.now ≡ behind_first text.now }
{
    match text {
        [] => text,
        [_, others @ ..] => others,
    }
}

/// The bits that a token stands for; none where it is neither `'..'H` nor `'..'B`.
pub fn read_bits(alloc: Global, token: &Token) -> Result<Option<BitList>, AllocError>
    ensures { IfOk result (λ found. bits_of token.now ≡ found) }
{
    let digits = behind_first(token.text.as_slice());
    if token.kind == HEX_STRING {
        return Ok(Some(hexadecimal_bits(alloc, digits)?));
    }
    if token.kind == BIT_STRING {
        return Ok(Some(binary_bits(alloc, digits)?));
    }
    Ok(None)
}

/// The number of at most eight bits, of which those that are missing are 0.
fn weigh(bits: &[bool]) -> u8
    ensures { result ≡ weighed 128 bits.now }
{
    let mut octet = 0u8;
    let mut weight = FIRST_BIT;
    for bit in bits {
        if *bit {
            octet += weight;
        }
        weight /= 2;
    }
    octet
}

/// The bits in octets, the last one filled up with 0 bits.
pub fn pack(alloc: Global, bits: &[bool]) -> Result<Bytes, AllocError>
    ensures { IfOk result (λ octets. packed bits.now ≡ octets) }
{
    let mut items = Vec::new(alloc);
    let mut at = 0;
    'octets: while at < bits.len() {
        let end = bits.len().min(at + 8);
        items.push(weigh(&bits[at..end]))?;
        at = end;
    }
    Ok(Bytes { items })
}

/// How many bits of the last octet are filled up.
pub fn count_filled(bits: &[bool]) -> u8
    ensures { result ≡ filled bits.now }
{
    (8 - (bits.len() % 8) as u8) % 8
}

/// Makes the bit of this number 1, with 0 bits up to it.
pub fn set_bit(bits: &mut Vec<bool>, number: usize) -> Result<(), AllocError>
    ensures { OnOk result (bits.new.items ≡ with_bit number bits.old.items) }
{
    while bits.as_slice().len() <= number {
        bits.push(false)?;
    }
    bits[number] = true;
    Ok(())
}
