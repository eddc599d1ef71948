//! The arguments of a row. They are separated by `;`. Octets are hexadecimal digits in words; `*` and a number behind a
//! word say how often it stands, and `-` stands for no octets.

use crate::row_fault::RowFault;
use hex::FromHexError;
use std::alloc::Global;
use term_values::{Bytes, Oid};

/// The first word and what follows it.
pub fn word(text: &str) -> (&str, &str) {
    let text = text.trim();
    text.split_once(' ').unwrap_or((text, ""))
}

/// A call's two arguments.
pub fn two(text: &str) -> Result<(&str, &str), RowFault> {
    match text.split_once(';') {
        Some(parts) => Ok(parts),
        None => Err(RowFault::Arguments),
    }
}

/// A call's three arguments.
pub fn three(text: &str) -> Result<(&str, &str, &str), RowFault> {
    let (first, rest) = two(text)?;
    let (second, third) = two(rest)?;
    Ok((first, second, third))
}

/// A number below 2 ^ 64.
pub fn natural(text: &str) -> Result<u64, RowFault> {
    match text.trim().parse::<u64>() {
        Ok(number) => Ok(number),
        Err(_) => Err(RowFault::Number),
    }
}

/// A whole number of 64 bits.
pub fn integer(text: &str) -> Result<i64, RowFault> {
    match text.trim().parse::<i64>() {
        Ok(number) => Ok(number),
        Err(_) => Err(RowFault::Number),
    }
}

/// A number of 32 bits, with a sign where it is negative.
pub fn id(text: &str) -> Result<i32, RowFault> {
    match text.trim().parse::<i32>() {
        Ok(number) => Ok(number),
        Err(_) => Err(RowFault::Number),
    }
}

/// A number below 2 ^ 32.
fn arc(text: &str) -> Result<u32, RowFault> {
    match text.trim().parse::<u32>() {
        Ok(number) => Ok(number),
        Err(_) => Err(RowFault::Number),
    }
}

/// A number below 256.
pub fn octet(text: &str) -> Result<u8, RowFault> {
    match text.trim().parse::<u8>() {
        Ok(number) => Ok(number),
        Err(_) => Err(RowFault::Number),
    }
}

/// How often a word stands, below 2 ^ 32 times.
fn times(text: &str) -> Result<u32, RowFault> {
    match text.parse::<u32>() {
        Ok(number) => Ok(number),
        Err(_) => Err(RowFault::Number),
    }
}

/// The octets of hexadecimal digits.
fn decoded(alloc: Global, digits: &str) -> Result<Vec<u8>, RowFault> {
    match hex::decode(alloc, digits.as_bytes()) {
        Ok(octets) => Ok(octets),
        Err(FromHexError::OutOfMemory) => Err(RowFault::Memory),
        Err(_) => Err(RowFault::Octets),
    }
}

/// Appends the octets of a word.
fn add_word(alloc: Global, word: &str, into: &mut Vec<u8>) -> Result<(), RowFault> {
    let (digits, count) = word.split_once('*').unwrap_or((word, "1"));
    let octets = decoded(alloc, digits)?;
    for _ in 0..times(count)? {
        into.extend_from_slice(&octets)?;
    }
    Ok(())
}

/// The octets of a text.
pub fn octets(alloc: Global, text: &str) -> Result<Vec<u8>, RowFault> {
    let mut octets = Vec::new(alloc);
    for word in text.split_whitespace() {
        if word != "-" {
            add_word(alloc, word, &mut octets)?;
        }
    }
    Ok(octets)
}

/// The same as a string of octets.
pub fn bytes(alloc: Global, text: &str) -> Result<Bytes, RowFault> {
    Ok(Bytes {
        items: octets(alloc, text)?,
    })
}

/// Arcs with points between them; `*` and a number behind an arc say how often it stands, and an empty part has none.
fn arcs(alloc: Global, text: &str) -> Result<Vec<u32>, RowFault> {
    let mut arcs = Vec::new(alloc);
    for part in text.split('.') {
        let (number, count) = part.split_once('*').unwrap_or((part, "1"));
        if !number.trim().is_empty() {
            for _ in 0..times(count)? {
                arcs.push(arc(number)?)?;
            }
        }
    }
    Ok(arcs)
}

/// An identifier.
pub fn oid(alloc: Global, text: &str) -> Result<Oid, RowFault> {
    match Oid::from_arcs(arcs(alloc, text)?) {
        Some(oid) => Ok(oid),
        None => Err(RowFault::Arcs),
    }
}
