//! From a line to its answer.

use crate::row_syntaxes::syntax_named;
use ber_tree::BerRefusal;
use ber_tree::tree_reading::{read_front_tree, read_tree};
use ber_tree::tree_writing::write_tree;
use ber_values::{DecodeRefusal, decode, encode_into};
use lending::lend;
use std::alloc::{AllocError, Global};
use std::fmt::Write;
use term_values::{Syntax, Tree, Value, der_len};

/// Appends octets in hexadecimal digits.
fn show(octets: &[u8], out: &mut String) -> Result<(), AllocError> {
    for octet in octets {
        write!(out, "{octet:02X}")?;
    }
    Ok(())
}

/// Appends the one form of a value and how many octets it has.
fn show_value(
    alloc: Global,
    syntax: &Syntax,
    value: &Value,
    out: &mut String,
) -> Result<(), AllocError> {
    let mut octets = Vec::new(alloc);
    encode_into(alloc, syntax, value, &mut octets)?;
    show(&octets, out)?;
    write!(out, " {}", der_len(syntax, value))?;
    Ok(())
}

/// Appends the one form of the value that the tree denotes and how many octets it has, or that the tree denotes none.
fn answer_tree(
    alloc: Global,
    syntax: &Syntax,
    tree: &Tree,
    out: &mut String,
) -> Result<(), AllocError> {
    lend(decode(alloc, syntax, tree), |decoded| match decoded {
        Ok(value) => show_value(alloc, syntax, value, out),
        Err(DecodeRefusal::Misfit) => out.push_str("misfit"),
        Err(DecodeRefusal::Memory) => Err(AllocError),
    })
}

/// Appends the answer to octets.
fn answer_octets(
    alloc: Global,
    syntax: &Syntax,
    octets: &[u8],
    out: &mut String,
) -> Result<(), AllocError> {
    lend(read_front_tree(alloc, octets)?, |read| match read {
        Some((tree, _)) => answer_tree(alloc, syntax, tree, out),
        None => out.push_str("no tree"),
    })
}

/// Appends how many octets spell a tree, and its one form.
fn show_tree(alloc: Global, tree: &Tree, size: usize, out: &mut String) -> Result<(), AllocError> {
    let mut octets = Vec::new(alloc);
    write_tree(tree, &mut octets)?;
    write!(out, "{size}: ")?;
    show(&octets, out)
}

/// Appends how many of these octets spell the tree at their front, and its one form, or the kind and the place of the
/// first fault.
fn answer_front(alloc: Global, octets: &[u8], out: &mut String) -> Result<(), AllocError> {
    lend(read_tree(alloc, octets), |read| match read {
        Ok((tree, size)) => show_tree(alloc, tree, *size, out),
        Err(BerRefusal::Fault { at, kind }) => write!(out, "{kind:?} at {at}"),
        Err(BerRefusal::Memory) => Err(AllocError),
    })
}

/// Appends the answer to octets, in a syntax or in none.
fn answer_in(
    alloc: Global,
    syntax: &Option<Syntax>,
    octets: &[u8],
    out: &mut String,
) -> Result<(), AllocError> {
    match syntax {
        Some(syntax) => answer_octets(alloc, syntax, octets, out),
        None => answer_front(alloc, octets, out),
    }
}

/// Appends the answer to octets in hexadecimal digits.
fn answer_digits(
    alloc: Global,
    syntax: &Option<Syntax>,
    digits: &str,
    out: &mut String,
) -> Result<(), AllocError> {
    match hex::decode(alloc, digits.as_bytes()) {
        Ok(octets) => answer_in(alloc, syntax, &octets, out),
        Err(_) => out.push_str("no octets"),
    }
}

/// Appends the answer to octets in the syntax of a name.
fn answer_named(
    alloc: Global,
    name: &str,
    digits: &str,
    out: &mut String,
) -> Result<(), AllocError> {
    lend(syntax_named(alloc, name)?, |found| match found {
        Some(_) => answer_digits(alloc, found, digits, out),
        None => out.push_str("no such syntax"),
    })
}

/// Appends the answer to a row.
fn answer_row(alloc: Global, row: &str, out: &mut String) -> Result<(), AllocError> {
    match row.split_once(' ') {
        Some(("tree", digits)) => answer_digits(alloc, &None, digits, out),
        Some((name, digits)) => answer_named(alloc, name, digits, out),
        None => out.push_str("no octets"),
    }
}

/// What is printed for a line.
pub fn answer_line(alloc: Global, line: &str) -> Result<String, AllocError> {
    let mut out = String::new(alloc);
    if line.is_empty() || line.starts_with('#') {
        out.push_str(line)?;
    } else {
        answer_row(alloc, line, &mut out)?;
    }
    Ok(out)
}
