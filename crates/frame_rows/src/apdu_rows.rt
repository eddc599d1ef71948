//! Rows of APDUs of remote operations, read and written.

use ber_tree::tree_reading::read_front_tree;
use ber_tree::tree_writing::write_tree;
use rose_frames::{Apdu, ApduRefusal, read_apdu, write_apdu};
use row_arguments::showing::show_octets;
use row_arguments::{RowFault, reading};
use std::alloc::{AllocError, Global};
use term_values::Tree;

/// Appends a number, or `none`.
fn show_id(id: Option<i32>, out: &mut String) -> Result<(), AllocError> {
    match id {
        Some(id) => write!(out, "{id}"),
        None => out.push_str("none"),
    }
}

/// Appends a number, or `none`.
fn show_number(number: Option<i64>, out: &mut String) -> Result<(), AllocError> {
    match number {
        Some(number) => write!(out, "{number}"),
        None => out.push_str("none"),
    }
}

/// Appends the written octets of a tree, or `none`.
fn show_any(alloc: Global, tree: &Option<Tree>, out: &mut String) -> Result<(), AllocError> {
    match tree {
        Some(tree) => {
            let mut octets = Vec::new(alloc);
            write_tree(tree, &mut octets)?;
            show_octets(&octets, out)
        }
        None => out.push_str("none"),
    }
}

/// Appends the fields of an APDU.
fn show_apdu(alloc: Global, apdu: &Apdu, out: &mut String) -> Result<(), AllocError> {
    match apdu {
        Apdu::Invoke {
            id,
            linked,
            op,
            argument,
        } => {
            write!(out, "Invoke {id}; linked ")?;
            show_id(*linked, out)?;
            write!(out, "; op {op}; ")?;
            show_any(alloc, argument, out)
        }
        Apdu::Result { id, op, value } => {
            write!(out, "Result {id}; op ")?;
            show_number(*op, out)?;
            out.push_str("; ")?;
            show_any(alloc, value, out)
        }
        Apdu::Error {
            id,
            error,
            parameter,
        } => {
            write!(out, "Error {id}; error {error}; ")?;
            show_any(alloc, parameter, out)
        }
        Apdu::Reject { id, class, problem } => {
            out.push_str("Reject ")?;
            show_id(*id, out)?;
            write!(out, "; class {class}; problem {problem}")
        }
    }
}

/// The tree that octets spell.
fn tree(alloc: Global, text: &str) -> Result<Tree, RowFault> {
    let octets = reading::octets(alloc, text)?;
    match read_front_tree(alloc, &octets)? {
        Some((tree, _)) => Ok(tree),
        None => Err(RowFault::Tree),
    }
}

/// The fields of the APDU that octets are, or the refusal.
pub fn read_apdu_row(alloc: Global, text: &str, out: &mut String) -> Result<(), RowFault> {
    let tree = tree(alloc, text)?;
    match read_apdu(alloc, &tree) {
        Ok(apdu) => Ok(show_apdu(alloc, &apdu, out)?),
        Err(ApduRefusal::Unrecognised) => Ok(out.push_str("Unrecognised")?),
        Err(ApduRefusal::MistypedApdu) => Ok(out.push_str("MistypedApdu")?),
        Err(ApduRefusal::Memory) => Err(RowFault::Memory),
    }
}

/// The first octets, with the frame of the APDU that the second ones are behind them.
pub fn write_apdu_row(alloc: Global, text: &str, out: &mut String) -> Result<(), RowFault> {
    let (front, spelt) = reading::two(text)?;
    let mut into = reading::octets(alloc, front)?;
    let tree = tree(alloc, spelt)?;
    match read_apdu(alloc, &tree) {
        Ok(apdu) => {
            write_apdu(&apdu, &mut into)?;
            Ok(show_octets(&into, out)?)
        }
        Err(ApduRefusal::Memory) => Err(RowFault::Memory),
        Err(_) => Err(RowFault::Apdu),
    }
}
