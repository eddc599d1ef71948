//! From a line to its answers.

use crate::row_names::{add_name, class_of, name_of};
use crate::row_scopes::answer_scope;
use mo_list::ListMib;
use object_maps::ObjectMap;
use std::alloc::{AllocError, Global};
use term_model::{Attrs, Name, Object, Oids, Ranged, StepLedger, Steps};

/// An object that is told by the last arc of its class.
fn object_of(alloc: Global, mark: u8) -> Result<Object, AllocError> {
    Ok(Object {
        class: class_of(alloc, mark)?,
        binding: None,
        chosen: Oids {
            items: Vec::new(alloc),
        },
        attrs: Attrs {
            items: Vec::new(alloc),
        },
    })
}

/// Adds the mark of an object.
fn add_mark(alloc: Global, out: &mut String, object: &Object) -> Result<(), AllocError> {
    let mark = match object.class.arcs().last() {
        Some(arc) => *arc,
        None => 0,
    };
    let digits = format!(in alloc; "{}", mark)?;
    out.push_str(digits.as_str())
}

/// What is printed for an answer of `put` or `take_out`.
fn shown(had: bool) -> &'static str {
    if had { "there" } else { "not there" }
}

/// Adds the answer to `put`.
fn answer_put<L: StepLedger>(
    alloc: Global,
    out: &mut String,
    map: &mut ListMib<L>,
    mark: u8,
    name: Name,
    steps: &mut Steps<L>,
) -> Result<(), AllocError> {
    match map.put(alloc, name, object_of(alloc, mark)?, steps) {
        Ok(had) => out.push_str(shown(had)),
        Err(_) => Err(AllocError),
    }
}

/// Adds the answer to `at`: the object's mark.
fn answer_at<L: StepLedger>(
    alloc: Global,
    out: &mut String,
    map: &ListMib<L>,
    name: &Name,
    steps: &mut Steps<L>,
) -> Result<(), AllocError> {
    match map.at(name, steps) {
        Some(object) => add_mark(alloc, out, object),
        None => out.push_str("none"),
    }
}

/// Adds the answer to `after`: the name and the object's mark.
fn answer_after<L: StepLedger>(
    alloc: Global,
    out: &mut String,
    map: &ListMib<L>,
    name: &Name,
    steps: &mut Steps<L>,
) -> Result<(), AllocError> {
    match map.after(name, steps) {
        Some((next, object)) => {
            add_name(alloc, out, next)?;
            out.push_str(":")?;
            add_mark(alloc, out, object)
        }
        None => out.push_str("none"),
    }
}

/// Adds the answer to a call with a name: `put`, `take`, `at` or `after`.
fn answer_named<L: StepLedger>(
    alloc: Global,
    out: &mut String,
    map: &mut ListMib<L>,
    mark: u8,
    call: &str,
    name: Name,
    steps: &mut Steps<L>,
) -> Result<(), AllocError> {
    match call {
        "put" => answer_put(alloc, out, map, mark, name, steps),
        "take" => out.push_str(shown(map.take_out(alloc, &name, steps)?)),
        "at" => answer_at(alloc, out, map, &name, steps),
        _ => answer_after(alloc, out, map, &name, steps),
    }
}

/// Adds the answer to a call: `put`, `take`, `at` and `after` with a name, `len`, and the names in a scope. The object
/// that is put is marked by its place in the line.
fn answer_call<L: StepLedger>(
    alloc: Global,
    out: &mut String,
    map: &mut ListMib<L>,
    mark: u8,
    word: &str,
    steps: &mut Steps<L>,
) -> Result<(), AllocError> {
    let (call, words) = word.split_once(':').unwrap_or((word, ""));
    match call {
        "len" => {
            let digits = format!(in alloc; "{}", map.len())?;
            out.push_str(digits.as_str())
        }
        "put" | "take" | "at" | "after" => match name_of(alloc, words)? {
            None => out.push_str("no such name"),
            Some(name) => answer_named(alloc, out, map, mark, call, name, steps),
        },
        _ => answer_scope(alloc, out, map, call, words, steps),
    }
}

/// The answers to the calls of a row. A word `share` keeps a second map as it is then, and `other` turns to that one.
fn answer_row<L: StepLedger>(
    alloc: Global,
    row: &str,
    steps: &mut Steps<L>,
) -> Result<String, AllocError> {
    let mut out = String::new(alloc);
    let mut map = ListMib::empty();
    let mut second = ListMib::empty();
    let mut mark: u8 = 0;
    for word in row.split(' ') {
        mark = mark.saturating_add(1);
        if word == "share" {
            second = map.share()?;
        } else if word == "other" {
            std::mem::swap(&mut map, &mut second);
        } else {
            answer_call(alloc, &mut out, &mut map, mark, word, steps)?;
            out.push_str(";")?;
        }
    }
    Ok(out)
}

/// What is printed for a line.
pub fn answer_line<L: StepLedger>(
    alloc: Global,
    line: &str,
    steps: &mut Steps<L>,
) -> Result<String, AllocError> {
    if line.is_empty() || line.starts_with('#') {
        String::from_str(alloc, line)
    } else {
        answer_row(alloc, line, steps)
    }
}
