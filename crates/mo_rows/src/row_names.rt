//! The names that rows have: `root`, or the numbers of the parts, each an elementId, with full stops between them.

use std::alloc::{AllocError, Global};
use term_model::{Name, Names, Rdn};
use term_values::{Bytes, Oid};

/// What the identifiers of classes have before their last arc.
const CLASSES: u32 = 3;

/// What the identifiers of attributes have before their last arc.
const ATTRIBUTES: u32 = 7;

/// The last arc of elementId, which names objects.
const ELEMENT_ID: u32 = 1;

/// The identifier {2 999 kind number}.
fn identifier_of(alloc: Global, kind: u32, number: u32) -> Result<Oid, AllocError> {
    match Oid::from_arcs(vec![in alloc; 2, 999, kind, number]?) {
        Some(oid) => Ok(oid),
        None => Err(AllocError),
    }
}

/// The identifier of a class with this last arc.
pub fn class_of(alloc: Global, arc: u8) -> Result<Oid, AllocError> {
    identifier_of(alloc, CLASSES, u32::from(arc))
}

/// The part of a number: its value is the INTEGER.
fn part_of(alloc: Global, number: u8) -> Result<Rdn, AllocError> {
    let attribute = identifier_of(alloc, ATTRIBUTES, ELEMENT_ID)?;
    let value = Bytes::from_slice(alloc, &[2, 1, number])?;
    Ok(Rdn { attribute, value })
}

/// The name that a text spells, or none.
pub fn name_of(alloc: Global, text: &str) -> Result<Option<Name>, AllocError> {
    let mut parts = Vec::new(alloc);
    if text == "root" {
        return Ok(Some(Name { parts }));
    }
    for word in text.split('.') {
        match word.parse::<u8>() {
            Ok(number) => parts.push(part_of(alloc, number)?)?,
            Err(_) => return Ok(None),
        }
    }
    Ok(Some(Name { parts }))
}

/// The number of a part.
fn number_of(part: &Rdn) -> u8 {
    match part.value.items.last() {
        Some(octet) => *octet,
        None => 0,
    }
}

/// Adds the text of a name.
pub fn add_name(alloc: Global, out: &mut String, name: &Name) -> Result<(), AllocError> {
    if name.parts.is_empty() {
        return out.push_str("root");
    }
    for (i, part) in name.parts.iter().enumerate() {
        if i > 0 {
            out.push_str(".")?;
        }
        let number = format!(in alloc; "{}", number_of(part))?;
        out.push_str(number.as_str())?;
    }
    Ok(())
}

/// Adds the texts of names with commas between them.
pub fn add_names(alloc: Global, out: &mut String, names: &Names) -> Result<(), AllocError> {
    if names.items.is_empty() {
        return out.push_str("no name");
    }
    for (i, name) in names.items.iter().enumerate() {
        if i > 0 {
            out.push_str(",")?;
        }
        add_name(alloc, out, name)?;
    }
    Ok(())
}
