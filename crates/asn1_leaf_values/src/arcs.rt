//! The arcs of an object identifier (X.680, section 32.3; X.660, annex A).

ghost use Rattle.std.specs.Prelude.{◌≡◌, ◌∷◌, [], ◌++◌, true, IfOk, OnOk, Some, None, map, option_map, codes};
ghost use Rattle.std.specs.Prelude.{List, ℕ, option_and_then, if◌then◌else◌};
ghost use Rattle.std.specs.List.{list_all};
ghost use Rattle.term_values.specs.Oid.{is_arc};
ghost use Rattle.asn1_leaf_values.specs.Arcs.{first_arc, first_arcs, arc_number, arc_numbers, alone_said, arcs_said};
ghost use Rattle.asn1_leaf_values.specs.Arcs.{behind_first_name, where_arcs};
ghost use Rattle.asn1_leaf_values.specs.FirstNames.{arcs_named, with_name};
ghost use Rattle.asn1_leaf_values.specs.TextValues.{arc_digits, arcs_digits, said, said_name, said_value};

use super::leaf_values::{part_name, part_value};
use super::numbers::{read_arc_number, same_name};
use asn1_values_syntax::value::{BracesText, NamedValue, ValuePart, ValueText};
use asn1_values_syntax::{SignedNumber, SureArcs};
use indexmap::IndexMap;
use std::alloc::{AllocError, Global};
use std::marker::Model;
use token_grammar::Token;
use token_grammar::object_identifier::Arc;

/// Arcs in their order.
#[derive(Drop)]
pub struct ArcList {
    pub items: Vec<u32>,
}

impl Model for ArcList {
    ghost use Rattle.std.specs.Prelude.{ℕ, List};

    ghost Value = { List ℕ };

    ghost view = { λ arcs. arcs.items.items };
}

impl ArcList {
    /// A copy of these arcs.
    fn copy(&self, alloc: Global) -> Result<ArcList, AllocError>
        ensures same { IfOk result (λ arcs. arcs ≡ self.now) }
        ensures numbers { OnOk result (list_all is_arc self.now ≡ true) }
    {
        let items = self.items.as_slice();
        Ok(ArcList {
            items: Vec::from_slice(alloc, items)?,
        })
    }
}

/// Names that modules define, with which object identifiers begin, and the arcs for which they stand. A name that the
/// standard has is none of them.
pub type FirstNames<'a> = IndexMap<&'a [u8], ArcList>;

/// Adds a name, unless it is there.
pub fn add_first_name<'a>(
    names: &mut FirstNames<'a>,
    name: &'a [u8],
    arcs: ArcList,
) -> Result<(), AllocError>
    ensures { OnOk result ((other : List ℕ) → arcs_named names.new other
        ≡ with_name (arcs_named names.old) name.now arcs other) }
{
    if names.get(name).is_none() {
        names.insert(name, arcs)?;
    }
    Ok(())
}

/// The number of a first arc that the standard names.
fn first_arc(name: &[u8]) -> Option<u32>
    ensures { result ≡ first_arc name.now }
{
    if same_name(name, b"itu-t") || same_name(name, b"ccitt") {
        return Some(0);
    }
    if same_name(name, b"iso") {
        return Some(1);
    }
    if same_name(name, b"joint-iso-itu-t") || same_name(name, b"joint-iso-ccitt") {
        return Some(2);
    }
    None
}

/// The digits of an arc.
fn digits_of(arc: &Arc) -> &[u8]
    ensures { result.now ≡ arc_digits arc.now }
{
    match arc {
        Arc::Number(number) => number.text.as_slice(),
        Arc::Named { number, .. } => number.text.as_slice(),
    }
}

/// These arcs and one more.
fn with_arc(mut arcs: ArcList, digits: &[u8]) -> Result<Option<ArcList>, AllocError>
    ensures { IfOk result (λ found. option_map (λ n. arcs ++ n ∷ []) (arc_number digits.now) ≡ found) }
{
    match read_arc_number(digits) {
        None => Ok(None),
        Some(number) => {
            arcs.items.push(number)?;
            Ok(Some(arcs))
        }
    }
}

/// These arcs and others.
fn with_arcs(mut arcs: ArcList, others: &[Arc]) -> Result<Option<ArcList>, AllocError>
    ensures { IfOk result (λ found.
        option_map (λ ns. arcs ++ ns) (arc_numbers (map arc_digits others.now)) ≡ found) }
{
    for arc in others {
        match read_arc_number(digits_of(arc)) {
            None => return Ok(None),
            Some(number) => arcs.items.push(number)?,
        }
    }
    Ok(Some(arcs))
}

/// These arcs and those that can't be parts.
fn with_sure_arcs(arcs: ArcList, sure: &SureArcs) -> Result<Option<ArcList>, AllocError>
    ensures { IfOk result (λ found.
        option_map (λ ns. arcs ++ ns) (arc_numbers (arcs_digits sure.now)) ≡ found) }
{
    match sure {
        SureArcs::Named { first, others } => {
            match with_arc(arcs, first.number.text.as_slice())? {
                None => Ok(None),
                Some(arcs) => with_arcs(arcs, others),
            }
        }
        SureArcs::Number {
            first,
            second,
            others,
        } => match with_arc(arcs, first.text.as_slice())? {
            None => Ok(None),
            Some(arcs) => match with_arc(arcs, digits_of(second))? {
                None => Ok(None),
                Some(arcs) => with_arcs(arcs, others),
            },
        },
    }
}

/// The arcs that a module gives a name.
fn defined_arcs(
    alloc: Global,
    names: &FirstNames,
    name: &[u8],
) -> Result<Option<ArcList>, AllocError>
    ensures { IfOk result (λ found. option_and_then where_arcs (arcs_named names.now name.now) ≡ found) }
{
    match names.get(name) {
        None => Ok(None),
        Some(arcs) => {
            let copy = arcs.copy(alloc)?;
            Ok(Some(copy))
        }
    }
}

/// One arc.
fn one_arc(alloc: Global, number: u32) -> Result<ArcList, AllocError>
    ensures { IfOk result (λ arcs. arcs ≡ number ∷ []) }
{
    let mut items = Vec::new(alloc);
    items.push(number)?;
    Ok(ArcList { items })
}

/// The arcs that a first name stands for.
fn begun_by(alloc: Global, names: &FirstNames, name: &[u8]) -> Result<Option<ArcList>, AllocError>
    ensures { IfOk result (λ found. first_arcs (arcs_named names.now) name.now ≡ found) }
{
    match first_arc(name) {
        None => defined_arcs(alloc, names, name),
        Some(number) => Ok(Some(one_arc(alloc, number)?)),
    }
}

/// The arcs of `{name number}`.
fn numbered_arcs(
    alloc: Global,
    names: &FirstNames,
    name: &[u8],
    number: &Token,
) -> Result<Option<ArcList>, AllocError>
    ensures { IfOk result (λ found. behind_first_name (arcs_named names.now) (Some name.now)
        (arc_numbers (number.now.text ∷ [])) ≡ found) }
{
    match begun_by(alloc, names, name)? {
        None => Ok(None),
        Some(arcs) => with_arc(arcs, number.text.as_slice()),
    }
}

/// The arcs of `{name number}` and `{name}`, which are kept as lists of one part.
fn alone_arcs(
    alloc: Global,
    names: &FirstNames,
    part: &ValuePart,
) -> Result<Option<ArcList>, AllocError>
    ensures { IfOk result (λ found.
        alone_said (arcs_named names.now) (said_value part.now) (said_name part.now) ≡ found) }
{
    match part_value(part) {
        ValueText::Number(
            SignedNumber {
                minus: None,
                number,
            },
        ) => numbered_arcs(alloc, names, part_name(part), number),
        ValueText::Named(NamedValue::Name(name)) => {
            if part_name(part).is_empty() {
                return begun_by(alloc, names, name.text.as_slice());
            }
            Ok(None)
        }
        _ => Ok(None),
    }
}

/// The arcs that a text says.
pub fn read_arcs(
    alloc: Global,
    names: &FirstNames,
    text: &ValueText,
) -> Result<Option<ArcList>, AllocError>
    ensures { IfOk result (λ found. arcs_said (arcs_named names.now) (said text.now) ≡ found) }
{
    let ValueText::Braces { content, .. } = text else {
        return Ok(None);
    };
    match content {
        BracesText::Nothing => Ok(None),
        BracesText::Arcs(sure) => {
            let items = Vec::new(alloc);
            with_sure_arcs(ArcList { items }, sure)
        }
        BracesText::NamedArcs { first, others } => {
            match begun_by(alloc, names, first.text.as_slice())? {
                None => Ok(None),
                Some(arcs) => with_sure_arcs(arcs, others),
            }
        }
        BracesText::Parts(parts) => {
            let parts = parts.as_slice();
            if parts.len() != 1 {
                return Ok(None);
            }
            alone_arcs(alloc, names, &parts[0])
        }
    }
}
