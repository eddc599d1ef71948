//! The names in scope: `KIND:NUMBER:BASE`, or `KIND:NUMBER:BASE:LIMIT` where the limit isn't 100. The kinds are `plain`
//! for baseObject 0, firstLevelOnly 1 and wholeSubtree 2, `level` for individualLevels and `upto` for baseToNthLevel.

use crate::row_names::{add_names, name_of};
use mo_list::ListMib;
use scope_select::{ScopeRefusal, entries_in_scope, in_scope};
use std::alloc::{AllocError, Global};
use term_model::{Name, NamedObject, Names, Scope, StepLedger, Steps};

/// The limit of a row that names none.
const LIMIT: &str = "100";

/// The scope of a kind and its number, or none.
fn scope_of(kind: &str, digits: &str) -> Option<Scope> {
    match digits.parse::<i64>() {
        Err(_) => None,
        Ok(number) => match kind {
            "plain" => Some(Scope::Plain(number)),
            "level" => Some(Scope::Level(number)),
            "upto" => Some(Scope::Upto(number)),
            _ => None,
        },
    }
}

/// Whether these objects have these names, in this order.
fn have_names(entries: &[&NamedObject], names: &[Name]) -> bool {
    if entries.len() != names.len() {
        return false;
    }
    for (at, name) in names.iter().enumerate() {
        match entries.get(at) {
            None => return false,
            Some(entry) => {
                if entry.name != *name {
                    return false;
                }
            }
        }
    }
    true
}

/// Adds the names in scope, where the objects in scope have the same.
fn add_found<L: StepLedger>(
    alloc: Global,
    out: &mut String,
    map: &ListMib<L>,
    base: &Name,
    scope: &Scope,
    limit: u64,
    names: &Names,
    steps: &mut Steps<L>,
) -> Result<(), AllocError> {
    match entries_in_scope(alloc, map, base, scope, limit, steps) {
        Ok(entries) => {
            if have_names(entries.as_slice(), names.items.as_slice()) {
                add_names(alloc, out, names)
            } else {
                out.push_str("other objects")
            }
        }
        Err(ScopeRefusal::TooMany) => out.push_str("too many objects"),
        Err(ScopeRefusal::Memory) => Err(AllocError),
    }
}

/// Adds that too many names are in scope, where too many objects are.
fn add_many<L: StepLedger>(
    alloc: Global,
    out: &mut String,
    map: &ListMib<L>,
    base: &Name,
    scope: &Scope,
    limit: u64,
    steps: &mut Steps<L>,
) -> Result<(), AllocError> {
    match entries_in_scope(alloc, map, base, scope, limit, steps) {
        Ok(_) => out.push_str("not too many objects"),
        Err(ScopeRefusal::TooMany) => out.push_str("too many"),
        Err(ScopeRefusal::Memory) => Err(AllocError),
    }
}

/// Adds the names in scope, or why there are none.
fn add_reached<L: StepLedger>(
    alloc: Global,
    out: &mut String,
    map: &ListMib<L>,
    base: &Name,
    scope: &Scope,
    limit: u64,
    steps: &mut Steps<L>,
) -> Result<(), AllocError> {
    match in_scope(alloc, map, base, scope, limit, steps) {
        Ok(names) => add_found(alloc, out, map, base, scope, limit, &names, steps),
        Err(ScopeRefusal::TooMany) => add_many(alloc, out, map, base, scope, limit, steps),
        Err(ScopeRefusal::Memory) => Err(AllocError),
    }
}

/// Adds the answer for a kind of scope and what stands behind it.
pub fn answer_scope<L: StepLedger>(
    alloc: Global,
    out: &mut String,
    map: &ListMib<L>,
    kind: &str,
    words: &str,
    steps: &mut Steps<L>,
) -> Result<(), AllocError> {
    let (digits, behind) = words.split_once(':').unwrap_or((words, ""));
    let (text, last) = behind.split_once(':').unwrap_or((behind, LIMIT));
    let limit = last.parse::<u64>().unwrap_or(0);
    match scope_of(kind, digits) {
        None => out.push_str("no such call"),
        Some(scope) => match name_of(alloc, text)? {
            None => out.push_str("no such name"),
            Some(base) => add_reached(alloc, out, map, &base, &scope, limit, steps),
        },
    }
}
