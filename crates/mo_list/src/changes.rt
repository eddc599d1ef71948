//! Changes of a shared list of shared entries.

ghost use Rattle.std.specs.Prelude.{◌≡◌, ◌<◌, ◌≤◌, IfErr, IfOk, IsTrue, OnErr, OnOk, if◌then◌else◌, insert, length};
ghost use Rattle.std.specs.Prelude.{remove, slice_set};
ghost use Rattle.std.specs.Arc.{arc_value};
ghost use Rattle.mo_list.specs.Entries.{objects_in, objects_of};

use std::alloc::{AllocError, Global};
use std::sync::Arc;
use term_model::NamedObject;

/// The same references again.
fn copied(alloc: Global, entries: &[Arc<NamedObject>]) -> Result<Vec<Arc<NamedObject>>, AllocError>
    ensures { IfOk result (λ copies. objects_in copies.items ≡ objects_in entries.now) }
{
    let mut copies = Vec::new(alloc);
    for entry in entries {
        copies.push(Arc::try_clone(entry)?)?;
    }
    Ok(copies)
}

/// Makes the list one that nobody else shares: a new one where there is none, and a copy where it is shared.
fn own(list: &mut Option<Arc<Vec<Arc<NamedObject>>>>, alloc: Global) -> Result<(), AllocError>
    ensures { objects_of list.new ≡ objects_of list.old }
{
    match list {
        None => {
            *list = Some(Arc::new(alloc, Vec::new(alloc))?);
        }
        Some(shared) => {
            if Arc::strong_count(shared) != 1 {
                let copies = copied(alloc, shared.as_slice())?;
                *shared = Arc::new(alloc, copies)?;
            }
        }
    }
    Ok(())
}

/// Writes an entry at an index, in place of the one there or in front of it. For want of memory it is handed back.
fn write_entry(
    entries: &mut Vec<Arc<NamedObject>>,
    alloc: Global,
    at: usize,
    had: bool,
    entry: NamedObject,
) -> Result<(), NamedObject>
    requires within { at ≤ length entries.old.items }
    requires there { IsTrue had → at < length entries.old.items }
    ensures written { OnOk result (objects_in entries.new.items
        ≡ (if had then slice_set (objects_in entries.old.items) at entry
        else insert (objects_in entries.old.items) at entry)) }
    ensures kept { OnErr result (objects_in entries.new.items ≡ objects_in entries.old.items) }
    ensures back { IfErr result (λ back. back ≡ entry) }
{
    if entries.reserve(1).is_err() {
        return Err(entry);
    }
    let shared = match Arc::new(alloc, entry) {
        Ok(shared) => shared,
        Err(failed) => return Err(failed.value),
    };
    if had {
        entries[at] = shared;
        return Ok(());
    }
    match entries.insert(at, shared) {
        Ok(()) => Ok(()),
        Err(_) => unreachable!(),
    }
}

/// The same in a list that may be missing or shared.
pub fn add_entry(
    list: &mut Option<Arc<Vec<Arc<NamedObject>>>>,
    alloc: Global,
    at: usize,
    had: bool,
    entry: NamedObject,
) -> Result<(), NamedObject>
    requires within { at ≤ length (objects_of list.old) }
    requires there { IsTrue had → at < length (objects_of list.old) }
    ensures written { OnOk result (objects_of list.new
        ≡ (if had then slice_set (objects_of list.old) at entry
        else insert (objects_of list.old) at entry)) }
    ensures kept { OnErr result (objects_of list.new ≡ objects_of list.old) }
    ensures back { IfErr result (λ back. back ≡ entry) }
{
    if own(list, alloc).is_err() {
        return Err(entry);
    }
    match list {
        None => Err(entry),
        Some(shared) => match Arc::get_mut(shared) {
            None => Err(entry),
            Some(entries) => write_entry(entries, alloc, at, had, entry),
        },
    }
}

/// Takes the entry at an index out of a list that may be shared. For want of memory it is as it was.
pub fn drop_entry(
    list: &mut Option<Arc<Vec<Arc<NamedObject>>>>,
    alloc: Global,
    at: usize,
) -> Result<(), AllocError>
    requires { at < length (objects_of list.old) }
    ensures dropped { OnOk result (objects_of list.new ≡ remove (objects_of list.old) at) }
    ensures kept { OnErr result (objects_of list.new ≡ objects_of list.old) }
{
    own(list, alloc)?;
    match list {
        None => Err(AllocError),
        Some(shared) => match Arc::get_mut(shared) {
            None => Err(AllocError),
            Some(entries) => {
                let _ = entries.remove(at);
                Ok(())
            }
        },
    }
}
