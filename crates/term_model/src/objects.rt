//! The objects of the system: a finite map from names to objects.

ghost use Rattle.std.specs.Prelude.{◌≡◌, ◌<◌, ◌≤◌, ◌++◌, [], OnErr, OnOk, drop, false, length, slice_get, Some, take};
ghost use Rattle.std.specs.Option.{option_copied};
ghost use Rattle.std.specs.Ordering.{is_gt};
ghost use Rattle.term_model.specs.declared.objects.NamedObject.{NamedObject};
ghost use Rattle.term_model.specs.NameOrder.{name_cmp};
ghost use Rattle.term_model.specs.NamedObjects.{IsByName, is_named_at, object_at, stored};

use crate::name::Name;
use crate::object::Object;
use std::alloc::{AllocError, Global};
use std::cmp::Ordering;
use std::marker::Model;

/// An object under its name relative to the root.
#[derive(Drop)]
pub struct NamedObject {
    /// Its name.
    pub name: Name,
    /// The object itself.
    pub object: Object,
}

/// Objects by rising name, each name once.
#[derive(Drop)]
pub struct Objects {
    items: Vec<NamedObject>,
}

impl Model for Objects {
    ghost use Rattle.std.specs.Prelude.{List};
    ghost use Rattle.std.specs.Coded.{codes};
    ghost use Rattle.term_values.specs.Typed.{value_code};
    ghost use Rattle.term_model.specs.declared.objects.NamedObject.{NamedObject};
    ghost use Rattle.term_model.specs.NamedObjects.{IsByName};

    ghost Value = { List NamedObject };

    ghost coded = { Prim.hlevel (codes, value_code) };

    ghost view = { λ objects. objects.items.items };

    ghost invariant = { λ objects. IsByName objects.items.items };
}

impl Objects {
    /// No objects.
    pub fn new(alloc: Global) -> Objects
        ensures { result ≡ [] }
    {
        Objects {
            items: Vec::new(alloc),
        }
    }

    /// The objects by rising name.
    pub fn as_slice(&self) -> &[NamedObject]
        ensures objects { result.now ≡ self.now }
        ensures rising { IsByName self.now }
    {
        self.items.as_slice()
    }

    /// The object with this name, where there is one.
    pub fn find(&self, name: &Name) -> Option<&Object>
        ensures { option_copied result ≡ object_at self.now name.now }
    {
        find_in(self.items.as_slice(), name)
    }

    /// Stores an object under its name, in place of the one that had the name. For want of memory nothing changes, and
    /// the object is let go.
    pub fn store(&mut self, entry: NamedObject) -> Result<(), AllocError>
        ensures stored { OnOk result (self.new ≡ stored entry self.old) }
        ensures kept { OnErr result (self.new ≡ self.old) }
    {
        let at = place_of(self.items.as_slice(), &entry.name);
        if has_name_at(self.items.as_slice(), at, &entry.name) {
            self.items[at] = entry;
            return Ok(());
        }
        self.items.insert(at, entry)?;
        Ok(())
    }
}

/// Whether there is an entry at an index, and has this name.
fn has_name_at(entries: &[NamedObject], at: usize, name: &Name) -> bool
    ensures { result ≡ is_named_at entries.now at name.now }
{
    match entries.get(at) {
        Some(entry) => name.cmp(&entry.name) == Ordering::Equal,
        None => false,
    }
}

/// Whether an entry of this name stands behind another one.
fn is_behind(name: &Name, entry: &NamedObject) -> bool
    ensures { result ≡ is_gt (name_cmp name.now entry.now.name) }
{
    name.cmp(&entry.name) == Ordering::Greater
}

/// The object with this name among these.
fn find_in<'a>(entries: &'a [NamedObject], name: &Name) -> Option<&'a Object>
    ensures { option_copied result ≡ object_at entries.now name.now }
{
    for entry in entries {
        if entry.name == *name {
            return Some(&entry.object);
        }
    }
    None
}

/// How many entries stand in front of one of this name.
fn place_of(entries: &[NamedObject], name: &Name) -> usize
    ensures within { result ≤ length entries.now }
    ensures front { (entry : NamedObject) → entry.name ≡ name.now
        → stored entry entries.now ≡ take result entries.now ++ stored entry (drop result entries.now) }
    ensures stops { (entry : NamedObject) → slice_get entries.now result ≡ Some entry
        → is_gt (name_cmp name.now entry.name) ≡ false }
{
    for (at, entry) in entries.iter().enumerate() {
        if !is_behind(name, entry) {
            return at;
        }
    }
    entries.len()
}
