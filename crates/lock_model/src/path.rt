//! The unit of an operation and the path to it: docs/PROFILE.md, section 20.

ghost use Rattle.std.specs.Prelude.{◌≡◌, IfOk};
ghost use Rattle.lock_model.specs.LockPath.{IsWay, at_the_unit, on_the_way, own, tree, way_to};

use crate::lock_name::{LockName, Mode, Part};
use std::alloc::{AllocError, Global};
use std::marker::Model;
use term_model::Name;

/// The unit of an operation: the lock name that it works on, and for what.
#[derive(Drop)]
pub struct Wanted {
    /// What is read or written.
    pub unit: LockName,
    /// Whether it is written.
    pub writing: bool,
}

/// The lock names from the root's subtree down to a unit, each with the mode in which it is taken. Place 0 is the
/// root's subtree, and each further place is one level deeper.
#[derive(Drop)]
pub struct Path {
    places: Vec<(LockName, Mode)>,
}

impl Model for Path {
    ghost use Rattle.std.specs.Prelude.{List};
    ghost use Rattle.lock_model.specs.declared.lock_name.LockName.{LockName};
    ghost use Rattle.lock_model.specs.declared.lock_name.Mode.{Mode};
    ghost use Rattle.lock_model.specs.LockPath.{IsWay};

    ghost Value = { List (LockName × Mode) };

    ghost view = { λ path. path.places.items };

    ghost invariant = { λ path. IsWay path.places.items };
}

impl Path {
    /// The path to a unit: the subtrees of all superiors of its name, of a node lock also that of its own name, and
    /// then the unit. An operation that reads takes IS on the way and S at its unit, one that writes IX and X.
    pub fn to(alloc: Global, wanted: &Wanted) -> Result<Path, AllocError>
        ensures { IfOk result (λ path. path ≡ way_to wanted.now) }
    {
        let places = places_to(alloc, &wanted.unit, wanted.writing)?;
        Ok(Path { places })
    }

    /// The places in their order, each a lock name with its mode.
    pub fn places(&self) -> &[(LockName, Mode)]
        ensures places { result.now ≡ self.now }
        ensures way { IsWay self.now }
    {
        self.places.as_slice()
    }
}

/// The places to a unit that is written, or only read.
fn places_to(
    alloc: Global,
    unit: &LockName,
    writing: bool,
) -> Result<Vec<(LockName, Mode)>, AllocError>
    ensures { IfOk result (λ places. places.items ≡ way_to (record { unit = unit.now; writing = writing })) }
{
    let above = mode_above(writing);
    let mut places = Vec::new(alloc);
    let mut front = Name::root(alloc);
    for part in unit.name.parts.as_slice() {
        places.push((subtree(front.copy(alloc)?), above))?;
        front.parts.push(part.copy(alloc)?)?;
    }
    match unit.part {
        Part::Tree => places.push((subtree(front), mode_at_unit(writing)))?,
        Part::Own => {
            places.push((subtree(front.copy(alloc)?), above))?;
            places.push((node(front), mode_at_unit(writing)))?;
        }
    }
    Ok(places)
}

/// The mode on the way to a unit.
fn mode_above(writing: bool) -> Mode
    ensures { result ≡ on_the_way writing }
{
    if writing { Mode::IX } else { Mode::IS }
}

/// The mode at the unit.
fn mode_at_unit(writing: bool) -> Mode
    ensures { result ≡ at_the_unit writing }
{
    if writing { Mode::X } else { Mode::S }
}

/// The object of a name with all below it.
fn subtree(name: Name) -> LockName
    ensures { result ≡ tree name }
{
    LockName {
        name,
        part: Part::Tree,
    }
}

/// The object of a name alone.
fn node(name: Name) -> LockName
    ensures { result ≡ own name }
{
    LockName {
        name,
        part: Part::Own,
    }
}
