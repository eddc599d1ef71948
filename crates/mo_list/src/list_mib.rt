//! The map as a list of shared entries by rising name, which is itself shared.

ghost use Rattle.std.specs.Prelude.{◌≡◌, [], IfErr, IfOk, OnErr, OnOk, is_some, length};
ghost use Rattle.term_model.specs.NamedObjects.{IsByName, object_at, removed, stored};
ghost use Rattle.term_model.specs.StepCounts.{IsOneCall};
ghost use Rattle.mo_list.specs.Entries.{objects_in, objects_of};

use crate::changes::{add_entry, drop_entry};
use crate::places::{has_name_at, place_of, subtree_in};
use object_maps::{Back, ObjectMap};
use scope_select::Subtrees;
use std::alloc::{AllocError, Global};
use std::marker::{Model, PhantomData};
use std::sync::Arc;
use term_model::{Name, NamedObject, Object, Ranged, StepLedger, Steps};

/// A finite map from names to objects. Sharing it copies one reference. Where an object is put into a list that is shared,
/// or taken out, the list of references is copied, and else the references behind the place are moved.
#[derive(Drop)]
pub struct ListMib<L: StepLedger> {
    entries: Option<Arc<Vec<Arc<NamedObject>>>>,
    ledger: PhantomData<L>,
}

impl<L: StepLedger> Model for ListMib<L> {
    ghost use Rattle.std.specs.Prelude.{List};
    ghost use Rattle.std.specs.Coded.{codes};
    ghost use Rattle.term_values.specs.Typed.{value_code};
    ghost use Rattle.term_model.specs.declared.objects.NamedObject.{NamedObject};
    ghost use Rattle.term_model.specs.NamedObjects.{IsByName};
    ghost use Rattle.mo_list.specs.Entries.{objects_of};

    ghost Value = { List NamedObject };

    ghost coded = { Prim.hlevel (codes, value_code) };

    ghost view = { λ map. objects_of map.entries };

    ghost invariant = { λ map. IsByName (objects_of map.entries) };
}

/// The entries of a list that may be missing.
fn entries_of(list: &Option<Arc<Vec<Arc<NamedObject>>>>) -> &[Arc<NamedObject>]
    ensures { objects_in result.now ≡ objects_of list.now }
{
    match list {
        None => &[],
        Some(list) => list.as_slice(),
    }
}

impl<L: StepLedger> ObjectMap<L> for ListMib<L> {
    fn empty() -> ListMib<L> {
        ListMib {
            entries: None,
            ledger: PhantomData,
        }
    }

    fn len(&self) -> u64 {
        entries_of(&self.entries).len() as u64
    }

    fn put(
        &mut self,
        alloc: Global,
        name: Name,
        object: Object,
        steps: &mut Steps<L>,
    ) -> Result<bool, Back> {
        let entries = entries_of(&self.entries);
        let at = place_of(entries, &name, steps);
        let had = has_name_at(entries, at, &name, steps);
        match add_entry(
            &mut self.entries,
            alloc,
            at,
            had,
            NamedObject { name, object },
        ) {
            Ok(()) => {}
            Err(NamedObject { name, object }) => return Err(Back { name, object }),
        }
        Ok(had)
    }

    fn take_out(
        &mut self,
        alloc: Global,
        name: &Name,
        steps: &mut Steps<L>,
    ) -> Result<bool, AllocError> {
        let entries = entries_of(&self.entries);
        let at = place_of(entries, name, steps);
        let had = has_name_at(entries, at, name, steps);
        if had {
            drop_entry(&mut self.entries, alloc, at)?;
        }
        Ok(had)
    }

    fn share(&self) -> Result<ListMib<L>, AllocError> {
        let entries = match &self.entries {
            None => None,
            Some(list) => Some(Arc::try_clone(list)?),
        };
        Ok(ListMib {
            entries,
            ledger: PhantomData,
        })
    }
}

impl<L: StepLedger> Ranged<L> for ListMib<L> {
    ghost objects = { λ map. map };

    fn at(&self, name: &Name, steps: &mut Steps<L>) -> Option<&Object> {
        let entries = entries_of(&self.entries);
        let at = place_of(entries, name, steps);
        if has_name_at(entries, at, name, steps) {
            return Some(&entries[at].object);
        }
        None
    }

    fn after(&self, name: &Name, steps: &mut Steps<L>) -> Option<(&Name, &Object)> {
        let entries = entries_of(&self.entries);
        let at = place_of(entries, name, steps);
        let next = at + usize::from(has_name_at(entries, at, name, steps));
        if next < entries.len() {
            let entry = &entries[next];
            return Some((&entry.name, &entry.object));
        }
        None
    }
}

impl<L: StepLedger> Subtrees<L> for ListMib<L> {
    fn entry(&self, name: &Name, steps: &mut Steps<L>) -> Option<&NamedObject> {
        let entries = entries_of(&self.entries);
        let at = place_of(entries, name, steps);
        if has_name_at(entries, at, name, steps) {
            return Some(&entries[at]);
        }
        None
    }

    fn subtree(
        &self,
        alloc: Global,
        base: &Name,
        steps: &mut Steps<L>,
    ) -> Result<Vec<&NamedObject>, AllocError> {
        subtree_in(alloc, entries_of(&self.entries), base, steps)
    }
}
