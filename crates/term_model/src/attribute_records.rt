//! The records of attributes: X.722, section 8.7.

ghost use Rattle.std.specs.Prelude.{◌≡◌, ◌∷◌, ◌++◌, [], OnErr, OnOk};
ghost use Rattle.std.specs.Option.{option_copied};
ghost use Rattle.term_model.specs.ObjectOperation.{attribute_record};

use crate::places::{Places, add_place};
use crate::schema::AttrRec;
use std::alloc::{AllocError, Global};
use std::collections::BTreeMap;
use std::marker::Model;
use term_values::Oid;

/// Attributes in the order of their documents, each found by its identifier in a time that grows with the logarithm of
/// their number.
#[derive(Drop)]
pub struct AttrRecs {
    items: Vec<AttrRec>,
    places: Places,
}

impl Model for AttrRecs {
    ghost use Rattle.std.specs.Prelude.{List, map};
    ghost use Rattle.std.specs.Coded.{codes};
    ghost use Rattle.term_values.specs.SyntaxCode.{syntax_code};
    ghost use Rattle.term_model.specs.declared.schema.AttrRec.{AttrRec};
    ghost use Rattle.term_model.specs.Places.{HasPlaces};

    ghost Value = { List AttrRec };

    ghost coded = { Prim.hlevel (codes, syntax_code) };

    ghost view = { λ list. list.items.items };

    ghost invariant = { λ list. HasPlaces list.places
        (map (λ (of_attribute : AttrRec). of_attribute.id) list.items.items) };
}

impl AttrRecs {
    /// No attributes.
    pub fn new(alloc: Global) -> AttrRecs
        ensures { result ≡ [] }
    {
        AttrRecs {
            items: Vec::new(alloc),
            places: BTreeMap::new(alloc),
        }
    }

    /// The records, in the order of their documents.
    pub fn as_slice(&self) -> &[AttrRec]
        ensures { result.now ≡ self.now }
    {
        self.items.as_slice()
    }

    /// The first record with this identifier, where there is one.
    pub fn find(&self, id: &Oid) -> Option<&AttrRec>
        ensures { option_copied result ≡ attribute_record self.now id.now }
    {
        match self.places.get(id) {
            Some(place) => self.items.get(*place),
            None => None,
        }
    }

    /// Adds a record behind the others. For want of memory nothing changes, and the record is let go.
    pub fn push(&mut self, alloc: Global, added: AttrRec) -> Result<(), AllocError>
        ensures stored { OnOk result (self.new ≡ self.old ++ added ∷ []) }
        ensures kept { OnErr result (self.new ≡ self.old) }
    {
        let id = added.id.copy(alloc)?;
        let place = self.items.len();
        self.items.push(added)?;
        match add_place(&mut self.places, id, place) {
            Ok(()) => Ok(()),
            Err(fault) => {
                self.items.pop();
                Err(fault)
            }
        }
    }
}
