//! Identifiers of classes, attributes, actions and events: X.711, section 7.5, types ObjectClass, AttributeId,
//! ActionTypeId and EventTypeId.
#![tactic(auto, using(ber_tree::proofs::Extending::extending))]

ghost use Rattle.std.specs.Prelude.{◌≡◌, ◌++◌, OnOk, reverse};
ghost use Rattle.ber_tree.specs.Writing.{Extends};
ghost use Rattle.term_model.specs.ResultValues.{id_value};
ghost use Rattle.term_values.specs.CmipTypes.{identifier};
ghost use Rattle.term_values.specs.Written.{der};

use ber_tree::value_writing::{write_integer_backwards, write_oid_backwards};
use std::alloc::AllocError;
use term_model::IdRef;
use term_values::Tag;

/// The numbers of the tags that an identifier's globalForm and localForm have.
#[derive(Clone, Copy, Debug)]
pub struct FormTags {
    /// That of globalForm.
    pub global: u32,
    /// That of localForm.
    pub local: u32,
}

impl FormTags {
    /// Those of a class and of an attribute.
    pub const CLASS_OR_ATTRIBUTE: FormTags = FormTags {
        global: 0,
        local: 1,
    };

    /// Those of an action.
    pub const ACTION: FormTags = FormTags {
        global: 2,
        local: 3,
    };

    /// Those of an event.
    pub const EVENT: FormTags = FormTags {
        global: 6,
        local: 7,
    };
}

/// Appends an identifier under the tag of its form, the last octet first.
pub fn write_id(tags: FormTags, id: &IdRef, into: &mut Vec<u8>) -> Result<(), AllocError>
    ensures written { OnOk result
        (into.new.items ≡ into.old.items ++ reverse (der (identifier tags.global tags.local) (id_value id.now))) }
    ensures begun { Extends into.old.items into.new.items }
{
    match id {
        IdRef::Global(arcs) => write_oid_backwards(Tag::context(tags.global), arcs, into),
        IdRef::Local(number) => write_integer_backwards(Tag::context(tags.local), *number, into),
    }
}
