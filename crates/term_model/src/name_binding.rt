//! Name bindings: X.722, section 8.6.

use std::marker::Model;
use term_values::{Bytes, Oid};

/// A class in a name binding.
#[derive(Drop)]
pub struct BoundClass {
    /// The identifier of the class.
    pub class: Oid,
    /// AND SUBCLASSES: the classes that derive from it are meant too.
    pub subclasses: bool,
}

/// CREATE: how managers may create the subordinate objects.
#[derive(Clone, Copy, Debug, PartialEq, Eq)]
pub struct CreateClause {
    /// WITH-REFERENCE-OBJECT
    pub with_reference_object: bool,
    /// WITH-AUTOMATIC-INSTANCE-NAMING
    pub with_automatic_instance_naming: bool,
}

/// DELETE: how managers may delete the subordinate objects.
#[derive(Clone, Copy, Debug, PartialEq, Eq)]
pub enum DeleteClause {
    /// ONLY-IF-NO-CONTAINED-OBJECTS
    OnlyIfNoContainedObjects,
    /// DELETES-CONTAINED-OBJECTS
    DeletesContainedObjects,
}

/// A name binding: X.722, section 8.6.
#[derive(Drop)]
pub struct BindRec {
    /// The identifier under which it is registered.
    pub id: Oid,
    /// Its label.
    pub label: Bytes,
    /// The class of the objects that it names.
    pub subordinate: BoundClass,
    /// The class of the objects below which it names them.
    pub superior: BoundClass,
    /// The identifier of the attribute by which it names them.
    pub attribute: Oid,
    /// How they may be created, where they may.
    pub create: Option<CreateClause>,
    /// How they may be deleted, where they may.
    pub delete: Option<DeleteClause>,
}

/// Name bindings in the order of their documents.
#[derive(Drop)]
pub struct BindRecs {
    /// The records.
    pub items: Vec<BindRec>,
}

impl Model for BindRecs {
    ghost use Rattle.std.specs.Prelude.{List};
    ghost use Rattle.term_model.specs.declared.name_binding.BindRec.{BindRec};

    ghost Value = { List BindRec };

    ghost view = { λ list. list.items.items };
}
