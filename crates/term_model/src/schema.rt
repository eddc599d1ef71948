//! The records that documents define: X.722.

use crate::actions::{ActRecs, NoteRecs};
use crate::attribute_records::AttrRecs;
use crate::class_records::ClassRecs;
use crate::name::Name;
use crate::name_binding::BindRecs;
use crate::object::{Attrs, Oids};
use crate::packages::{PackageRecs, Properties};
use crate::rule::RuleRecs;
use std::marker::Model;
use term_values::{Bytes, Oid, Rules, Syntax};

/// An attribute: X.722, section 8.7. One that is derived has the syntax of its base and the rules of the whole chain.
#[derive(Drop)]
pub struct AttrRec {
    /// The identifier under which it is registered.
    pub id: Oid,
    /// Its label.
    pub label: Bytes,
    /// The syntax of its values.
    pub syntax: Syntax,
    /// The rules by which its values match.
    pub rules: Rules,
}

/// An attribute group: X.722, section 8.8.
#[derive(Drop)]
pub struct GroupRec {
    /// The identifier under which it is registered.
    pub id: Oid,
    /// Its label.
    pub label: Bytes,
    /// The attributes of GROUP ELEMENTS.
    pub members: Oids,
    /// FIXED: no use adds a member.
    pub fixed: bool,
}

/// Attribute groups in the order of their documents.
#[derive(Drop)]
pub struct GroupRecs {
    /// The records.
    pub items: Vec<GroupRec>,
}

impl Model for GroupRecs {
    ghost use Rattle.std.specs.Prelude.{List};
    ghost use Rattle.term_model.specs.declared.schema.GroupRec.{GroupRec};

    ghost Value = { List GroupRec };

    ghost view = { λ list. list.items.items };
}

/// A managed object class: X.722, section 8.3.
#[derive(Drop)]
pub struct ClassRec {
    /// The identifier under which it is registered.
    pub id: Oid,
    /// Its label.
    pub label: Bytes,
    /// The classes of DERIVED FROM, its direct superclasses.
    pub superclasses: Oids,
    /// The packages of CHARACTERIZED BY, which each object of the class has.
    pub mandatory: PackageRecs,
    /// The packages of CONDITIONAL PACKAGES, which an object has where its creation names them.
    pub conditional: PackageRecs,
    /// The properties of each attribute, joined over all packages of the class and of the classes from which it
    /// derives.
    pub properties: Properties,
}

/// An object that is there at the opening; INSTANCES sections are this project's own.
#[derive(Drop)]
pub struct InstRec {
    /// It stands behind ROOT.
    pub root: bool,
    /// The identifier of its class.
    pub class: Oid,
    /// Its name relative to the root; empty for the root.
    pub name: Name,
    /// The values behind WITH, in their order; the one by which it is named only where it stands there too.
    pub given: Attrs,
    /// The packages behind PACKAGES; the opening judges whether they are conditional ones of its class.
    pub chosen: Oids,
}

/// Objects at the opening in the order of their documents, superiors first.
#[derive(Drop)]
pub struct InstRecs {
    /// The records.
    pub items: Vec<InstRec>,
}

impl Model for InstRecs {
    ghost use Rattle.std.specs.Prelude.{List};
    ghost use Rattle.std.specs.Coded.{codes};
    ghost use Rattle.term_values.specs.Typed.{value_code};
    ghost use Rattle.term_model.specs.declared.schema.InstRec.{InstRec};

    ghost Value = { List InstRec };

    ghost coded = { Prim.hlevel (codes, value_code) };

    ghost view = { λ list. list.items.items };
}

/// The system's own distinguished name, which is the root's.
pub type SystemName = Name;

/// The compiled schema: all records that the documents define.
#[derive(Drop)]
pub struct Set {
    /// The managed object classes.
    pub classes: ClassRecs,
    /// The attributes.
    pub attributes: AttrRecs,
    /// The attribute groups.
    pub groups: GroupRecs,
    /// The name bindings.
    pub bindings: BindRecs,
    /// The actions.
    pub actions: ActRecs,
    /// The notifications.
    pub notifications: NoteRecs,
    /// The rules of the actions.
    pub rules: RuleRecs,
    /// The objects at the opening.
    pub instances: InstRecs,
    /// The system's name.
    pub system: SystemName,
}
