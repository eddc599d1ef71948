//! Packages of managed object classes, and the properties of their attributes: X.722, section 8.4.

use crate::object::Oids;
use std::marker::Model;
use term_values::{Bytes, Oid, Syntax, Value};

/// Types that permit values of an attribute.
#[derive(Drop)]
pub struct Syntaxes {
    /// The syntaxes.
    pub items: Vec<Syntax>,
}

impl Model for Syntaxes {
    ghost use Rattle.std.specs.Prelude.{List};
    ghost use Rattle.std.specs.Coded.{codes};
    ghost use Rattle.term_values.specs.SyntaxCode.{syntax_code};
    ghost use Rattle.term_values.specs.Syntaxes.{TypeSyntax};

    ghost Value = { List TypeSyntax };

    ghost coded = { Prim.hlevel (codes, syntax_code) };

    ghost view = { λ list. list.items.items };
}

/// Names of types.
#[derive(Drop)]
pub struct TypeNames {
    /// The names, each with its module and a point before it.
    pub items: Vec<Bytes>,
}

impl Model for TypeNames {
    ghost use Rattle.std.specs.Prelude.{List, ℕ};

    ghost Value = { List (List ℕ) };

    ghost view = { λ list. list.items.items };
}

/// What a class or a package says of an attribute: X.722, section 8.4, the property list.
#[derive(Drop)]
pub struct Property {
    /// The identifier of the attribute.
    pub attribute: Oid,
    /// GET: its value may be read.
    pub get: bool,
    /// REPLACE: its value may be replaced.
    pub replace: bool,
    /// ADD: members may be added to its value.
    pub add: bool,
    /// REMOVE: members may be removed from its value.
    pub remove: bool,
    /// REPLACE-WITH-DEFAULT: its value may be set to the default.
    pub set_to_default: bool,
    /// DEFAULT VALUE
    pub default: Option<Value>,
    /// INITIAL VALUE
    pub initial: Option<Value>,
    /// PERMITTED VALUES: a value must be one of each of these.
    pub permitted: Syntaxes,
    /// REQUIRED VALUES
    pub required: TypeNames,
}

/// The properties of attributes, in the order in which they were stated.
#[derive(Drop)]
pub struct Properties {
    /// The properties.
    pub items: Vec<Property>,
}

impl Model for Properties {
    ghost use Rattle.std.specs.Prelude.{List};
    ghost use Rattle.std.specs.Coded.{codes};
    ghost use Rattle.term_values.specs.SyntaxCode.{syntax_code};
    ghost use Rattle.term_values.specs.Typed.{value_code};
    ghost use Rattle.term_model.specs.declared.packages.Property.{Property};

    ghost Value = { List Property };

    ghost coded = { Prim.hlevel (codes, value_code, syntax_code) };

    ghost view = { λ list. list.items.items };
}

/// The use of an attribute group in a package.
#[derive(Drop)]
pub struct GroupUse {
    /// The identifier of the group.
    pub group: Oid,
    /// The attributes that are added to it.
    pub added: Oids,
}

/// The uses of attribute groups in a package.
#[derive(Drop)]
pub struct GroupUses {
    /// The uses.
    pub items: Vec<GroupUse>,
}

impl Model for GroupUses {
    ghost use Rattle.std.specs.Prelude.{List};
    ghost use Rattle.term_model.specs.declared.packages.GroupUse.{GroupUse};

    ghost Value = { List GroupUse };

    ghost view = { λ list. list.items.items };
}

/// A package: X.722, section 8.4.
#[derive(Drop)]
pub struct PackageRec {
    /// The identifier under which it is registered, where it is.
    pub id: Option<Oid>,
    /// Its label.
    pub label: Bytes,
    /// Its attributes with their properties.
    pub attributes: Properties,
    /// Its attribute groups.
    pub groups: GroupUses,
    /// Its actions.
    pub actions: Oids,
    /// Its notifications.
    pub notifications: Oids,
}

/// Packages in the order in which a class lists them.
#[derive(Drop)]
pub struct PackageRecs {
    /// The records.
    pub items: Vec<PackageRec>,
}

impl Model for PackageRecs {
    ghost use Rattle.std.specs.Prelude.{List};
    ghost use Rattle.std.specs.Coded.{codes};
    ghost use Rattle.term_values.specs.SyntaxCode.{syntax_code};
    ghost use Rattle.term_values.specs.Typed.{value_code};
    ghost use Rattle.term_model.specs.declared.packages.PackageRec.{PackageRec};

    ghost Value = { List PackageRec };

    ghost coded = { Prim.hlevel (codes, value_code, syntax_code) };

    ghost view = { λ list. list.items.items };
}
