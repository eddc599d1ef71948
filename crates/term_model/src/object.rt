//! Managed objects: X.720, section 5.

ghost use Rattle.std.specs.Prelude.{◌≡◌, IfOk};

use std::alloc::{AllocError, Global};
use std::marker::Model;
use term_values::{Oid, Value};

/// The most octets of an object, as the encoding of its attributes as SET OF Attribute. This is the project's own
/// limit.
pub const MOST_OBJECT: usize = 16_384;

/// Identifiers in their order.
#[derive(Drop)]
pub struct Oids {
    /// The identifiers.
    pub items: Vec<Oid>,
}

impl Model for Oids {
    ghost use Rattle.std.specs.Prelude.{List, ℕ};

    ghost Value = { List (List ℕ) };

    ghost view = { λ oids. oids.items.items };
}

impl Oids {
    /// A copy of these identifiers.
    pub fn copy(&self, alloc: Global) -> Result<Oids, AllocError>
        ensures { IfOk result (λ oids. oids ≡ self.now) }
    {
        let mut items = Vec::new(alloc);
        for oid in &self.items {
            items.push(oid.copy(alloc)?)?;
        }
        Ok(Oids { items })
    }
}

/// An attribute of an object, with its value.
#[derive(Drop)]
pub struct Attribute {
    /// Its identifier.
    pub id: Oid,
    /// Its value, which fits its syntax.
    pub value: Value,
}

impl Attribute {
    /// A copy of this attribute.
    pub fn copy(&self, alloc: Global) -> Result<Attribute, AllocError>
        ensures { IfOk result (λ attribute. attribute ≡ self.now) }
    {
        let id = self.id.copy(alloc)?;
        let value = self.value.copy(alloc)?;
        Ok(Attribute { id, value })
    }
}

/// Attributes with their values: those of an object by rising identifier, each once; those of an instance as they are
/// stated.
#[derive(Drop)]
pub struct Attrs {
    /// The attributes.
    pub items: Vec<Attribute>,
}

impl Model for Attrs {
    ghost use Rattle.std.specs.Prelude.{List};
    ghost use Rattle.std.specs.Coded.{codes};
    ghost use Rattle.term_values.specs.Typed.{value_code};
    ghost use Rattle.term_model.specs.declared.object.Attribute.{Attribute};

    ghost Value = { List Attribute };

    ghost coded = { Prim.hlevel (codes, value_code) };

    ghost view = { λ attrs. attrs.items.items };
}

impl Attrs {
    /// A copy of these attributes.
    pub fn copy(&self, alloc: Global) -> Result<Attrs, AllocError>
        ensures { IfOk result (λ attrs. attrs ≡ self.now) }
    {
        let mut items = Vec::new(alloc);
        for attribute in &self.items {
            items.push(attribute.copy(alloc)?)?;
        }
        Ok(Attrs { items })
    }
}

/// A managed object.
#[derive(Drop)]
pub struct Object {
    /// The identifier of its class.
    pub class: Oid,
    /// The name binding by which it is named; none for the root.
    pub binding: Option<Oid>,
    /// The conditional packages that its creation named.
    pub chosen: Oids,
    /// Its attributes.
    pub attrs: Attrs,
}
