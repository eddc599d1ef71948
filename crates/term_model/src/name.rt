//! Distinguished names relative to the root of the naming tree: X.501 and X.720.

ghost use Rattle.std.specs.Prelude.{◌≡◌, ◌==◌, ◌↔◌, [], IfOk, IsTrue, MatchOption};
ghost use Rattle.std.specs.Cmp.Lexicographic.{pointwise, slice_cmp};
ghost use Rattle.std.specs.Cmp.Rules.{comparing};
ghost use Rattle.std.specs.Cmp.{partial_order_from_own_ties, partial_order_from_total};
ghost use Rattle.std.specs.Ordering.{as_partial_cmp};
ghost use Rattle.std.proofs.Common.{rules};
ghost use Rattle.term_model.specs.Comparing.{is_same_rdn};
ghost use Rattle.term_model.specs.NameOrder.{name_cmp, rdn_cmp};
ghost use Rattle.term_model.specs.NameLaws.{name_ties, name_total, rdn_ties, rdn_total};
ghost use Rattle.term_model.specs.Superiors.{BeginsWith, IsSuperior};

use std::alloc::{AllocError, Global};
use std::cmp::Ordering;
use std::marker::Model;
use term_values::{Bytes, Oid};

/// A relative distinguished name of one attribute value assertion.
#[derive(PartialEq, Eq, Drop)]
pub struct Rdn {
    /// The identifier of the attribute.
    pub attribute: Oid,
    /// The asserted value in its written encoding.
    pub value: Bytes,
}

impl Rdn {
    /// A copy of this part.
    pub fn copy(&self, alloc: Global) -> Result<Rdn, AllocError>
        ensures { IfOk result (λ rdn. rdn ≡ self.now) }
    {
        let attribute = self.attribute.copy(alloc)?;
        let value = self.value.copy(alloc)?;
        Ok(Rdn { attribute, value })
    }
}

impl Ord for Rdn {
    ghost cmp = { rdn_cmp };

    ghost total = { rdn_total };

    ghost matches_partial_cmp = { Prim.search (comparing, rules) };

    ghost matches_eq = { rdn_ties };

    fn cmp(&self, other: &Rdn) -> Ordering {
        self.attribute.cmp(&other.attribute).then(
            self.value
                .items
                .len()
                .cmp(&other.value.items.len())
                .then(self.value.cmp(&other.value)),
        )
    }
}

impl PartialOrd for Rdn {
    ghost partial_cmp = { as_partial_cmp rdn_cmp };

    ghost laws = { partial_order_from_own_ties (partial_order_from_total rdn_total) rdn_ties };

    fn partial_cmp(&self, other: &Rdn) -> Option<Ordering> {
        Some(self.cmp(other))
    }
}

/// A name below the root, its superior's part first. The root's own name is empty.
#[derive(Drop)]
pub struct Name {
    /// The parts.
    pub parts: Vec<Rdn>,
}

impl Model for Name {
    ghost use Rattle.std.specs.Prelude.{List};
    ghost use Rattle.term_model.specs.declared.name.Rdn.{Rdn};

    ghost Value = { List Rdn };

    ghost view = { λ name. name.parts.items };
}

impl Name {
    /// The name of the root.
    pub fn root(alloc: Global) -> Name
        ensures { result ≡ [] }
    {
        Name {
            parts: Vec::new(alloc),
        }
    }

    /// A copy of this name.
    pub fn copy(&self, alloc: Global) -> Result<Name, AllocError>
        ensures { IfOk result (λ name. name ≡ self.now) }
    {
        let parts = copied(alloc, self.parts.as_slice())?;
        Ok(Name { parts })
    }

    /// The name of the superior, which is this one without its last part: none exactly for the root.
    pub fn parent(&self, alloc: Global) -> Result<Option<Name>, AllocError>
        ensures { IfOk result
            (λ parent. MatchOption parent (self.now ≡ []) (λ superior. IsSuperior superior self.now)) }
    {
        match self.parts.as_slice().split_last() {
            None => Ok(None),
            Some((_, front)) => {
                let parts = copied(alloc, front)?;
                Ok(Some(Name { parts }))
            }
        }
    }

    /// Whether the name begins with the parts of another one: whether its object is the other one's, or is below it.
    pub fn starts_with(&self, front: &Name) -> bool
        ensures { IsTrue result ↔ BeginsWith self.now front.now }
    {
        self.parts.as_slice().starts_with(front.parts.as_slice())
    }
}

/// Copies of these parts.
fn copied(alloc: Global, parts: &[Rdn]) -> Result<Vec<Rdn>, AllocError>
    ensures { IfOk result (λ copies. copies.items ≡ parts.now) }
{
    let mut copies = Vec::new(alloc);
    for rdn in parts {
        copies.push(rdn.copy(alloc)?)?;
    }
    Ok(copies)
}

impl PartialEq for Name {
    ghost eq = { pointwise is_same_rdn };

    ghost laws = { Prim.search (comparing, rules) };

    fn eq(&self, other: &Name) -> bool {
        self.parts.as_slice() == other.parts.as_slice()
    }
}

impl Eq for Name {
    ghost laws = { Prim.search (comparing, rules) };
}

impl Ord for Name {
    ghost cmp = { name_cmp };

    ghost total = { name_total };

    ghost matches_partial_cmp = { Prim.search (comparing, rules) };

    ghost matches_eq = { name_ties };

    fn cmp(&self, other: &Name) -> Ordering {
        self.parts.as_slice().cmp(other.parts.as_slice())
    }
}

impl PartialOrd for Name {
    ghost partial_cmp = { as_partial_cmp name_cmp };

    ghost laws = { partial_order_from_own_ties (partial_order_from_total name_total) name_ties };

    fn partial_cmp(&self, other: &Name) -> Option<Ordering> {
        Some(self.cmp(other))
    }
}
