//! What an operation does to one object, as the operations that are made of it take it over: the objects that it
//! leaves, what it answers, and the changes that may give notifications. X.711, section 7.4; X.720, section 5; X.721,
//! the notifications of changes.

ghost use Rattle.std.specs.Prelude.{◌≡◌};
ghost use Rattle.term_model.specs.declared.effect.OneRefusal.TheVariants.{Memory};

use crate::name::Name;
use crate::object::Object;
use crate::reply::{CmisError, Reply};
use std::alloc::{AllocError, AllocFailed};
use std::marker::Model;
use term_values::{Bytes, Oid};

/// A change set: names, each with the object that stands there now, or none where none does any more.
#[derive(Drop)]
pub struct Patch {
    /// Each name once.
    pub items: Vec<(Name, Option<Object>)>,
}

impl Model for Patch {
    ghost use Rattle.std.specs.Prelude.{List, Option};
    ghost use Rattle.std.specs.Coded.{codes};
    ghost use Rattle.term_values.specs.Typed.{value_code};
    ghost use Rattle.term_model.specs.declared.name.Rdn.{Rdn};
    ghost use Rattle.term_model.specs.declared.object.Object.{Object};

    ghost Value = { List (List Rdn × Option Object) };

    ghost coded = { Prim.hlevel (codes, value_code) };

    ghost view = { λ patch. patch.items.items };
}

/// An attribute that an operation left with another value than before.
#[derive(Drop)]
pub struct Diff {
    /// The attribute.
    pub attribute: Oid,
    /// The written encoding of its value before.
    pub old: Bytes,
    /// The written encoding of its value now.
    pub new: Bytes,
}

/// Attributes that an operation left with other values than before, by rising identifier.
#[derive(Drop)]
pub struct Diffs {
    /// Each attribute once.
    pub items: Vec<Diff>,
}

impl Model for Diffs {
    ghost use Rattle.std.specs.Prelude.{List};
    ghost use Rattle.term_model.specs.declared.effect.Diff.{Diff};

    ghost Value = { List Diff };

    ghost view = { λ diffs. diffs.items.items };
}

/// What happened to an object. Values are in their written encoding.
#[derive(Drop)]
pub enum What {
    /// It was created.
    Created,
    /// It was deleted.
    Deleted,
    /// Attributes have other values than before.
    Differs(Diffs),
    /// A rule emitted this notification, with its information where it has some.
    Emitted(Oid, Option<Bytes>),
    /// A manager reported this event, with the time that it named, as it was spelled, and the event's information.
    Reported(Oid, Option<Bytes>, Option<Bytes>),
}

/// An event source: a change that may give a notification.
#[derive(Drop)]
pub struct Source {
    /// The object.
    pub name: Name,
    /// Its class.
    pub class: Oid,
    /// What happened to it.
    pub what: What,
}

/// Event sources in the order in which they happened.
#[derive(Drop)]
pub struct Sources {
    /// The sources.
    pub items: Vec<Source>,
}

impl Model for Sources {
    ghost use Rattle.std.specs.Prelude.{List};
    ghost use Rattle.term_model.specs.declared.effect.Source.{Source};

    ghost Value = { List Source };

    ghost view = { λ sources. sources.items.items };
}

/// What an operation does to one object: its outcome.
#[derive(Drop)]
pub struct Effect {
    /// The change set.
    pub changes: Patch,
    /// What is answered.
    pub reply: Reply,
    /// The changes that may give notifications.
    pub sources: Sources,
}

/// Why an operation on one object does nothing.
#[derive(Drop)]
pub enum OneRefusal {
    /// The error that is answered.
    Cmis(CmisError),
    /// There is not enough memory.
    Memory,
}

impl From<AllocError> for OneRefusal {
    ghost from_gives = { λ _ refusal. refusal ≡ Memory };

    fn from(_error: AllocError) -> OneRefusal {
        OneRefusal::Memory
    }
}

impl<T: Drop> From<AllocFailed<T>> for OneRefusal {
    ghost from_gives = { λ _ refusal. refusal ≡ Memory };

    fn from(_error: AllocFailed<T>) -> OneRefusal {
        OneRefusal::Memory
    }
}
