//! Requests: X.711, section 7.

use crate::filter::Asked;
use crate::filter_item::Given;
use crate::name::Name;
use crate::scope::Scope;
use std::marker::Model;
use term_values::{Bytes, Oid};

/// bestEffort, the synchronization by which each object is acted on for itself.
pub const BEST_EFFORT: i64 = 0;

/// atomic, the synchronization by which all selected objects are acted on, or none.
pub const ATOMIC: i64 = 1;

/// replace, the operator that gives an attribute the value.
pub const REPLACE: i64 = 0;

/// addValues, the operator that adds the members of the value.
pub const ADD_VALUES: i64 = 1;

/// removeValues, the operator that takes the members of the value away.
pub const REMOVE_VALUES: i64 = 2;

/// setToDefault, the operator that gives an attribute its default.
pub const SET_TO_DEFAULT: i64 = 3;

/// An identifier as a request has it: X.711, types ObjectClass, AttributeId, ActionTypeId and EventTypeId.
#[derive(Drop)]
pub enum IdRef {
    /// globalForm: the identifier under which it is registered.
    Global(Oid),
    /// localForm: a number of the manager's own, which names nothing here.
    Local(i64),
}

/// Identifiers in the order of their list.
#[derive(Drop)]
pub struct Ids {
    /// The identifiers.
    pub items: Vec<IdRef>,
}

impl Model for Ids {
    ghost use Rattle.std.specs.Prelude.{List};
    ghost use Rattle.term_model.specs.declared.request.IdRef.{IdRef};

    ghost Value = { List IdRef };

    ghost view = { λ ids. ids.items.items };
}

/// What an ObjectInstance names.
#[derive(Drop)]
pub enum Named {
    /// nonSpecificForm: octets that name nothing here.
    NonSpecific,
    /// Nothing of the system, by its form: it doesn't begin with the system's own name, one of its parts has another
    /// number of assertions than one, or a value that doesn't fit its attribute.
    Nothing,
    /// An object of the system or the place of one, by its name relative to the root.
    Object(Name),
}

/// An ObjectInstance: X.711.
#[derive(Drop)]
pub struct Instance {
    /// As it is given back: with the shortest definite lengths.
    pub raw: Bytes,
    /// What it names.
    pub named: Named,
}

/// With what requests on existing objects begin: X.711, section 7.
#[derive(Drop)]
pub struct Head {
    /// baseManagedObjectClass: the class that the manager takes the base object for.
    pub class: IdRef,
    /// baseManagedObjectInstance: the base object.
    pub base: Instance,
    /// synchronization: 0 best effort, which is the default, 1 atomic.
    pub sync: i64,
    /// scope; baseObject by default.
    pub scope: Scope,
    /// filter; the empty `and`, which each object passes, by default.
    pub filter: Asked,
}

/// A modification of an attribute: X.711, section 7.4, m-Set.
#[derive(Drop)]
pub struct Change {
    /// modifyOperator: 0 replace, which is the default, 1 addValues, 2 removeValues, 3 setToDefault.
    pub operator: i64,
    /// The attribute.
    pub id: IdRef,
    /// The attribute with its value, where one came.
    pub given: Option<Given>,
}

/// Modifications in the order in which they came, in which they are made.
#[derive(Drop)]
pub struct Changes {
    /// The modifications.
    pub items: Vec<Change>,
}

impl Model for Changes {
    ghost use Rattle.std.specs.Prelude.{List};
    ghost use Rattle.std.specs.Coded.{codes};
    ghost use Rattle.term_values.specs.Typed.{value_code};
    ghost use Rattle.term_model.specs.declared.request.Change.{Change};

    ghost Value = { List Change };

    ghost coded = { Prim.hlevel (codes, value_code) };

    ghost view = { λ changes. changes.items.items };
}

/// The attributes of an m-Create in the order in which they came.
#[derive(Drop)]
pub struct Givens {
    /// The attributes with their values.
    pub items: Vec<Given>,
}

impl Model for Givens {
    ghost use Rattle.std.specs.Prelude.{List};
    ghost use Rattle.std.specs.Coded.{codes};
    ghost use Rattle.term_values.specs.Typed.{value_code};
    ghost use Rattle.term_model.specs.declared.filter_item.Given.{Given};

    ghost Value = { List Given };

    ghost coded = { Prim.hlevel (codes, value_code) };

    ghost view = { λ givens. givens.items.items };
}

/// Where an object is to be created: X.711, section 7.4, m-Create.
#[derive(Drop)]
pub enum Place {
    /// managedObjectInstance: under this name.
    At(Instance),
    /// superiorObjectInstance: below this object, under a name that the agent chooses.
    Below(Instance),
    /// Below the root, under a name that the agent chooses.
    Free,
}

/// A request: X.711, section 7.
#[derive(Drop)]
pub enum Request {
    /// m-Get.
    Get {
        /// The objects.
        head: Head,
        /// attributeIdList; without one all attributes are asked for.
        ids: Option<Ids>,
    },
    /// m-Set.
    Set {
        /// The objects.
        head: Head,
        /// modificationList.
        changes: Changes,
        /// m-Set-Confirmed: a reply is asked for.
        confirmed: bool,
    },
    /// m-Action.
    Act {
        /// The objects.
        head: Head,
        /// actionType.
        action: IdRef,
        /// The action with actionInfoArg, where that came.
        argument: Option<Given>,
        /// m-Action-Confirmed: a reply is asked for.
        confirmed: bool,
    },
    /// m-Create.
    Create {
        /// managedObjectClass.
        class: IdRef,
        /// The name, or the superior.
        place: Place,
        /// referenceObjectInstance: the object whose values are taken over.
        reference: Option<Instance>,
        /// attributeList.
        given: Givens,
    },
    /// m-Delete.
    Delete {
        /// The objects.
        head: Head,
    },
    /// m-EventReport.
    Report {
        /// managedObjectClass.
        class: IdRef,
        /// managedObjectInstance.
        at: Instance,
        /// eventType.
        kind: IdRef,
        /// eventTime, as it was spelled, where it came.
        time: Option<Bytes>,
        /// The event with eventInfo, where that came.
        info: Option<Given>,
        /// m-EventReport-Confirmed: a reply is asked for.
        confirmed: bool,
    },
}

/// A request with its invoke id: X.229, section 9.
#[derive(Drop)]
pub struct Invocation {
    /// The invoke id.
    pub id: i32,
    /// The request.
    pub request: Request,
}
