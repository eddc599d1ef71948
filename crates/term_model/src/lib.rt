//! The managed system as definitions speak of it: names, objects, records, requests, replies and event reports. X.720,
//! X.711 and X.722.
#![tactic(auto)]

pub mod actions;
pub mod apdu;
pub mod attribute_records;
pub mod class_records;
pub mod creation;
pub mod effect;
pub mod event;
pub mod filter;
pub mod filter_item;
pub mod laws;
pub mod name;
pub mod name_binding;
pub mod numbers;
pub mod object;
pub mod objects;
pub mod packages;
pub(crate) mod places;
pub mod ranged;
pub mod reply;
pub mod request;
pub mod results;
pub mod rule;
pub mod schema;
pub mod scope;
pub mod steps;

pub use actions::{ActRec, ActRecs, AttributeField, AttributeFields, NoteRec, NoteRecs};
pub use apdu::Apdu;
pub use attribute_records::AttrRecs;
pub use class_records::ClassRecs;
pub use creation::{Creation, Outline, StepError};
pub use effect::{Diff, Diffs, Effect, OneRefusal, Patch, Source, Sources, What};
pub use event::{Event, Events, WaitingRecord, WaitingRecords};
pub use filter::{Asked, Filter, FilterForm, Filters};
pub use filter_item::{Given, Item, Piece, Pieces};
pub use name::{Name, Rdn};
pub use name_binding::{BindRec, BindRecs, BoundClass, CreateClause, DeleteClause};
pub use object::{Attribute, Attrs, Object, Oids};
pub use objects::{NamedObject, Objects};
pub use packages::{
    GroupUse, GroupUses, PackageRec, PackageRecs, Properties, Property, Syntaxes, TypeNames,
};
pub use ranged::Ranged;
pub use reply::{CmisError, Reply};
pub use request::{
    Change, Changes, Givens, Head, IdRef, Ids, Instance, Invocation, Named, Place, Request,
};
pub use results::{ActionReply, AttributeValue, FailureReason, GetInfoStatus, SetInfoStatus};
pub use rule::{RuleRec, RuleRecs, RuleStep, RuleSteps};
pub use schema::{AttrRec, ClassRec, GroupRec, GroupRecs, InstRec, InstRecs, Set, SystemName};
pub use scope::{Names, Scope};
pub use steps::{StepLedger, Steps, Tally};
