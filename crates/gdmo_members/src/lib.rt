//! The templates of a package's members: attributes, groups, actions, notifications, parameters and
//! behaviours (X.722, sections 8.5 and 8.7 to 8.11).
#![tactic(auto)]

pub mod action;
pub mod attribute;
pub mod behaviour;
pub mod context;
pub mod group;
pub mod matching_rules;
pub mod member;
pub mod member_laws;
pub mod notification;
pub mod parameter;
pub mod registration;
pub mod type_clause;

pub use action::ActionTemplate;
pub use attribute::{AttributeReference, AttributeSyntax, AttributeTemplate};
pub use behaviour::{BehaviourReference, BehaviourTemplate};
pub use group::GroupTemplate;
pub use member::{MemberTemplate, read_template};
pub use notification::NotificationTemplate;
pub use parameter::{ParameterReference, ParameterSyntax, ParameterTemplate};
