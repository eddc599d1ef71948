//! Readers of the templates that hold the others: managed object classes, packages and name bindings
//! (X.722, sections 8.3, 8.4 and 8.6).
#![tactic(auto)]

pub mod attribute_use;
pub mod class;
pub mod class_laws;
pub mod creation;
pub mod member_use;
pub mod name_binding;
pub mod package;
pub mod properties;
pub mod references;
pub mod rows;
pub mod template;

pub use attribute_use::AttributeUse;
pub use class::{ClassReference, ConditionalPackage, ObjectClassTemplate};
pub use creation::{CreateModifiers, Creation, Deletion, FurtherModifier, ModifierRow};
pub use member_use::{ActionUse, GroupUse, NotificationUse};
pub use name_binding::{ClassScope, NameBindingTemplate};
pub use package::{PackageReference, PackageTemplate};
pub use properties::{Properties, PropertyValue};
pub use references::{ActionReference, GroupReference, NotificationReference};
pub use template::{ClassTemplate, read_template};
