//! The sections RULES and INSTANCES, which this project adds to GDMO (docs/PROFILE.md, section 9).
#![tactic(auto)]

pub mod assignment;
pub mod instance;
pub mod instances;
pub mod rule;
pub mod rules;
pub mod section;
pub mod section_laws;
pub mod step;

pub use assignment::Assignment;
pub use instance::{Instance, InstanceKind};
pub use instances::InstancesSection;
pub use rule::Rule;
pub use rules::RulesSection;
pub use section::{Section, read_section};
pub use step::{Reply, Step};
