//! The identifiers of modules and templates: faults of their first names and of their arcs, and which object identifier
//! each template has (X.660, annex A; X.680, section 32; docs/PROFILE.md, section 12).
#![tactic(auto)]

mod first_faults;
pub mod identifiers;
pub mod module_identifiers;
mod oids;
mod registrations;
