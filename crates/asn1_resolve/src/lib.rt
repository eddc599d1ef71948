//! ASN.1 modules resolved, or their first fault told (X.680; where X.680 has no such form, X.208; docs/PROFILE.md,
//! section 11).
#![tactic(auto)]

mod constraint_faults;
mod faults;
mod import_faults;
mod judging;
mod name_faults;
mod number_faults;
pub mod resolving;
mod type_faults;

pub use asn1_names::{Meaning, ModuleRefusal, UnsupportedKind};
pub use asn1_types::Types;
pub use resolving::resolve_modules;
