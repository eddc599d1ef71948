//! What is known of a set of documents once all labels are looked up (X.722, section 8; docs/PROFILE.md, section 12).

use asn1_names::name_tables::NameTables;
use gdmo_names::parsed::Parsed;
use gdmo_targets::section_references::SectionTargets;
use gdmo_types::linkage::Linkage;

/// Documents, and what the labels in them mean.
#[derive(Clone, Copy)]
pub struct KnownParts<'a, 't> {
    /// The parts of the documents.
    pub parts: &'a Parsed,
    /// What is known of the templates.
    pub linkage: &'t Linkage<'a, 't>,
    /// The names of the modules.
    pub tables: &'t NameTables<'a>,
    /// The templates that rules and instances name.
    pub targets: &'t SectionTargets,
}
