//! Modules without faults: their names, and the syntaxes of their types (X.680, sections 13 to 51).

use asn1_names::name_tables::NameTables;
use asn1_types::Types;
use std::alloc::Global;

/// What the names of modules mean, and their types.
#[derive(Clone, Copy)]
pub struct ResolvedModules<'a, 't> {
    /// For the syntaxes.
    pub alloc: Global,
    /// The names.
    pub tables: &'t NameTables<'a>,
    /// The types.
    pub types: &'t Types<'a>,
}
