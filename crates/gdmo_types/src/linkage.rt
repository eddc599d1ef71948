//! What is known of templates once their references are looked up (X.722, section 8; docs/PROFILE.md, section 12).

use crate::attribute_types::AttributeType;
use asn1_types::Types;
use gdmo_names::found::Found;
use indexmap::IndexMap;
use std::alloc::Global;

/// Templates, and what their references mean.
#[derive(Clone, Copy)]
pub struct Linkage<'a, 't> {
    /// For the tables.
    pub alloc: Global,
    /// The templates.
    pub templates: &'t [Found<'a>],
    /// The number of the template that a label means.
    pub labels: &'t IndexMap<&'a [u8], usize>,
    /// The templates that the references of each template mean, in the order of its mentions; none where one is
    /// missing.
    pub targets: &'t [Vec<Option<usize>>],
    /// What the names of modules mean.
    pub types: &'t Types<'a>,
    /// The type of each attribute.
    pub attributes: &'t [AttributeType],
}
