//! Instances of objects: X.711, section 7.5, type ObjectInstance.

ghost use Rattle.std.specs.Prelude.{◌≡◌, IfOk, Some, option_and_then};
ghost use Rattle.std.specs.Option.{option_map, option_copied};
ghost use Rattle.term_values.specs.Decoding.{inside_of};
ghost use Rattle.term_values.specs.LeafReading.{octets_in};
ghost use Rattle.term_values.specs.Tree.{listed};
ghost use Rattle.term_model.specs.declared.request.Named.TheVariants.{NonSpecific};
ghost use Rattle.term_model.specs.InstanceNames.{instance_in, named_globally, named_in, named_locally, rdns_in};

use crate::asserting::written;
use crate::names::{below, rdns_in};
use crate::rows::is_context;
use ber_values::string_reading::read_octets;
use std::alloc::{AllocError, Global};
use term_model::{AttrRecs, Instance, Name, Named, Set};
use term_values::{Body, Tree};

/// The values inside a constructed value.
pub fn inside_any(tree: &Tree) -> Option<&[Tree]>
    ensures { option_map listed (option_copied result) ≡ inside_of tree.now }
{
    match &tree.body {
        Body::Cons(inside) => Some(inside.items.as_slice()),
        Body::Prim(_) => None,
    }
}

/// The name in a value that is an RDNSequence, its own tag apart.
fn name_in(
    alloc: Global,
    records: &AttrRecs,
    tree: &Tree,
) -> Result<Option<Option<Name>>, AllocError>
    ensures { IfOk result (λ name. name ≡ option_and_then (rdns_in records.now) (inside_of tree.now)) }
{
    match inside_any(tree) {
        None => Ok(None),
        Some(inside) => rdns_in(alloc, records, inside),
    }
}

/// What a local name names.
fn named_locally(name: Option<Name>) -> Named
    ensures { result ≡ named_locally name }
{
    match name {
        None => Named::Nothing,
        Some(name) => Named::Object(name),
    }
}

/// What a distinguished name names.
fn named_globally(system: &Name, name: Option<Name>) -> Result<Named, AllocError>
    ensures { IfOk result (λ named. named ≡ named_globally system.now name) }
{
    match name {
        None => Ok(Named::Nothing),
        Some(name) => Ok(named_locally(below(system, name)?)),
    }
}

fn distinguished(alloc: Global, set: &Set, tree: &Tree) -> Result<Option<Named>, AllocError>
    ensures { IfOk result (λ named. named ≡ option_map (named_globally set.now.system)
        (option_and_then (rdns_in set.now.attributes) (inside_of tree.now))) }
{
    match name_in(alloc, &set.attributes, tree)? {
        None => Ok(None),
        Some(name) => Ok(Some(named_globally(&set.system, name)?)),
    }
}

fn local(alloc: Global, set: &Set, tree: &Tree) -> Result<Option<Named>, AllocError>
    ensures { IfOk result (λ named. named ≡ option_map named_locally
        (option_and_then (rdns_in set.now.attributes) (inside_of tree.now))) }
{
    match name_in(alloc, &set.attributes, tree)? {
        None => Ok(None),
        Some(name) => Ok(Some(named_locally(name))),
    }
}

fn non_specific(alloc: Global, tree: &Tree) -> Result<Option<Named>, AllocError>
    ensures { IfOk result (λ named. named ≡ option_map (λ octets. NonSpecific) (octets_in tree.now)) }
{
    match read_octets(alloc, tree)? {
        None => Ok(None),
        Some(_) => Ok(Some(Named::NonSpecific)),
    }
}

/// What an ObjectInstance names, or none where the tree is none.
fn named_in(alloc: Global, set: &Set, tree: &Tree) -> Result<Option<Named>, AllocError>
    ensures { IfOk result (λ named. named ≡ named_in set.now tree.now) }
{
    if is_context(2, tree.tag) {
        distinguished(alloc, set, tree)
    } else if is_context(4, tree.tag) {
        local(alloc, set, tree)
    } else if is_context(3, tree.tag) {
        non_specific(alloc, tree)
    } else {
        Ok(None)
    }
}

/// An ObjectInstance with what it names under a schema, or none where the tree is none.
pub fn read_instance(alloc: Global, set: &Set, tree: &Tree) -> Result<Option<Instance>, AllocError>
    ensures { IfOk result (λ instance. instance ≡ instance_in set.now tree.now) }
{
    match named_in(alloc, set, tree)? {
        None => Ok(None),
        Some(named) => {
            let raw = written(alloc, tree)?;
            Ok(Some(Instance { raw, named }))
        }
    }
}
