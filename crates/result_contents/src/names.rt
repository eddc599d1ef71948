//! Names of objects, written with their last octet first: X.711, section 7.5, ObjectInstance in localDistinguishedName.
#![tactic(auto, using(ber_tree::proofs::Extending::extending))]

ghost use Rattle.std.specs.Prelude.{◌≡◌, ◌++◌, IfOk, OnOk, flat_map, reverse};
ghost use Rattle.ber_tree.specs.Writing.{Extends};
ghost use Rattle.term_model.specs.GetRequest.{assertion_octets, instance_octets, rdn_octets};

use ber_tree::tree_writing::{reverse_from, write_backwards, write_header_backwards};
use ber_tree::value_writing::write_oid_backwards;
use std::alloc::{AllocError, Global};
use term_model::Rdn;
use term_values::tag::CONTEXT;
use term_values::{Bytes, Tag};

/// The tag of localDistinguishedName: X.711, ObjectInstance.
const LOCAL_DISTINGUISHED_NAME: Tag = Tag {
    class: CONTEXT,
    number: 4,
};

/// Appends the assertion of an RDN, the last octet first.
fn write_assertion(rdn: &Rdn, into: &mut Vec<u8>) -> Result<(), AllocError>
    ensures written { OnOk result
        (into.new.items ≡ into.old.items ++ reverse (assertion_octets rdn.now)) }
    ensures begun { Extends into.old.items into.new.items }
{
    let start = into.as_slice().len();
    write_backwards(rdn.value.as_slice(), into)?;
    write_oid_backwards(Tag::OBJECT_IDENTIFIER, &rdn.attribute, into)?;
    let size = into.as_slice().len() - start;
    write_header_backwards(true, Tag::SEQUENCE, size, into)
}

/// Appends an RDN of one assertion, the last octet first.
fn write_rdn(rdn: &Rdn, into: &mut Vec<u8>) -> Result<(), AllocError>
    ensures written { OnOk result (into.new.items ≡ into.old.items ++ reverse (rdn_octets rdn.now)) }
    ensures begun { Extends into.old.items into.new.items }
{
    let start = into.as_slice().len();
    write_assertion(rdn, into)?;
    let size = into.as_slice().len() - start;
    write_header_backwards(true, Tag::SET, size, into)
}

/// Appends the RDNs of a name, the last octet first. The refusal is that there is no memory.
pub fn write_rdns(name: &[Rdn], into: &mut Vec<u8>) -> Result<(), AllocError>
    ensures written { OnOk result
        (into.new.items ≡ into.old.items ++ reverse (flat_map rdn_octets name.now)) }
    ensures begun { Extends into.old.items into.new.items }
{
    for i in (0..name.len()).rev() {
        write_rdn(&name[i], into)?;
    }
    Ok(())
}

/// Appends an ObjectInstance in localDistinguishedName, the last octet first.
pub fn write_instance(name: &[Rdn], into: &mut Vec<u8>) -> Result<(), AllocError>
    ensures written { OnOk result
        (into.new.items ≡ into.old.items ++ reverse (instance_octets name.now)) }
    ensures begun { Extends into.old.items into.new.items }
{
    let start = into.as_slice().len();
    write_rdns(name, into)?;
    let size = into.as_slice().len() - start;
    write_header_backwards(true, LOCAL_DISTINGUISHED_NAME, size, into)
}

/// The written ObjectInstance of an object in localDistinguishedName.
pub fn instance(alloc: Global, name: &[Rdn]) -> Result<Bytes, AllocError>
    ensures { IfOk result (λ octets. octets ≡ instance_octets name.now) }
{
    let mut items = Vec::new(alloc);
    write_instance(name, &mut items)?;
    reverse_from(0, &mut items);
    Ok(Bytes { items })
}
