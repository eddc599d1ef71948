//! Which packages a creation names, and which attributes its object has: X.711, section 7.4, m-Create; X.720, section
//! 5.

ghost use Rattle.std.specs.Prelude.{◌≡◌, IfOk};
ghost use Rattle.term_model.specs.Creation.{gives_packages, outline_of, packages_named};

use attribute_rules::is_bound_log;
use class_packages::attributes_of;
use creation_values::attribute_tests::is_packages;
use creation_values::identifier_lists::identifiers_in;
use creation_values::value_sources::registered;
use std::alloc::{AllocError, Global};
use term_model::{Given, Oids, Outline, Set};
use term_values::Oid;

/// Whether the attribute that is given is the one of a class that lists the packages of its objects.
fn gives_packages(schema: &Set, class: &Oid, given: &Given) -> bool
    ensures { result ≡ gives_packages schema.now class.now given.now }
{
    match registered(&given.id) {
        Some(id) => is_packages(schema, class, id),
        None => false,
    }
}

/// The packages that a list of values names: those of its first value of packages.
fn packages_named(
    alloc: Global,
    schema: &Set,
    class: &Oid,
    given: &[Given],
) -> Result<Oids, AllocError>
    ensures { IfOk result (λ ids. ids ≡ packages_named schema.now class.now given.now) }
{
    for one in given {
        if gives_packages(schema, class, one) {
            if let Some(value) = &one.value {
                return identifiers_in(alloc, value);
            }
        }
    }
    Ok(Oids {
        items: Vec::new(alloc),
    })
}

/// What an object of a class has with the packages that its creation names.
pub fn outline_of(
    alloc: Global,
    schema: &Set,
    class: &Oid,
    given: &[Given],
) -> Result<Outline, AllocError>
    ensures { IfOk result (λ outline. outline ≡ outline_of schema.now class.now given.now) }
{
    let bound_log = is_bound_log(alloc, schema, class)?;
    let chosen = packages_named(alloc, schema, class, given)?;
    let attributes = attributes_of(alloc, schema, class, chosen.items.as_slice())?;
    Ok(Outline {
        bound_log,
        chosen,
        attributes,
    })
}
