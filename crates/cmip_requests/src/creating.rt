//! The argument of m-Create: X.711, section 7.4.

ghost use Rattle.std.specs.Prelude.{◌≡◌, IfOk, option_and_then};
ghost use Rattle.std.specs.Option.{option_copied, option_map};
ghost use Rattle.term_values.specs.Tree.{listed};
ghost use Rattle.term_model.specs.Parts.{one_under};
ghost use Rattle.term_model.specs.declared.request.Place.TheVariants.{Below};
ghost use Rattle.term_model.specs.InstanceNames.{instance_in};
ghost use Rattle.term_model.specs.CreateReading.{create_attributes, create_in, create_instances, create_of};
ghost use Rattle.term_model.specs.CreateReading.{create_trees, create_with, givens_of, place_in, place_of};
ghost use Rattle.term_model.specs.CreateReading.{reference_of};

use argument_parts::asserting::read_id;
use argument_parts::heads::is_controlled;
use argument_parts::instances::{inside_any, read_instance};
use argument_parts::lists::read_givens;
use argument_parts::rows::{at_end, at_front, is_context, one_under, place_at_front};
use std::alloc::{AllocError, Global};
use term_model::{AttrRecs, Givens, IdRef, Instance, Place, Request, Set};
use term_values::Tree;

/// The trees that stand for the components behind the class.
#[derive(Clone, Copy)]
struct Created<'a> {
    place: Option<&'a Tree>,
    access: Option<&'a Tree>,
    reference: Option<&'a Tree>,
    rest: &'a [Tree],
}

fn create_parts(trees: &[Tree]) -> Created<'_>
    ensures { record {
      place = option_copied result.place;
      access = option_copied result.access;
      reference = option_copied result.reference;
      rest = listed result.rest.now;
    } ≡ create_trees (listed trees.now) }
{
    let (place, trees) = place_at_front(trees);
    let (access, trees) = at_front(5, trees);
    let (reference, rest) = at_front(6, trees);
    Created {
        place,
        access,
        reference,
        rest,
    }
}

/// The instance under an explicit tag.
fn held_instance(
    alloc: Global,
    set: &Set,
    number: u32,
    tree: &Tree,
) -> Result<Option<Instance>, AllocError>
    ensures { IfOk result (λ instance. instance
        ≡ option_and_then (instance_in set.now) (one_under (record { class = 2; number = number }) tree.now)) }
{
    match one_under(number, tree) {
        None => Ok(None),
        Some(tree) => read_instance(alloc, set, tree),
    }
}

fn superior(alloc: Global, set: &Set, tree: &Tree) -> Result<Option<Place>, AllocError>
    ensures { IfOk result (λ place. place ≡ option_map Below
        (option_and_then (instance_in set.now) (one_under (record { class = 2; number = 8 }) tree.now))) }
{
    match held_instance(alloc, set, 8, tree)? {
        None => Ok(None),
        Some(instance) => Ok(Some(Place::Below(instance))),
    }
}

/// The instance, or its superior.
fn place_in(alloc: Global, set: &Set, tree: &Tree) -> Result<Option<Place>, AllocError>
    ensures { IfOk result (λ place. place ≡ place_in set.now tree.now) }
{
    if is_context(8, tree.tag) {
        return superior(alloc, set, tree);
    }
    match read_instance(alloc, set, tree)? {
        None => Ok(None),
        Some(instance) => Ok(Some(Place::At(instance))),
    }
}

fn place_of(alloc: Global, set: &Set, tree: Option<&Tree>) -> Result<Option<Place>, AllocError>
    ensures { IfOk result (λ place. place ≡ place_of set.now (option_copied tree.entry)) }
{
    match tree {
        None => Ok(Some(Place::Free)),
        Some(tree) => place_in(alloc, set, tree),
    }
}

/// The reference object.
fn reference_of(
    alloc: Global,
    set: &Set,
    tree: Option<&Tree>,
) -> Result<Option<Option<Instance>>, AllocError>
    ensures { IfOk result (λ reference. reference ≡ reference_of set.now (option_copied tree.entry)) }
{
    match tree {
        None => Ok(Some(None)),
        Some(tree) => match held_instance(alloc, set, 6, tree)? {
            None => Ok(None),
            Some(instance) => Ok(Some(Some(instance))),
        },
    }
}

/// The attributes.
fn givens_of(
    alloc: Global,
    records: &AttrRecs,
    tree: Option<&Tree>,
) -> Result<Option<Givens>, AllocError>
    ensures { IfOk result (λ given. given ≡ givens_of records.now (option_copied tree.entry)) }
{
    match tree {
        None => Ok(Some(Givens {
            items: Vec::new(alloc),
        })),
        Some(tree) => match inside_any(tree) {
            None => Ok(None),
            Some(inside) => read_givens(alloc, records, inside),
        },
    }
}

/// The attributes, where access control is well-formed and nothing follows.
fn create_attributes(
    alloc: Global,
    set: &Set,
    access: Option<&Tree>,
    rest: &[Tree],
) -> Result<Option<Givens>, AllocError>
    ensures { IfOk result (λ given.
        given ≡ create_attributes set.now (option_copied access.entry) (listed rest.now)) }
{
    if is_controlled(access) {
        match at_end(7, rest) {
            None => Ok(None),
            Some(tree) => givens_of(alloc, &set.attributes, tree),
        }
    } else {
        Ok(None)
    }
}

/// Where the object is to be created, and the reference object.
fn create_instances(
    alloc: Global,
    set: &Set,
    place: Option<&Tree>,
    reference: Option<&Tree>,
) -> Result<Option<(Place, Option<Instance>)>, AllocError>
    ensures { IfOk result (λ instances. instances
        ≡ create_instances set.now (option_copied place.entry) (option_copied reference.entry)) }
{
    match place_of(alloc, set, place)? {
        None => Ok(None),
        Some(place) => match reference_of(alloc, set, reference)? {
            None => Ok(None),
            Some(reference) => Ok(Some((place, reference))),
        },
    }
}

fn create_with(
    alloc: Global,
    set: &Set,
    class: IdRef,
    given: Givens,
    place: Option<&Tree>,
    reference: Option<&Tree>,
) -> Result<Option<Request>, AllocError>
    ensures { IfOk result (λ request. request
        ≡ create_with set.now class given (option_copied place.entry) (option_copied reference.entry)) }
{
    match create_instances(alloc, set, place, reference)? {
        None => Ok(None),
        Some((place, reference)) => Ok(Some(Request::Create {
            class,
            place,
            reference,
            given,
        })),
    }
}

fn create_of(
    alloc: Global,
    set: &Set,
    class: IdRef,
    trees: &[Tree],
) -> Result<Option<Request>, AllocError>
    ensures { IfOk result (λ request. request ≡ create_of set.now class (create_trees (listed trees.now))) }
{
    let trees = create_parts(trees);
    match create_attributes(alloc, set, trees.access, trees.rest)? {
        None => Ok(None),
        Some(given) => create_with(alloc, set, class, given, trees.place, trees.reference),
    }
}

/// The request that the components of an m-Create give.
pub fn read_create(alloc: Global, set: &Set, trees: &[Tree]) -> Result<Option<Request>, AllocError>
    ensures { IfOk result (λ request. request ≡ create_in set.now (listed trees.now)) }
{
    match trees.split_first() {
        None => Ok(None),
        Some((class, rest)) => match read_id(alloc, 0, 1, class)? {
            None => Ok(None),
            Some(class) => create_of(alloc, set, class, rest),
        },
    }
}
