//! The nodes and the tags of all assigned types, each behind those of the types that it names (docs/PROFILE.md, section
//! 11).

ghost use Rattle.std.specs.Prelude.{◌≡◌, ◌≤◌, ℕ, false, true, IfOk, IfSome, List, OnOk, Some, length, slice_get};
ghost use Rattle.std.specs.Prelude.{slice_set};
ghost use Rattle.asn1_names.specs.AssignmentNumbers.{assignment_count};
ghost use Rattle.asn1_names.specs.NodeCount.{HasNodes};
ghost use Rattle.asn1_names.specs.TermViews.{module_terms, type_term};
ghost use Rattle.asn1_numbers.specs.NumberedTypes.{IsBehindNamed, MarkCyclic};
ghost use Rattle.asn1_tags.specs.DraftFacts.{AreCounted, AreFacts, CountsType, FindsType, GathersType, IsDraft};
ghost use Rattle.asn1_tags.specs.DraftFacts.{IsSetOf, KeepsSets};
ghost use Rattle.asn1_tags.specs.GatheredTags.{HasTags, KnowsTags};
ghost use Rattle.asn1_tags.specs.KnownFacts.{AreKnown, HasCount, KnowsNodes, is_marked};

use crate::node_counting::{KnownNodes, is_marked, nodes_of, nodes_told};
use crate::tag_clashes::tags_of;
use crate::tag_sets::{KnownTags, TagSet, meaning_of, no_tags};
use asn1_names::name_tables::{Meaning, NameTables};
use asn1_names::type_walk::name_of;
use asn1_numbers::containment::contained_types;
use asn1_numbers::number_tables::Numbers;
use asn1_syntax::type_text::TypeText;
use std::alloc::{AllocError, Global};

/// The most nodes of a syntax.
const MOST_NODES: usize = 10_000;

/// What was found of assigned types: by their numbers the nodes, and the places of their sets of tags.
#[derive(Drop)]
pub struct Draft {
    pub nodes: Vec<usize>,
    pub sources: Vec<usize>,
    pub sets: Vec<TagSet>,
}

/// Puts a number in the place of another one.
fn set_number(numbers: &mut Vec<usize>, place: usize, number: usize)
    ensures { numbers.new.items ≡ slice_set numbers.old.items place number }
{
    if place < numbers.as_slice().len() {
        numbers[place] = number;
    }
}

/// Counts the nodes of an assignment's type.
pub(crate) fn count_type(
    tables: &NameTables,
    cyclic: &[bool],
    number: usize,
    nodes: &mut Vec<usize>,
)
    ensures { CountsType (module_terms tables.now) cyclic.now number nodes.old.items nodes.new.items }
{
    match tables.type_at(number) {
        Some((home, of)) => {
            let known = KnownNodes {
                tables,
                cyclic,
                nodes: nodes.as_slice(),
            };
            let told = nodes_of(&known, home, of);
            set_number(nodes, number, told);
        }
        None => (),
    }
}

/// The place of an assignment's set.
fn place_at(sources: &[usize], number: usize) -> Option<usize>
    ensures { result ≡ slice_get sources.now number }
{
    sources.get(number).copied()
}

/// The place of the set of the type that a type's name means.
fn named_place(known: &KnownTags, home: usize, of: &TypeText) -> Option<usize>
    ensures { IfSome result (λ place. AreKnown (KnowsTags (module_terms known.now.numbers.now) known.now.sources.now
        known.now.sets.now) (module_terms known.now.numbers.now) known.now.cyclic.now home (type_term of.now) →
        IsSetOf (module_terms known.now.numbers.now) home (type_term of.now) known.now.sets.now place) }
{
    let name = name_of(of)?;
    match meaning_of(known, home, name) {
        Meaning::TypeAt(number) => {
            if is_marked(known.cyclic, number) {
                None
            } else {
                place_at(known.sources, number)
            }
        }
        _ => None,
    }
}

/// The set of a type's tags; none where it has too many nodes.
fn set_of(
    alloc: Global,
    known: &KnownTags,
    home: usize,
    of: &TypeText,
    nodes: usize,
) -> Result<TagSet, AllocError>
    ensures { IfOk result (λ set. AreKnown (KnowsTags (module_terms known.now.numbers.now) known.now.sources.now
        known.now.sets.now) (module_terms known.now.numbers.now) known.now.cyclic.now home (type_term of.now) →
        HasCount (module_terms known.now.numbers.now) home (type_term of.now) nodes → (n : ℕ) →
        HasNodes (module_terms known.now.numbers.now) home (type_term of.now) n → n ≤ 10000 →
        HasTags (module_terms known.now.numbers.now) home (type_term of.now) set) }
{
    if nodes <= MOST_NODES {
        tags_of(alloc, known, home, of)
    } else {
        Ok(no_tags(alloc))
    }
}

/// Adds a set; answers its place.
fn push_set(sets: &mut Vec<TagSet>, set: TagSet) -> Result<usize, AllocError>
    ensures place { IfOk result (λ place. slice_get sets.new.items place ≡ Some set) }
    ensures kept { OnOk result (KeepsSets sets.old.items sets.new.items) }
{
    let place = sets.as_slice().len();
    sets.push(set)?;
    Ok(place)
}

/// The place of the set of a type's tags, which is added where it isn't that of another type.
fn place_of(
    alloc: Global,
    numbers: &Numbers,
    cyclic: &[bool],
    home: usize,
    of: &TypeText,
    nodes: usize,
    sources: &[usize],
    sets: &mut Vec<TagSet>,
) -> Result<usize, AllocError>
    ensures kept { OnOk result (KeepsSets sets.old.items sets.new.items) }
    ensures place { IfOk result (λ place. AreKnown (KnowsTags (module_terms numbers.now) sources.now sets.old.items)
        (module_terms numbers.now) cyclic.now home (type_term of.now) →
        HasCount (module_terms numbers.now) home (type_term of.now) nodes →
        IsSetOf (module_terms numbers.now) home (type_term of.now) sets.new.items place) }
{
    let known = KnownTags {
        numbers,
        cyclic,
        sources,
        sets: sets.as_slice(),
    };
    match named_place(&known, home, of) {
        Some(place) => Ok(place),
        None => {
            let set = set_of(alloc, &known, home, of, nodes)?;
            push_set(sets, set)
        }
    }
}

/// Gathers the tags of an assignment's type.
fn gather_type(
    alloc: Global,
    numbers: &Numbers,
    cyclic: &[bool],
    number: usize,
    nodes: usize,
    sources: &mut Vec<usize>,
    sets: &mut Vec<TagSet>,
) -> Result<(), AllocError>
    ensures { OnOk result (GathersType (module_terms numbers.now) cyclic.now number nodes sources.old.items
        sources.new.items sets.old.items sets.new.items) }
{
    match numbers.tables().type_at(number) {
        Some((home, of)) => {
            let place = place_of(
                alloc,
                numbers,
                cyclic,
                home,
                of,
                nodes,
                sources.as_slice(),
                sets,
            )?;
            set_number(sources, number, place);
            Ok(())
        }
        None => Ok(()),
    }
}

/// Finds the nodes and the tags of an assignment's type.
fn find_type(
    alloc: Global,
    numbers: &Numbers,
    cyclic: &[bool],
    number: usize,
    draft: &mut Draft,
) -> Result<(), AllocError>
    ensures { OnOk result (FindsType (module_terms numbers.now) cyclic.now number draft.old draft.new) }
{
    count_type(numbers.tables(), cyclic, number, &mut draft.nodes);
    let nodes = nodes_told(draft.nodes.as_slice(), number);
    gather_type(
        alloc,
        numbers,
        cyclic,
        number,
        nodes,
        &mut draft.sources,
        &mut draft.sets,
    )
}

/// Finds the nodes and the tags of an assignment's type that doesn't contain itself.
fn find_plain(
    alloc: Global,
    numbers: &Numbers,
    cyclic: &[bool],
    number: usize,
    draft: &mut Draft,
) -> Result<(), AllocError>
    ensures { OnOk result (FindsType (module_terms numbers.now) cyclic.now number draft.old draft.new) }
{
    if is_marked(cyclic, number) {
        Ok(())
    } else {
        find_type(alloc, numbers, cyclic, number, draft)
    }
}

/// Nothing is found yet of so many assignments.
fn empty_draft(alloc: Global, count: usize) -> Result<Draft, AllocError>
    ensures nodes { IfOk result (λ draft. length draft.nodes.items ≡ count) }
    ensures sources { IfOk result (λ draft. length draft.sources.items ≡ count) }
{
    Ok(Draft {
        nodes: vec![in alloc; 0; count]?,
        sources: vec![in alloc; 0; count]?,
        sets: Vec::new(alloc),
    })
}

/// Finds the nodes and the tags of all types that don't contain themselves, in this order.
pub(crate) fn find_types(
    alloc: Global,
    numbers: &Numbers,
    cyclic: &[bool],
    order: &[usize],
) -> Result<Draft, AllocError>
    ensures { IfOk result (λ draft. MarkCyclic (module_terms numbers.now) cyclic.now →
        IsBehindNamed (module_terms numbers.now) order.now →
        IsDraft (module_terms numbers.now) order.now (length order.now) draft) }
{
    let mut draft = empty_draft(alloc, numbers.tables().count())?;
    for number in order.iter() {
        find_plain(alloc, numbers, cyclic, *number, &mut draft)?;
    }
    Ok(draft)
}

/// Counts the nodes of an assignment's type that contains itself.
fn count_marked(tables: &NameTables, cyclic: &[bool], number: usize, nodes: &mut Vec<usize>)
    ensures marked { is_marked cyclic.now number ≡ true →
        CountsType (module_terms tables.now) cyclic.now number nodes.old.items nodes.new.items }
    ensures unmarked { is_marked cyclic.now number ≡ false → nodes.new.items ≡ nodes.old.items }
{
    if is_marked(cyclic, number) {
        count_type(tables, cyclic, number, nodes);
    }
}

/// Counts the nodes of all types that contain themselves, behind those of the others.
pub(crate) fn count_cyclic(tables: &NameTables, cyclic: &[bool], nodes: &mut Vec<usize>)
    ensures { MarkCyclic (module_terms tables.now) cyclic.now →
        AreCounted (module_terms tables.now) 0 nodes.old.items →
        AreCounted (module_terms tables.now) (assignment_count (module_terms tables.now)) nodes.new.items }
{
    for number in 0..tables.count() {
        count_marked(tables, cyclic, number, nodes);
    }
}

/// What is known of all assigned types.
#[derive(Drop)]
pub struct Facts {
    /// For each assignment whether its type contains itself.
    pub cyclic: Vec<bool>,
    pub found: Draft,
}

/// Finds the facts of all assigned types.
pub(crate) fn find_facts(alloc: Global, numbers: &Numbers) -> Result<Facts, AllocError>
    ensures { IfOk result (λ facts. AreFacts (module_terms numbers.now) facts.cyclic.items facts.found.nodes.items
        facts.found.sources.items facts.found.sets.items) }
{
    let cycles = contained_types(alloc, numbers.tables())?;
    let mut found = find_types(
        alloc,
        numbers,
        cycles.cyclic.as_slice(),
        cycles.order.as_slice(),
    )?;
    count_cyclic(numbers.tables(), cycles.cyclic.as_slice(), &mut found.nodes);
    Ok(Facts {
        cyclic: cycles.cyclic,
        found,
    })
}
