//! Lists of numbers that begin where others end: each is kept once, so that long chains of them take linear time.

ghost use Rattle.std.specs.Prelude.{◌≡◌, ◌++◌, ℕ, List, Some, IfOk, IsTrue, ◌↔◌, true};
ghost use Rattle.std.specs.List.{slice_get};
ghost use Rattle.std.specs.Option.{option_and_then};
ghost use Rattle.key_numbers.specs.NumberedLists.{Grows, IsList};
ghost use Rattle.link_graphs.specs.Cycles.{MarkCycles};
ghost use Rattle.link_graphs.specs.Leading.{target_lists};
ghost use Rattle.identifier_arcs.specs.Chains.{AreTold, IsBegun, TellsBegin, TellsNumbers, chain_lists, chain_targets};
ghost use Rattle.identifier_arcs.specs.Chains.{IsAcyclic};

use key_numbers::number_lists::{EMPTY_LIST, NumberLists};
use link_graphs::cycles::find_cycles;
use link_graphs::graph::Graph;
use std::alloc::{AllocError, Global};

/// With what the numbers of an element begin.
#[derive(Clone, Copy)]
pub enum Begin {
    /// With this one.
    Number(u64),
    /// With those of the element at this place.
    Element(usize),
    /// It has none.
    Nowhere,
}

/// The numbers of an element.
#[derive(Drop)]
pub struct Chain {
    /// With what they begin.
    pub begin: Begin,
    /// Those behind.
    pub others: Vec<u64>,
}

/// The list of the numbers of each element.
#[derive(Drop)]
pub struct ChainNumbers {
    /// All lists.
    pub lists: NumberLists,
    /// The number of the list of each element, where it has one.
    pub told: Vec<Option<usize>>,
}

/// The places to which an element leads.
fn targets_of(alloc: Global, begin: Begin) -> Result<Vec<usize>, AllocError>
    ensures { IfOk result (λ targets. targets.items ≡ chain_targets begin) }
{
    let mut targets = Vec::new(alloc);
    if let Begin::Element(place) = begin {
        targets.push(place)?;
    }
    Ok(targets)
}

/// To which elements each leads.
fn graph_of(alloc: Global, chains: &[Chain]) -> Result<Graph, AllocError>
    ensures { IfOk result (λ graph. target_lists graph ≡ chain_lists chains.now) }
{
    let mut targets = Vec::new(alloc);
    for chain in chains {
        targets.push(targets_of(alloc, chain.begin)?)?;
    }
    Ok(Graph { targets })
}

/// A list with numbers behind it.
fn list_behind(lists: &mut NumberLists, before: usize, numbers: &[u64]) -> Result<usize, AllocError>
    ensures grows { Grows lists.old lists.new }
    ensures is { IfOk result (λ n. (xs : List ℕ) → IsList lists.old before xs →
        IsList lists.new n (xs ++ numbers.now)) }
{
    let mut list = before;
    for number in numbers {
        list = lists.extended(list, *number)?;
    }
    Ok(list)
}

/// What is told of the element at a place.
pub fn told_at(told: &[Option<usize>], place: usize) -> Option<usize>
    ensures { result ≡ option_and_then (λ x. x) (slice_get told.now place) }
{
    match told.get(place) {
        Some(known) => *known,
        None => None,
    }
}

/// The list with which an element begins. `told` tells those of other elements.
fn begin_list(
    lists: &mut NumberLists,
    begin: Begin,
    told: &[Option<usize>],
) -> Result<Option<usize>, AllocError>
    ensures grows { Grows lists.old lists.new }
    ensures is { IfOk result (λ answer. TellsBegin lists.new begin told.now answer) }
{
    match begin {
        Begin::Number(first) => Ok(Some(lists.extended(EMPTY_LIST, first)?)),
        Begin::Element(place) => Ok(told_at(told, place)),
        Begin::Nowhere => Ok(None),
    }
}

/// The list of the numbers of an element; none where it has none. `told` tells those of other elements, at least of the
/// one with which it begins.
pub fn chain_list(
    lists: &mut NumberLists,
    chain: &Chain,
    told: &[Option<usize>],
) -> Result<Option<usize>, AllocError>
    ensures grows { Grows lists.old lists.new }
    ensures is { IfOk result (λ answer. (chains : List Chain) → IsBegun lists.old chains told.now chain.now.begin →
        TellsNumbers lists.new chains chain.now answer) }
{
    match begin_list(lists, chain.begin, told)? {
        Some(begun) => Ok(Some(list_behind(lists, begun, chain.others.as_slice())?)),
        None => Ok(None),
    }
}

fn is_marked(marks: &[bool], element: usize) -> bool
    ensures { IsTrue result ↔ slice_get marks.now element ≡ Some true }
{
    match marks.get(element) {
        Some(marked) => *marked,
        None => false,
    }
}

/// The list of the numbers of an element. `cyclic` marks those that lead back to themselves.
fn element_list(
    lists: &mut NumberLists,
    chains: &[Chain],
    cyclic: &[bool],
    told: &[Option<usize>],
    element: usize,
) -> Result<Option<usize>, AllocError>
    ensures grows { Grows lists.old lists.new }
    ensures is { IfOk result (λ answer. (x : Chain) → slice_get chains.now element ≡ Some x →
        MarkCycles (chain_lists chains.now) cyclic.now → (IsAcyclic chains.now element →
        IsBegun lists.old chains.now told.now x.begin) → TellsNumbers lists.new chains.now x answer) }
{
    if is_marked(cyclic, element) {
        return Ok(None);
    }
    match chains.get(element) {
        Some(chain) => Ok(chain_list(lists, chain, told)?),
        None => Ok(None),
    }
}

/// The list of the numbers of each element: none exactly where it has none, since it begins nowhere, or with an element
/// that has none, or leads back to itself. The time grows with the number of elements and of numbers.
pub fn chain_numbers(alloc: Global, chains: &[Chain]) -> Result<ChainNumbers, AllocError>
    ensures { IfOk result (λ numbers. AreTold numbers.lists chains.now numbers.told.items) }
{
    let graph = graph_of(alloc, chains)?;
    let cycles = find_cycles(alloc, &graph)?;
    let mut lists = NumberLists::new(alloc);
    let mut told: Vec<Option<usize>> = vec![in alloc; None; chains.len()]?;
    for place in 0..cycles.order.len() {
        let element = cycles.order[place];
        told[element] = element_list(
            &mut lists,
            chains,
            cycles.cyclic.as_slice(),
            told.as_slice(),
            element,
        )?;
    }
    Ok(ChainNumbers { lists, told })
}
