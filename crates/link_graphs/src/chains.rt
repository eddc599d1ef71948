//! Where chains end: each element leads to at most one other.

ghost use Rattle.std.specs.Prelude.{◌≡◌, IfOk, map};
ghost use Rattle.link_graphs.specs.Leading.{target_lists};
ghost use Rattle.link_graphs.specs.ChainEnds.{AreEnds, end_now, link_targets};

use crate::graph::Graph;
use crate::walking::finishing_order;
use std::alloc::{AllocError, Global};

/// Where an element leads.
#[derive(Clone, Copy, PartialEq, Eq)]
pub enum Link {
    /// It is an end.
    End,
    /// To the element at this place.
    Next(usize),
    /// Nowhere.
    Stop,
}

fn targets_of_link(alloc: Global, link: Link) -> Result<Vec<usize>, AllocError>
    ensures { IfOk result (λ targets. targets.items ≡ link_targets link) }
{
    let mut targets = Vec::new(alloc);
    if let Link::Next(next) = link {
        targets.push(next)?;
    }
    Ok(targets)
}

/// The graph of the elements that links lead to.
fn graph_of_links(alloc: Global, links: &[Link]) -> Result<Graph, AllocError>
    ensures { IfOk result (λ graph. target_lists graph ≡ map link_targets links.now) }
{
    let mut targets = Vec::new(alloc);
    for link in links {
        targets.push(targets_of_link(alloc, *link)?)?;
    }
    Ok(Graph { targets })
}

/// The end of an element, from the ends that are known.
fn end_of(link: Link, element: usize, ends: &[Option<usize>]) -> Option<usize>
    ensures { result ≡ end_now link element ends.now }
{
    match link {
        Link::End => Some(element),
        Link::Next(next) => match ends.get(next) {
            Some(end) => *end,
            None => None,
        },
        Link::Stop => None,
    }
}

/// For each element the end to which it leads: none exactly where it leads nowhere, or round in a circle. The time
/// grows with the number of elements.
pub fn chain_ends(alloc: Global, links: &[Link]) -> Result<Vec<Option<usize>>, AllocError>
    ensures { IfOk result (λ ends. AreEnds links.now ends.items) }
{
    let graph = graph_of_links(alloc, links)?;
    let order = finishing_order(alloc, &graph)?;
    let mut ends: Vec<Option<usize>> = vec![in alloc; None; links.len()]?;
    for place in 0..order.len() {
        let element = order[place];
        ends[element] = end_of(links[element], element, ends.as_slice());
    }
    Ok(ends)
}
