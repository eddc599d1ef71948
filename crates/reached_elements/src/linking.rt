//! Graphs that are made link by link.

ghost use Rattle.std.specs.Prelude.{◌≡◌, [], IfOk, OnOk, replicate};
ghost use Rattle.link_graphs.specs.Leading.{target_lists};
ghost use Rattle.reached_elements.specs.Linking.{GainsLinks, IsLink, LinksAll, LinksEach, LinksThat, LinksThose};

use link_graphs::Graph;
use std::alloc::{AllocError, Global};

/// A graph of so many elements that lead nowhere.
pub fn unlinked(alloc: Global, count: usize) -> Result<Graph, AllocError>
    ensures { IfOk result (λ graph. target_lists graph ≡ replicate count []) }
{
    let mut targets = Vec::new(alloc);
    for _ in 0..count {
        targets.push(Vec::new(alloc))?;
    }
    Ok(Graph { targets })
}

/// Lets an element lead to one more.
fn add_link(graph: &mut Graph, element: usize, target: usize) -> Result<(), AllocError>
    ensures { OnOk result (GainsLinks (IsLink element target) (target_lists graph.old) (target_lists graph.new)) }
{
    if let Some(targets) = graph.targets.get_mut(element) {
        targets.push(target)?;
    }
    Ok(())
}

/// The same, where there is a target.
fn add_that(graph: &mut Graph, element: usize, target: Option<usize>) -> Result<(), AllocError>
    ensures { OnOk result (GainsLinks (LinksThat element target) (target_lists graph.old) (target_lists graph.new)) }
{
    match target {
        Some(target) => add_link(graph, element, target),
        None => Ok(()),
    }
}

/// Lets an element lead to each of these.
fn add_each(graph: &mut Graph, element: usize, targets: &[Option<usize>]) -> Result<(), AllocError>
    ensures { OnOk result (GainsLinks (LinksEach element targets.now) (target_lists graph.old)
        (target_lists graph.new)) }
{
    for target in targets.iter() {
        add_that(graph, element, *target)?;
    }
    Ok(())
}

/// The same, where there is an element.
fn add_those(
    graph: &mut Graph,
    element: Option<usize>,
    targets: &[Option<usize>],
) -> Result<(), AllocError>
    ensures { OnOk result (GainsLinks (LinksThose element targets.now) (target_lists graph.old)
        (target_lists graph.new)) }
{
    match element {
        Some(element) => add_each(graph, element, targets),
        None => Ok(()),
    }
}

/// Lets each of these elements lead to each of those, as far as there are any. What stands past the end of the list
/// leads nowhere.
pub fn add_links(
    graph: &mut Graph,
    elements: &[Option<usize>],
    targets: &[Option<usize>],
) -> Result<(), AllocError>
    ensures { OnOk result (GainsLinks (LinksAll elements.now targets.now) (target_lists graph.old)
        (target_lists graph.new)) }
{
    for element in elements.iter() {
        add_those(graph, *element, targets)?;
    }
    Ok(())
}
