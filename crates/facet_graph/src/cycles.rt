ghost use Rattle.std.specs.Prelude.{◌≡◌, ◌<◌, ◌↔◌, ◌==◌, ℕ, IfOk, IsTrue, length};
ghost use Rattle.facet_graph.specs.Height.{AreHeights, AreLow};
ghost use Rattle.facet_graph.specs.Labels.{AreRising};
ghost use Rattle.facet_graph.specs.Least.{IsLeast};
ghost use Rattle.facet_graph.specs.Reach.{ReachesItself, StaysWithin};

use crate::graph::{Graph, Search};
use crate::heights::first_too_high;
use crate::high_nodes::HighNodes;
use crate::labels::{least_behind, rising_labels};
use crate::search::search_from;
use std::alloc::{AllocError, Global};

/// The least node that reaches itself by one or more edges, and None where no node does. No node before `first` is too
/// high. It only looks at the nodes from `first` on, and where none of them is too high at their heights alone.
pub fn first_on_cycle<G: Graph>(
    alloc: Global,
    graph: &G,
    first: usize,
    heights: &[u8],
) -> Result<Option<usize>, AllocError>
    requires edges { StaysWithin (G.edges graph.now) (G.count graph.now) }
    requires len { length heights.now ≡ G.count graph.now }
    requires heights { AreHeights (G.edges graph.now) (G.count graph.now) heights.now }
    requires first { AreLow (G.edges graph.now) first heights.now }
    ensures { IfOk result (IsLeast (ReachesItself (G.edges graph.now)) (G.count graph.now)) }
{
    let Some(start) = first_too_high(graph, first, heights) else {
        return Ok(None);
    };
    let nodes = HighNodes {
        alloc,
        graph,
        first: start,
        heights,
    };
    match least_on_cycle(alloc, &nodes)? {
        Some(node) => Ok(Some(start + node)),
        None => Ok(None),
    }
}

// The same of all nodes.
fn least_on_cycle<G: Graph>(alloc: Global, graph: &G) -> Result<Option<usize>, AllocError>
    requires edges { StaysWithin (G.edges graph.now) (G.count graph.now) }
    ensures { IfOk result (IsLeast (ReachesItself (G.edges graph.now)) (G.count graph.now)) }
{
    let labels = rising_labels(alloc, graph)?;
    for node in 0..graph.len() {
        if is_on_cycle(alloc, graph, node, &labels)? {
            return Ok(Some(node));
        }
    }
    Ok(None)
}

// Whether a node reaches itself by one or more edges. One from which each edge leads to a higher label doesn't. Any
// other is searched from.
fn is_on_cycle<G: Graph>(
    alloc: Global,
    graph: &G,
    node: usize,
    labels: &[usize],
) -> Result<bool, AllocError>
    requires edges { StaysWithin (G.edges graph.now) (G.count graph.now) }
    requires node { node < G.count graph.now }
    requires len { length labels.now ≡ G.count graph.now }
    requires rising { AreRising (G.edges graph.now) (G.count graph.now) labels.now }
    ensures { IfOk result (λ found. IsTrue found ↔ ReachesItself (G.edges graph.now) node) }
{
    let mut starts = Vec::new(alloc);
    if labels[node] < least_behind(graph, node, labels, &mut starts)? {
        return Ok(false);
    }
    starts.clear();
    graph.push_edges(node, &mut starts)?;
    let mut marks = vec![in alloc; false; graph.len()]?;
    search_from(alloc, &Back { graph, node }, starts, &mut marks)
}

// The graph in which one node is bad.
#[derive(Drop)]
struct Back<'a, G> {
    graph: &'a G,
    node: usize,
}

impl<'a, G: Graph> Graph for Back<'a, G> {
    ghost count = { λ back. G.count back.graph.now };

    ghost edges = { λ back. G.edges back.graph.now };

    fn len(&self) -> usize {
        self.graph.len()
    }

    fn push_edges(&self, node: usize, to: &mut Vec<usize>) -> Result<(), AllocError> {
        self.graph.push_edges(node, to)
    }
}

impl<'a, G: Graph> Search for Back<'a, G> {
    ghost bad = { λ back s. s == back.node };

    fn is_bad(&self, node: usize) -> bool {
        node == self.node
    }
}
