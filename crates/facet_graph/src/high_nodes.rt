ghost use Rattle.std.specs.Prelude.{◌≡◌, ◌++◌, ◌-◌, ◌<◌, ◌↔◌, IsTrue, OnOk, slice_index_or};
ghost use Rattle.facet_graph.specs.HighNodes.{behind, high_edges};

use crate::graph::Graph;
use std::alloc::{AllocError, Global};

/// The nodes of a graph from one on, with the edges between them that lead from nodes that are too high. No other edge
/// is on a cycle where no node before them is too high.
#[derive(Drop)]
pub(crate) struct HighNodes<'a, G> {
    pub alloc: Global,
    pub graph: &'a G,
    pub first: usize,
    pub heights: &'a [u8],
}

impl<'a, G: Graph> Graph for HighNodes<'a, G> {
    ghost count = { λ nodes. G.count nodes.graph.now - nodes.first };

    ghost edges = { λ nodes. high_edges (G.edges nodes.graph.now) nodes.first nodes.heights.now };

    fn len(&self) -> usize {
        self.graph.len().saturating_sub(self.first)
    }

    fn push_edges(&self, node: usize, to: &mut Vec<usize>) -> Result<(), AllocError> {
        // Counted from the end, since the nodes are the last ones.
        let node = self.graph.len() - (self.len() - node);
        if is_low(self.heights, node) {
            return Ok(());
        }
        let mut nodes = Vec::new(self.alloc);
        self.graph.push_edges(node, &mut nodes)?;
        push_behind(self.first, &nodes, to)
    }
}

// Whether the node has a height.
fn is_low(heights: &[u8], node: usize) -> bool
    ensures { IsTrue result ↔ (0 < slice_index_or heights.now node 0) }
{
    match heights.get(node) {
        Some(height) => *height > 0,
        None => false,
    }
}

// Adds the nodes that don't stand before the first, each by how far it stands behind it.
fn push_behind(first: usize, nodes: &[usize], to: &mut Vec<usize>) -> Result<(), AllocError>
    ensures { OnOk result (to.new.items ≡ to.old.items ++ behind first nodes.now) }
{
    for node in nodes {
        if first <= *node {
            to.push(*node - first)?;
        }
    }
    Ok(())
}
