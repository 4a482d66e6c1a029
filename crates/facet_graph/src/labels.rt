ghost use Rattle.std.specs.Prelude.{◌≡◌, ◌<◌, ◌≤◌, All, IfOk, length, slice_index_or, vec_len};
ghost use Rattle.std.specs.Bool.{OnTrue};
ghost use Rattle.facet_graph.specs.Labels.{AreAtLeast, AreRising};
ghost use Rattle.facet_graph.specs.Reach.{StaysWithin};

use crate::components::component_labels;
use crate::graph::Graph;
use std::alloc::{AllocError, Global};

// Labels that never fall along edges. They are those of a search for components, once they are tested, and otherwise
// all are equal.
pub(crate) fn rising_labels<G: Graph>(alloc: Global, graph: &G) -> Result<Vec<usize>, AllocError>
    requires edges { StaysWithin (G.edges graph.now) (G.count graph.now) }
    ensures len { IfOk result (λ labels. vec_len labels ≡ G.count graph.now) }
    ensures rising { IfOk result (λ labels. AreRising (G.edges graph.now) (G.count graph.now) labels.items) }
{
    let mut buffer = Vec::new(alloc);
    let labels = component_labels(alloc, graph, &mut buffer)?;
    if are_rising(graph, &labels, &mut buffer)? {
        return Ok(labels);
    }
    Ok(vec![in alloc; 0; graph.len()]?)
}

// The least label of the nodes behind the edges of a node, or a great number where it has none.
pub(crate) fn least_behind<G: Graph>(
    graph: &G,
    node: usize,
    labels: &[usize],
    buffer: &mut Vec<usize>,
) -> Result<usize, AllocError>
    requires edges { StaysWithin (G.edges graph.now) (G.count graph.now) }
    requires node { node < G.count graph.now }
    requires len { length labels.now ≡ G.count graph.now }
    ensures { IfOk result (AreAtLeast (G.edges graph.now) labels.now node) }
{
    buffer.clear();
    graph.push_edges(node, buffer)?;
    Ok(least_label(buffer, labels))
}

fn least_label(nodes: &[usize], labels: &[usize]) -> usize
    requires { All (λ t. t < length labels.now) nodes.now }
    ensures { All (λ t. result ≤ slice_index_or labels.now t 0) nodes.now }
{
    let mut least = usize::MAX;
    for node in nodes {
        least = least.min(labels[*node]);
    }
    least
}

// Whether no edge leads to a lower label.
fn are_rising<G: Graph>(
    graph: &G,
    labels: &[usize],
    buffer: &mut Vec<usize>,
) -> Result<bool, AllocError>
    requires edges { StaysWithin (G.edges graph.now) (G.count graph.now) }
    requires len { length labels.now ≡ G.count graph.now }
    ensures { IfOk result (λ rising. OnTrue rising (AreRising (G.edges graph.now) (G.count graph.now) labels.now)) }
{
    for node in 0..graph.len() {
        if !rises_from(graph, node, labels, buffer)? {
            return Ok(false);
        }
    }
    Ok(true)
}

// Whether no edge from the node leads to a lower label.
fn rises_from<G: Graph>(
    graph: &G,
    node: usize,
    labels: &[usize],
    buffer: &mut Vec<usize>,
) -> Result<bool, AllocError>
    requires edges { StaysWithin (G.edges graph.now) (G.count graph.now) }
    requires node { node < G.count graph.now }
    requires len { length labels.now ≡ G.count graph.now }
    ensures { IfOk result (λ rises. OnTrue rises (AreAtLeast (G.edges graph.now) labels.now node (slice_index_or labels.now node 0))) }
{
    Ok(labels[node] <= least_behind(graph, node, labels, buffer)?)
}
