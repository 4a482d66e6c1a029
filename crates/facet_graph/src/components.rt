ghost use Rattle.std.specs.Prelude.{◌≡◌, ◌<◌, ℕ, All, IfOk, OnOk, vec_len};
ghost use Rattle.facet_graph.specs.Components.{IsInside, node_of};
ghost use Rattle.facet_graph.specs.Reach.{StaysWithin};

use crate::graph::Graph;
use crate::labels::least_behind;
use std::alloc::{AllocError, Global};

// A step of the search for components.
#[derive(Drop)]
enum Step {
    // Visits a node, if it wasn't visited.
    Enter(usize),
    // What is reached from the node was visited.
    Leave(usize),
}

// A search for components: nodes that reach one another, of which one is found after all those that it reaches. The
// label of a node is 0 until it is visited, then the place of its first visit, or of an earlier node that it reaches
// and that is open too, and at last the label of its component, which is lower than those found before.
#[derive(Drop)]
struct Labelling {
    labels: Vec<usize>,
    open_nodes: Vec<usize>,
    steps: Vec<Step>,
    visited: usize,
    next_label: usize,
}

// Labels that rise along each edge between two components, and are equal in one component. Nothing of that is proved, so
// whoever rests on the labels tests them.
pub(crate) fn component_labels<G: Graph>(
    alloc: Global,
    graph: &G,
    buffer: &mut Vec<usize>,
) -> Result<Vec<usize>, AllocError>
    requires edges { StaysWithin (G.edges graph.now) (G.count graph.now) }
    ensures { IfOk result (λ labels. vec_len labels ≡ G.count graph.now) }
{
    let mut labelling = Labelling {
        labels: vec![in alloc; 0; graph.len()]?,
        open_nodes: Vec::new(alloc),
        steps: Vec::new(alloc),
        visited: 0,
        next_label: usize::MAX - 1,
    };
    for node in 0..graph.len() {
        labelling.steps.push(Step::Enter(node))?;
    }
    // No search takes so many steps: the bound shows that it ends.
    for done in 0..usize::MAX {
        match labelling.steps.pop() {
            Some(Step::Enter(node)) => enter(graph, node, &mut labelling, buffer)?,
            Some(Step::Leave(node)) => leave(graph, node, &mut labelling, buffer)?,
            None => return Ok(labelling.labels),
        }
    }
    Ok(labelling.labels)
}

// Visits a node, and all that is reached from it before the node is left.
fn enter<G: Graph>(
    graph: &G,
    node: usize,
    labelling: &mut Labelling,
    buffer: &mut Vec<usize>,
) -> Result<(), AllocError>
    requires edges { StaysWithin (G.edges graph.now) (G.count graph.now) }
    requires node { node < G.count graph.now }
    requires len { vec_len labelling.old.labels ≡ G.count graph.now }
    requires inside { IsInside labelling.old }
    ensures inside { OnOk result (IsInside labelling.new) }
    ensures len { vec_len labelling.new.labels ≡ vec_len labelling.old.labels }
{
    if labelling.labels[node] > 0 {
        return Ok(());
    }
    labelling.visited = labelling.visited.saturating_add(1);
    labelling.labels[node] = labelling.visited;
    labelling.steps.push(Step::Leave(node))?;
    buffer.clear();
    graph.push_edges(node, buffer)?;
    push_steps(buffer, &mut labelling.steps)?;
    Ok(())
}

// Visits these nodes next.
fn push_steps(nodes: &[usize], steps: &mut Vec<Step>) -> Result<(), AllocError>
    ensures { OnOk result ((n : ℕ) → All (λ s. s < n) nodes.now → All (λ step. node_of step < n) steps.old.items → All (λ step. node_of step < n) steps.new.items) }
{
    for node in nodes {
        steps.push(Step::Enter(*node))?;
    }
    Ok(())
}

// Leaves a node. Where it reaches no earlier node that is open, its component is found.
fn leave<G: Graph>(
    graph: &G,
    node: usize,
    labelling: &mut Labelling,
    buffer: &mut Vec<usize>,
) -> Result<(), AllocError>
    requires edges { StaysWithin (G.edges graph.now) (G.count graph.now) }
    requires node { node < G.count graph.now }
    requires len { vec_len labelling.old.labels ≡ G.count graph.now }
    requires inside { IsInside labelling.old }
    ensures inside { OnOk result (IsInside labelling.new) }
    ensures len { vec_len labelling.new.labels ≡ vec_len labelling.old.labels }
{
    let own = labelling.labels[node];
    let least = least_behind(graph, node, &labelling.labels, buffer)?;
    labelling.open_nodes.push(node)?;
    if least < own {
        labelling.labels[node] = least;
        return Ok(());
    }
    close(own, labelling)
}

// Labels the component of the open nodes from the place of a visit on.
fn close(first: usize, labelling: &mut Labelling) -> Result<(), AllocError>
    requires inside { IsInside labelling.old }
    ensures inside { OnOk result (IsInside labelling.new) }
    ensures len { vec_len labelling.new.labels ≡ vec_len labelling.old.labels }
{
    while let Some(node) = labelling.open_nodes.pop() {
        if labelling.labels[node] < first {
            labelling.open_nodes.push(node)?;
            break;
        }
        labelling.labels[node] = labelling.next_label;
    }
    labelling.next_label = labelling.next_label.saturating_sub(1);
    Ok(())
}
