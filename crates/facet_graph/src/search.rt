ghost use Rattle.std.specs.Prelude.{◌≡◌, ◌↔◌, ◌<◌, ℕ, Bool, List, [], All, Any, IfOk, IsTrue, OnErr, vec_len};
ghost use Rattle.std.specs.Bool.{OnFalse, OnTrue};
ghost use Rattle.facet_graph.specs.Marks.{AreClean, AreKept, IsMarked};
ghost use Rattle.facet_graph.specs.Reach.{Reaches, ReachesBad, StaysWithin, edges_from};
ghost use Rattle.facet_graph.specs.Trail.{IsTrail};

use crate::graph::{Graph, Search};
use std::alloc::{AllocError, Global};

/// Whether a bad node is reached from one of the starts, by zero or more edges. Marked nodes are passed over. Where the
/// answer is no, each node that was visited is marked, so many searches together visit each node once. Nodes before
/// `first` are searched from one by one before the others are, so those from which no bad node is reached are marked
/// whatever the answer.
pub fn reaches_bad<G: Search>(
    alloc: Global,
    graph: &G,
    first: usize,
    starts: Vec<usize>,
    marks: &mut Vec<bool>,
) -> Result<bool, AllocError>
    requires edges { StaysWithin (G.edges graph.now) (G.count graph.now) }
    requires starts { All (λ s. s < G.count graph.now) starts.items }
    requires len { vec_len marks.old ≡ G.count graph.now }
    requires clean { AreClean (G.edges graph.now) (G.bad graph.now) marks.old.items }
    ensures found { IfOk result (λ found. IsTrue found ↔ Any (ReachesBad (G.edges graph.now) (G.bad graph.now)) starts.items) }
    ensures clean { AreClean (G.edges graph.now) (G.bad graph.now) marks.new.items }
    ensures marked { IfOk result (λ found. OnFalse found (All (IsMarked marks.new.items) starts.items)) }
    ensures kept { AreKept marks.old.items marks.new.items }
    ensures len { vec_len marks.new ≡ vec_len marks.old }
{
    let nodes = nodes_reached(alloc, graph, first, &starts, marks)?;
    if is_bad_reached_before(alloc, graph, first, &nodes, marks)? {
        return Ok(true);
    }
    search_from(alloc, graph, starts, marks)
}

// Nodes without a mark that are reached from the starts, by edges from nodes from `first` on alone.
fn nodes_reached<G: Search>(
    alloc: Global,
    graph: &G,
    first: usize,
    starts: &[usize],
    marks: &mut Vec<bool>,
) -> Result<Vec<usize>, AllocError>
    requires edges { StaysWithin (G.edges graph.now) (G.count graph.now) }
    requires starts { All (λ s. s < G.count graph.now) starts.now }
    requires len { vec_len marks.old ≡ G.count graph.now }
    ensures reached { IfOk result (λ nodes. All (λ t. Any (λ s. Reaches (G.edges graph.now) s t) starts.now) nodes.items) }
    ensures within { IfOk result (λ nodes. All (λ t. t < G.count graph.now) nodes.items) }
    ensures unchanged { marks.new.items ≡ marks.old.items }
    ensures len { vec_len marks.new ≡ vec_len marks.old }
{
    let mut left = Vec::new(alloc);
    left.extend_from_slice(starts)?;
    let mut trail = Vec::new(alloc);
    let answer = walk(&EdgesFrom { graph, first }, left, marks, &mut trail);
    take_back(marks, &trail);
    match answer {
        Ok(_) => Ok(trail),
        Err(error) => Err(error),
    }
}

// Whether a bad node is reached from one of the nodes before `first`, each of which is searched from on its own.
fn is_bad_reached_before<G: Search>(
    alloc: Global,
    graph: &G,
    first: usize,
    nodes: &[usize],
    marks: &mut Vec<bool>,
) -> Result<bool, AllocError>
    requires edges { StaysWithin (G.edges graph.now) (G.count graph.now) }
    requires nodes { All (λ t. t < G.count graph.now) nodes.now }
    requires len { vec_len marks.old ≡ G.count graph.now }
    requires clean { AreClean (G.edges graph.now) (G.bad graph.now) marks.old.items }
    ensures found { IfOk result (λ found. OnTrue found (Any (ReachesBad (G.edges graph.now) (G.bad graph.now)) nodes.now)) }
    ensures clean { AreClean (G.edges graph.now) (G.bad graph.now) marks.new.items }
    ensures kept { AreKept marks.old.items marks.new.items }
    ensures len { vec_len marks.new ≡ vec_len marks.old }
{
    for node in nodes {
        if *node < first && search_from(alloc, graph, vec![in alloc; *node]?, marks)? {
            return Ok(true);
        }
    }
    Ok(false)
}

// The search of all starts at once. Where the answer is yes, and out of memory, the marks are as before.
pub(crate) fn search_from<G: Search>(
    alloc: Global,
    graph: &G,
    starts: Vec<usize>,
    marks: &mut Vec<bool>,
) -> Result<bool, AllocError>
    requires edges { StaysWithin (G.edges graph.now) (G.count graph.now) }
    requires starts { All (λ s. s < G.count graph.now) starts.items }
    requires len { vec_len marks.old ≡ G.count graph.now }
    requires clean { AreClean (G.edges graph.now) (G.bad graph.now) marks.old.items }
    ensures found { IfOk result (λ found. IsTrue found ↔ Any (ReachesBad (G.edges graph.now) (G.bad graph.now)) starts.items) }
    ensures clean { AreClean (G.edges graph.now) (G.bad graph.now) marks.new.items }
    ensures marked { IfOk result (λ found. OnFalse found (All (IsMarked marks.new.items) starts.items)) }
    ensures kept { AreKept marks.old.items marks.new.items }
    ensures unchanged { IfOk result (λ found. OnTrue found (marks.new.items ≡ marks.old.items)) }
    ensures err { OnErr result (marks.new.items ≡ marks.old.items) }
    ensures len { vec_len marks.new ≡ vec_len marks.old }
{
    let mut trail = Vec::new(alloc);
    let answer = walk(graph, starts, marks, &mut trail);
    if let Ok(false) = answer {
        return Ok(false);
    }
    take_back(marks, &trail);
    answer
}

// The walk of a search. The trail has what it marked, whatever comes of it.
fn walk<G: Search>(
    graph: &G,
    starts: Vec<usize>,
    marks: &mut Vec<bool>,
    trail: &mut Vec<usize>,
) -> Result<bool, AllocError>
    requires edges { StaysWithin (G.edges graph.now) (G.count graph.now) }
    requires starts { All (λ s. s < G.count graph.now) starts.items }
    requires len { vec_len marks.old ≡ G.count graph.now }
    requires clean { AreClean (G.edges graph.now) (G.bad graph.now) marks.old.items }
    requires trail { trail.old.items ≡ [] }
    ensures found { IfOk result (λ found. IsTrue found ↔ Any (ReachesBad (G.edges graph.now) (G.bad graph.now)) starts.items) }
    ensures clean { IfOk result (λ found. OnFalse found (AreClean (G.edges graph.now) (G.bad graph.now) marks.new.items)) }
    ensures marked { IfOk result (λ found. OnFalse found (All (IsMarked marks.new.items) starts.items)) }
    ensures trail { IsTrail marks.old.items marks.new.items trail.new.items }
    ensures reached { All (λ t. Any (λ s. Reaches (G.edges graph.now) s t) starts.items) trail.new.items }
    ensures within { All (λ s. s < vec_len marks.new) trail.new.items }
    ensures len { vec_len marks.new ≡ vec_len marks.old }
{
    let mut left = starts;
    while let Some(node) = left.pop() {
        if marks[node] {
            continue;
        }
        if graph.is_bad(node) {
            return Ok(true);
        }
        trail.push(node)?;
        marks[node] = true;
        graph.push_edges(node, &mut left)?;
    }
    Ok(false)
}

// Takes the marks of the nodes on the trail away.
fn take_back(marks: &mut Vec<bool>, trail: &[usize])
    requires { All (λ s. s < vec_len marks.old) trail.now }
    ensures back { (before : List Bool) → IsTrail before marks.old.items trail.now → marks.new.items ≡ before }
    ensures len { vec_len marks.new ≡ vec_len marks.old }
{
    for node in trail {
        marks[*node] = false;
    }
}

// The graph with the edges from nodes from `first` on alone, in which no node is bad.
#[derive(Drop)]
struct EdgesFrom<'a, G> {
    graph: &'a G,
    first: usize,
}

impl<'a, G: Graph> Graph for EdgesFrom<'a, G> {
    ghost count = { λ from. G.count from.graph.now };

    ghost edges = { λ from. edges_from from.first (G.edges from.graph.now) };

    fn len(&self) -> usize {
        self.graph.len()
    }

    fn push_edges(&self, node: usize, to: &mut Vec<usize>) -> Result<(), AllocError> {
        if node < self.first {
            return Ok(());
        }
        self.graph.push_edges(node, to)
    }
}

impl<'a, G: Graph> Search for EdgesFrom<'a, G> {
    ghost use Rattle.std.specs.Prelude.{false};

    ghost bad = { λ from s. false };

    fn is_bad(&self, _node: usize) -> bool {
        false
    }
}
