ghost use Rattle.std.specs.Prelude.{◌≡◌, ◌<◌, ◌≤◌, ◌+◌, ◌↔◌, ℕ, All, IfOk, OnOk, length, slice_index_or, take, vec_len};
ghost use Rattle.std.specs.Bool.{OnFalse};
ghost use Rattle.facet_graph.specs.Height.{AreHeights, AreLow, IsLow, IsTooHigh, IsWithin};
ghost use Rattle.facet_graph.specs.Least.{IsLeast};
ghost use Rattle.facet_graph.specs.Passes.{AreFilled, AreKnown, AreReady};
ghost use Rattle.facet_graph.specs.Reach.{StaysWithin};

use crate::graph::Graph;
use std::alloc::{AllocError, Global};

/// The greatest height that a table tells.
pub const MAX_HEIGHT: u8 = 100;

/// Lengthens a table of the heights of the first nodes, none of which is too high, to all nodes. A node that is too
/// high gets 0. It passes over the nodes that are new at most 100 times, and stops where a pass finds nothing.
/// Out of memory, the table still begins with the entries that it had.
pub fn fill_heights<G: Graph>(
    alloc: Global,
    graph: &G,
    heights: &mut Vec<u8>,
) -> Result<(), AllocError>
    requires edges { StaysWithin (G.edges graph.now) (G.count graph.now) }
    requires fits { vec_len heights.old ≤ G.count graph.now }
    requires known { AreLow (G.edges graph.now) (vec_len heights.old) heights.old.items }
    ensures heights { OnOk result (AreHeights (G.edges graph.now) (G.count graph.now) heights.new.items) }
    ensures len { OnOk result (vec_len heights.new ≡ G.count graph.now) }
    ensures begins { take (vec_len heights.old) heights.new.items ≡ heights.old.items }
{
    let first = heights.len();
    heights.resize(graph.len(), 0)?;
    fill_blanks(alloc, graph, first, heights)
}

/// The least node that is too high, and None where no node is. No node before `first` is.
pub fn first_too_high<G: Graph>(graph: &G, first: usize, heights: &[u8]) -> Option<usize>
    requires len { length heights.now ≡ G.count graph.now }
    requires heights { AreHeights (G.edges graph.now) (G.count graph.now) heights.now }
    requires first { AreLow (G.edges graph.now) first heights.now }
    ensures { IsLeast (IsTooHigh (G.edges graph.now)) (G.count graph.now) result }
{
    for node in first..graph.len() {
        if heights[node] == 0 {
            return Some(node);
        }
    }
    None
}

// Fills in the entries from `first` on, which are 0.
fn fill_blanks<G: Graph>(
    alloc: Global,
    graph: &G,
    first: usize,
    heights: &mut Vec<u8>,
) -> Result<(), AllocError>
    requires edges { StaysWithin (G.edges graph.now) (G.count graph.now) }
    requires len { vec_len heights.old ≡ G.count graph.now }
    requires known { AreKnown (G.edges graph.now) heights.old.items }
    requires before { (s : ℕ) → s < first → 0 < slice_index_or heights.old.items s 0 }
    ensures len { vec_len heights.new ≡ vec_len heights.old }
    ensures begins { take first heights.new.items ≡ take first heights.old.items }
    ensures heights { OnOk result (AreHeights (G.edges graph.now) (G.count graph.now) heights.new.items) }
{
    let mut buffer = Vec::new(alloc);
    for pass in 0..MAX_HEIGHT {
        if !fill_once(graph, first, heights, &mut buffer)? {
            return Ok(());
        }
    }
    Ok(())
}

// Fills in each entry that follows from the others, and returns whether there was one.
fn fill_once<G: Graph>(
    graph: &G,
    first: usize,
    heights: &mut Vec<u8>,
    buffer: &mut Vec<usize>,
) -> Result<bool, AllocError>
    requires edges { StaysWithin (G.edges graph.now) (G.count graph.now) }
    requires len { vec_len heights.old ≡ G.count graph.now }
    requires known { AreKnown (G.edges graph.now) heights.old.items }
    requires before { (s : ℕ) → s < first → 0 < slice_index_or heights.old.items s 0 }
    ensures len { vec_len heights.new ≡ vec_len heights.old }
    ensures begins { take first heights.new.items ≡ take first heights.old.items }
    ensures known { AreKnown (G.edges graph.now) heights.new.items }
    ensures kept { (s : ℕ) → 0 < slice_index_or heights.old.items s 0 → slice_index_or heights.new.items s 0 ≡ slice_index_or heights.old.items s 0 }
    ensures same { IfOk result (λ added. OnFalse added (heights.new.items ≡ heights.old.items)) }
    ensures filled { OnOk result ((k : ℕ) → k < 100 → AreFilled (G.edges graph.now) (G.count graph.now) k heights.old.items → AreFilled (G.edges graph.now) (G.count graph.now) (k + 1) heights.new.items) }
{
    let mut added = false;
    for s in first..graph.len() {
        if fill_entry(graph, s, heights, buffer)? {
            added = true;
        }
    }
    Ok(added)
}

// Fills in the entry of a node where it is 0 and follows from the others.
fn fill_entry<G: Graph>(
    graph: &G,
    s: usize,
    heights: &mut Vec<u8>,
    buffer: &mut Vec<usize>,
) -> Result<bool, AllocError>
    requires edges { StaysWithin (G.edges graph.now) (G.count graph.now) }
    requires node { s < G.count graph.now }
    requires len { vec_len heights.old ≡ G.count graph.now }
    requires known { AreKnown (G.edges graph.now) heights.old.items }
    ensures len { vec_len heights.new ≡ vec_len heights.old }
    ensures begins { (n : ℕ) → n ≤ s → take n heights.new.items ≡ take n heights.old.items }
    ensures known { AreKnown (G.edges graph.now) heights.new.items }
    ensures kept { (t : ℕ) → 0 < slice_index_or heights.old.items t 0 → slice_index_or heights.new.items t 0 ≡ slice_index_or heights.old.items t 0 }
    ensures same { IfOk result (λ added. OnFalse added (heights.new.items ≡ heights.old.items)) }
    ensures filled { OnOk result ((k : ℕ) → k < 100 → AreFilled (G.edges graph.now) (G.count graph.now) k heights.old.items → IsWithin (G.edges graph.now) (k + 1) s → 0 < slice_index_or heights.new.items s 0) }
{
    if heights[s] > 0 {
        return Ok(false);
    }
    let height = height_from(graph, s, heights, buffer)?;
    if height == 0 {
        return Ok(false);
    }
    heights[s] = height;
    Ok(true)
}

// The height of a node by the entries of those behind its edges, 0 where one of these is 0 or it is above 100.
fn height_from<G: Graph>(
    graph: &G,
    s: usize,
    heights: &[u8],
    buffer: &mut Vec<usize>,
) -> Result<u8, AllocError>
    requires edges { StaysWithin (G.edges graph.now) (G.count graph.now) }
    requires node { s < G.count graph.now }
    requires len { length heights.now ≡ G.count graph.now }
    requires known { AreKnown (G.edges graph.now) heights.now }
    ensures known { IfOk result (λ h. 0 < h → IsLow (G.edges graph.now) s h) }
    ensures filled { IfOk result (λ h. (k : ℕ) → k < 100 → AreFilled (G.edges graph.now) (G.count graph.now) k heights.now → IsWithin (G.edges graph.now) (k + 1) s → 0 < h) }
{
    buffer.clear();
    graph.push_edges(s, buffer)?;
    Ok(height_above(buffer, heights))
}

// 1 more than the greatest entry of the nodes, 0 where one of these is 0 or it is above 100.
fn height_above(nodes: &[usize], heights: &[u8]) -> u8
    requires { All (λ t. t < length heights.now) nodes.now }
    ensures low { result ≤ 100 }
    ensures known { 0 < result → All (λ t. 0 < slice_index_or heights.now t 0) nodes.now }
    ensures above { 0 < result → (k : ℕ) → (result ≤ k + 1) ↔ All (λ t. slice_index_or heights.now t 0 ≤ k) nodes.now }
    ensures ready { AreReady heights.now nodes.now → 0 < result }
{
    let mut greatest = 0;
    for node in nodes {
        let height = heights[*node];
        if height == 0 {
            return 0;
        }
        greatest = greatest.max(height);
    }
    if greatest < MAX_HEIGHT {
        greatest + 1
    } else {
        0
    }
}
