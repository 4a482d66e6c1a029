ghost use Rattle.std.specs.Prelude.{◌≡◌, ◌<◌, ◌≤◌, ◌+◌, ◌*◌, ℕ, All, IfOk, OnOk, length, slice_index_or, sum_by, take, vec_len};
ghost use Rattle.facet_graph.specs.Cost.{AreCosts, IsCostEntry, IsTooCostly, capped, unweighted};
ghost use Rattle.facet_graph.specs.Height.{AreHeights};
ghost use Rattle.facet_graph.specs.Least.{IsLeast};
ghost use Rattle.facet_graph.specs.Reach.{StaysWithin};

use crate::graph::{WeightedEdge, WeightedGraph};
use crate::heights::MAX_HEIGHT;
use std::alloc::{AllocError, Global};

/// The greatest cost that a table tells. A greater one has the entry `MAX_COST + 1`.
pub const MAX_COST: u32 = 65_536;

/// Lengthens a table of the costs of the first nodes to all nodes, by the heights of all. A node that is too high gets
/// 0. The edges of each node that is new are read once. Out of memory, the table still begins with the entries that it
/// had.
pub fn fill_costs<G: WeightedGraph>(
    alloc: Global,
    graph: &G,
    heights: &[u8],
    costs: &mut Vec<u32>,
) -> Result<(), AllocError>
    requires edges { StaysWithin (unweighted (G.weighted graph.now)) (G.count graph.now) }
    requires heights_len { length heights.now ≡ G.count graph.now }
    requires heights { AreHeights (unweighted (G.weighted graph.now)) (G.count graph.now) heights.now }
    requires fits { vec_len costs.old ≤ G.count graph.now }
    requires known { AreCosts (G.weighted graph.now) (G.own graph.now) (vec_len costs.old) costs.old.items }
    ensures costs { OnOk result (AreCosts (G.weighted graph.now) (G.own graph.now) (G.count graph.now) costs.new.items) }
    ensures len { OnOk result (vec_len costs.new ≡ G.count graph.now) }
    ensures begins { take (vec_len costs.old) costs.new.items ≡ costs.old.items }
{
    let first = costs.len();
    costs.resize(graph.len(), 0)?;
    let mut buffer = Vec::new(alloc);
    for level in 0..MAX_HEIGHT {
        fill_level(graph, first, level, heights, costs, &mut buffer)?;
    }
    Ok(())
}

/// The least node that costs too much and isn't too high, and None where there is none. No node before `first` does.
pub fn first_too_costly<G: WeightedGraph>(
    graph: &G,
    first: usize,
    heights: &[u8],
    costs: &[u32],
) -> Option<usize>
    requires heights_len { length heights.now ≡ G.count graph.now }
    requires heights { AreHeights (unweighted (G.weighted graph.now)) (G.count graph.now) heights.now }
    requires len { length costs.now ≡ G.count graph.now }
    requires costs { AreCosts (G.weighted graph.now) (G.own graph.now) (G.count graph.now) costs.now }
    requires first { (s : ℕ) → s < first → ¬ IsTooCostly (G.weighted graph.now) (G.own graph.now) s }
    ensures { IsLeast (IsTooCostly (G.weighted graph.now) (G.own graph.now)) (G.count graph.now) result }
{
    for node in first..graph.len() {
        if heights[node] > 0 && costs[node] > MAX_COST {
            return Some(node);
        }
    }
    None
}

// Fills in the entries from `first` on of the height `level + 1`, where those up to `level` are there.
fn fill_level<G: WeightedGraph>(
    graph: &G,
    first: usize,
    level: u8,
    heights: &[u8],
    costs: &mut Vec<u32>,
    buffer: &mut Vec<WeightedEdge>,
) -> Result<(), AllocError>
    requires level { level < 100 }
    requires edges { StaysWithin (unweighted (G.weighted graph.now)) (G.count graph.now) }
    requires heights_len { length heights.now ≡ G.count graph.now }
    requires heights { AreHeights (unweighted (G.weighted graph.now)) (G.count graph.now) heights.now }
    requires len { vec_len costs.old ≡ G.count graph.now }
    requires before { AreCosts (G.weighted graph.now) (G.own graph.now) first costs.old.items }
    requires below { (s : ℕ) → s < G.count graph.now → slice_index_or heights.now s 0 ≤ level → IsCostEntry (G.weighted graph.now) (G.own graph.now) s (slice_index_or costs.old.items s 0) }
    ensures len { vec_len costs.new ≡ vec_len costs.old }
    ensures begins { take first costs.new.items ≡ take first costs.old.items }
    ensures before { AreCosts (G.weighted graph.now) (G.own graph.now) first costs.new.items }
    ensures below { OnOk result ((s : ℕ) → s < G.count graph.now → slice_index_or heights.now s 0 ≤ level + 1 → IsCostEntry (G.weighted graph.now) (G.own graph.now) s (slice_index_or costs.new.items s 0)) }
{
    for s in first..graph.len() {
        if heights[s] == level + 1 {
            costs[s] = cost_from(graph, s, level, heights, costs, buffer)?;
        }
    }
    Ok(())
}

// The cost of a node of the height `level + 1`, by the entries of those behind its edges.
fn cost_from<G: WeightedGraph>(
    graph: &G,
    s: usize,
    level: u8,
    heights: &[u8],
    costs: &[u32],
    buffer: &mut Vec<WeightedEdge>,
) -> Result<u32, AllocError>
    requires edges { StaysWithin (unweighted (G.weighted graph.now)) (G.count graph.now) }
    requires node { s < G.count graph.now }
    requires len { length costs.now ≡ G.count graph.now }
    requires heights { AreHeights (unweighted (G.weighted graph.now)) (G.count graph.now) heights.now }
    requires level { slice_index_or heights.now s 0 ≡ level + 1 }
    requires below { (t : ℕ) → t < G.count graph.now → slice_index_or heights.now t 0 ≤ level → IsCostEntry (G.weighted graph.now) (G.own graph.now) t (slice_index_or costs.now t 0) }
    ensures { IfOk result (IsCostEntry (G.weighted graph.now) (G.own graph.now) s) }
{
    buffer.clear();
    graph.push_weighted_edges(s, buffer)?;
    Ok(capped_sum(graph.own_cost(s), buffer, costs))
}

// The own cost and the sum of weight times entry, capped.
fn capped_sum(own: usize, edges: &[WeightedEdge], costs: &[u32]) -> u32
    requires { All (λ edge. edge.node < length costs.now) edges.now }
    ensures { result ≡ capped (own + sum_by (λ edge. edge.weight * slice_index_or costs.now edge.node 0) edges.now) }
{
    let mut total = capped_cost(own);
    for edge in edges {
        let more = edge.weight.saturating_mul(costs[edge.node] as usize);
        total = capped_cost((total as usize).saturating_add(more));
    }
    total
}

// The cost, or `MAX_COST + 1` where it is greater than `MAX_COST`.
fn capped_cost(cost: usize) -> u32
    ensures { result ≡ capped cost }
{
    cost.min(MAX_COST as usize + 1) as u32
}
