ghost use Rattle.std.specs.Prelude.{◌≡◌, ◌<◌, ◌==◌, ◌&&◌, ◌++◌, ℕ, List, map, nat_lt};
ghost use Rattle.std.specs.List.{filter};
ghost use Rattle.facet_graph.specs.Cost.{unweighted};
ghost use Rattle.facet_graph.specs.Reach.{StaysWithin};
ghost use Rattle.facet_graph.specs.declared.graph.WeightedEdge.{WeightedEdge};
ghost use Rattle.facet_graph.specs.declared.tests.listed.Arrow.{Arrow};

use crate::{Graph, Search, WeightedEdge, WeightedGraph};
use std::alloc::AllocError;

/// An edge, and the node from which it leads.
#[derive(Clone, Copy)]
pub struct Arrow {
    pub from: usize,
    pub edge: WeightedEdge,
}

/// The graph that lists its edges. Those to nodes that aren't there are left out. One node is bad.
#[derive(Drop)]
pub struct Listed<'a> {
    pub count: usize,
    pub arrows: &'a [Arrow],
    pub bad: usize,
}

/// Each of its edges leads to a node.
pub fn edges_lead_to_nodes(graph: &Listed<'_>)
    ensures { StaysWithin (unweighted (λ s. map (λ (arrow : Arrow). arrow.edge) (filter (λ arrow. (arrow.from == s) && nat_lt arrow.edge.node graph.now.count) graph.now.arrows.now))) graph.now.count }
{}

impl<'a> WeightedGraph for Listed<'a> {
    ghost count = { λ graph. graph.count };

    ghost weighted = { λ graph s. map (λ (arrow : Arrow). arrow.edge) (filter (λ arrow. (arrow.from == s) && nat_lt arrow.edge.node graph.count) graph.arrows.now) };

    ghost own = { λ graph s. s };

    fn len(&self) -> usize {
        self.count
    }

    fn own_cost(&self, node: usize) -> usize {
        node
    }

    fn push_weighted_edges(
        &self,
        node: usize,
        to: &mut Vec<WeightedEdge>,
    ) -> Result<(), AllocError> {
        for arrow in self.arrows {
            if arrow.from == node && arrow.edge.node < self.count {
                to.push(arrow.edge)?;
            }
        }
        Ok(())
    }
}

impl<'a> Graph for Listed<'a> {
    ghost count = { λ graph. graph.count };

    ghost edges = { λ graph s. unweighted (λ s. map (λ (arrow : Arrow). arrow.edge) (filter (λ arrow. (arrow.from == s) && nat_lt arrow.edge.node graph.count) graph.arrows.now)) s };

    fn len(&self) -> usize {
        self.count
    }

    fn push_edges(&self, node: usize, to: &mut Vec<usize>) -> Result<(), AllocError> {
        for arrow in self.arrows {
            if arrow.from == node && arrow.edge.node < self.count {
                to.push(arrow.edge.node)?;
            }
        }
        Ok(())
    }
}

impl<'a> Search for Listed<'a> {
    ghost bad = { λ graph s. s == graph.bad };

    fn is_bad(&self, node: usize) -> bool {
        node == self.bad
    }
}
