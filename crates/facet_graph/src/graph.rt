ghost use Rattle.std.specs.Prelude.{◌≡◌, ◌++◌, ◌<◌, ℕ, Bool, List, OnOk};

use std::alloc::AllocError;

/// A graph whose nodes are the numbers below a count.
pub trait Graph {
    ghost count: { Self → ℕ };

    ghost edges: { Self → ℕ → List ℕ };

    /// The number of nodes.
    fn len(&self) -> usize
        ensures { result ≡ count self.now };

    /// Appends the nodes to which an edge leads from a node, one for each edge.
    fn push_edges(&self, node: usize, to: &mut Vec<usize>) -> Result<(), AllocError>
        requires { node < count self.now }
        ensures { OnOk result (to.new.items ≡ to.old.items ++ edges self.now node) };
}

/// A graph in which some nodes are bad.
pub trait Search: Graph {
    ghost bad: { Self → ℕ → Bool };

    /// Whether a node is bad.
    fn is_bad(&self, node: usize) -> bool
        requires { node < Self.count self.now }
        ensures { result ≡ bad self.now node };
}

/// An edge, and how often what it leads to counts.
#[derive(Clone, Copy)]
pub struct WeightedEdge {
    /// The node to which it leads.
    pub node: usize,
    /// How often that node counts.
    pub weight: usize,
}

/// A graph in which nodes cost something of their own, and each edge has a weight.
pub trait WeightedGraph {
    ghost use Rattle.facet_graph.specs.declared.graph.WeightedEdge.{WeightedEdge};

    ghost count: { Self → ℕ };

    ghost weighted: { Self → ℕ → List WeightedEdge };

    ghost own: { Self → ℕ → ℕ };

    /// The number of nodes.
    fn len(&self) -> usize
        ensures { result ≡ count self.now };

    /// What a node costs of its own.
    fn own_cost(&self, node: usize) -> usize
        requires { node < count self.now }
        ensures { result ≡ own self.now node };

    /// Appends the edges that lead from a node.
    fn push_weighted_edges(&self, node: usize, to: &mut Vec<WeightedEdge>) -> Result<(), AllocError>
        requires { node < count self.now }
        ensures { OnOk result (to.new.items ≡ to.old.items ++ weighted self.now node) };
}
