//! Searches over graphs whose nodes are numbers: which node reaches itself, how high each one is, what it costs with
//! all that hangs on it, and whether a bad node is reached. Beside them, whether a number is listed twice, and whether
//! two spans share a byte. Nothing recurses, and out of memory is the only refusal.
//!
//! The first nodes of a graph may be known from before: a table begins with their entries and is lengthened for the
//! others, whose edges alone are read.
#![tactic(auto)]

mod components;
mod costs;
mod cycles;
mod graph;
mod heights;
mod high_nodes;
mod labels;
mod overlap;
mod repeats;
mod search;
#[cfg(test)]
mod tests;

pub use costs::{MAX_COST, fill_costs, first_too_costly};
pub use cycles::first_on_cycle;
pub use graph::{Graph, Search, WeightedEdge, WeightedGraph};
pub use heights::{MAX_HEIGHT, fill_heights, first_too_high};
pub use overlap::{Span, have_overlap};
pub use repeats::has_repeat;
pub use search::reaches_bad;
