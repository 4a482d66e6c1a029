//! Leaf types for tests: what is proved of every leaf type is to be run with more than one.
#![tactic(auto)]

mod oddly_ordered;

pub use oddly_ordered::OddlyOrdered;
