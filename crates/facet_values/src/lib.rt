//! What a place in a block reads as: the one relation between a place and a value as a tree, and its laws.
#![tactic(auto)]

/// The laws of reading.
pub mod laws;
/// The laws of the parts of values.
pub mod part_laws;
/// When a place of each kind reads as a value, spelled out kind by kind.
pub mod row_laws;
