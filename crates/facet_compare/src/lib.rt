//! Comparing and hashing of values at places. Nothing here allocates.
#![tactic(auto)]

mod answered;
mod equal;
mod hash;
/// The laws of equality, of the orders and of hashes.
pub mod laws;
mod leaves;
mod look;
mod order;
mod ranks;

pub use equal::call_partial_eq;
pub use hash::call_hash;
pub use order::{call_cmp, call_partial_cmp};
