//! Leaves: the scalars that blocks store. One record says what the methods of a leaf type return.
#![tactic(auto)]

mod conversion;
mod hashing;
mod hook;
/// Laws: theorems over the definitions, each the contract of a function.
pub mod laws;
mod leaf;
mod scalars;
#[cfg(test)]
mod tests;

pub use conversion::{Conversion, NoRoom};
pub use hashing::fnv::Fnv128;
pub use hashing::hash_proxy::HashProxy;
pub use hashing::hash_sink::HashSink;
pub use hashing::recorder::Recorder;
pub use hook::LeafHook;
pub use leaf::Leaf;
pub use scalars::scalar::Scalar;
