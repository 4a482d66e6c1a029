//! Where hashes are written to: the trait of hash sinks, and three of them.

pub mod fnv;
pub mod hash_proxy;
pub mod hash_sink;
pub mod recorder;
