//! Blocks of memory: what lies at each offset of them, the pointers into them, and the log of the leaves that
//! were dropped.
#![tactic(auto)]

mod block;
mod drop_log;
/// Laws: theorems over the definitions, each the contract of a function.
pub mod laws;
mod list_vec;
mod ptr_const;
mod ptr_mut;
mod ptr_uninit;
mod seq;
mod split;
#[cfg(test)]
mod tests;

pub use block::{Block, Item, ItemKind, Seq, alloc_for_layout, dealloc_for_layout};
pub use drop_log::DropLog;
pub use facet_leaf::{
    Conversion, Fnv128, HashProxy, HashSink, Leaf, LeafHook, NoRoom, Recorder, Scalar,
};
pub use ptr_const::PtrConst;
pub use ptr_mut::PtrMut;
pub use ptr_uninit::{Never, PtrUninit};
