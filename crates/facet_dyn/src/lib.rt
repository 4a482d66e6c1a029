//! Values whose type isn't known: their kinds.
#![tactic(auto)]

mod kind;

pub use kind::{DynDateTimeKind, DynValueKind};
