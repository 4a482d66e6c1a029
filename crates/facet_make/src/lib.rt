//! Defaults and clones are made in place; what is made of one that is refused is taken back.
#![tactic(auto)]

mod clone;
mod cloning;
mod default;
mod initial;
/// The laws of defaults and clones.
pub mod laws;
mod plain;
mod room;

pub use clone::call_clone_into;
pub use default::call_default_in_place;
