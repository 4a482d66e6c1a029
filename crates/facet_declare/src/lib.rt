//! The shapes that declarations describe, drafted into a registry.
#![tactic(auto)]

mod declaring;
mod described;
mod makers;
mod options;
mod parts;
mod refusal;
mod types;

pub use declaring::declare;
pub use refusal::DeclarationRefusal;
