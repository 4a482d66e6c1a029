//! Declarations of shapes as data, and which words fields and variants are.
#![tactic(auto)]

mod cuts;
mod declaration;
mod fields;
pub mod laws;
mod parts;
#[cfg(test)]
mod tests;
mod variants;

pub use cuts::first_piece;
pub use declaration::Decl;
pub use fields::read_field;
pub use parts::{FieldDecl, VariantDecl};
pub use variants::read_variant;
