//! Named values under a command language: what a command does to the values that a session holds in blocks, and
//! the text of each answer.
#![tactic(auto)]

mod cells;
mod commands;
mod conditions;
/// The laws of answers and of the balance of leaves.
pub mod laws;
mod making;
mod refusal;
mod session;
mod stepping;
mod writing;

pub use facet_declaration::{Decl, FieldDecl, VariantDecl};
pub use facet_grammar::{Command, read_command};
pub use facet_words::{Caps, Opt};
pub use session::{Answer, Cell, Session};
pub use stepping::{finish, step};
