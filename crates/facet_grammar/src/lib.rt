//! Which command a line is, from a table of commands: each row is a form, a list of keywords and kinds of tokens.
#![tactic(auto)]

mod command;
mod cursor;
mod declaration_row;
mod keyword;
pub mod laws;
mod part;
mod piece;
mod reading;
mod row;
#[cfg(test)]
mod tests;
mod token;
mod token_reading;
mod word;

pub use command::Command;
pub use facet_declaration::{Decl, FieldDecl, VariantDecl};
pub use facet_words::{Caps, Opt};
pub use keyword::Keyword;
pub use reading::read_command;
pub use token::{Kind, Part, Token};
