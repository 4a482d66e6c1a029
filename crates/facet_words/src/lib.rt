//! The words of a script's line that are one piece: which text is which word, and what it means.
#![tactic(auto)]

mod caps;
mod fixed;
mod integer;
mod option_key;
mod options;
mod path;
#[cfg(test)]
mod tests;
mod word;

pub use caps::{Caps, read_caps};
pub use fixed::{is_unsized, read_base, read_kind, read_repr, read_variance};
pub use integer::read_integer;
pub use options::{Opt, are_for_opaque, are_ordered, read_option};
pub use path::{is_path, read_path};
pub use word::{has_newline, is_name, read_number, read_reference};
