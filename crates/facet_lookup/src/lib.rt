//! Lookups in maps and sets, by halves. Nothing here allocates, and no call is refused.
#![tactic(auto)]

mod definitions;
mod keys;
mod lookups;
mod search;

pub use keys::find_key;
pub use lookups::{map_contains_key, map_get_value_ptr, set_contains};
