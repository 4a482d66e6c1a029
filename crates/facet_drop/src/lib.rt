//! Values at places are dropped, and their leaves are written and given room in the log.
#![tactic(auto)]

mod dropping;
mod inline_parts;
mod listing;
mod makeup;
mod own_items;
mod room;

pub use dropping::{call_drop_in_place, drop_parts};
pub use listing::write_leaves;
pub use room::make_room_for;
