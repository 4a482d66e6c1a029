//! The operations on values whose type is known only at run time: comparing, hashing, reading, making and dropping them,
//! what containers hold, going over it, looking keys up, lists that are changed, and containers that are made.
#![tactic(auto)]

pub use facet_compare::{call_cmp, call_hash, call_partial_cmp, call_partial_eq};
pub use facet_contain::{
    borrow, get_err, get_ok, get_value, init_err, init_none, init_ok, init_some, is_ok, is_some,
    list_capacity, list_get, list_len, map_len, set_len_of, slice_get, slice_len, variant_of,
};
pub use facet_drop::{call_drop_in_place, make_room_for, write_leaves};
pub use facet_init::{box_new_into, init_in_place_with_capacity, init_variant};
pub use facet_iterate::{ListIter, MapIter, list_iter, map_iter, set_iter};
pub use facet_lists::{from_raw_parts, list_pop, list_push, list_reserve, list_swap, set_len};
pub use facet_lookup::{find_key, map_contains_key, map_get_value_ptr, set_contains};
pub use facet_make::{call_clone_into, call_default_in_place};
pub use facet_readable::reads_as;
pub use facet_steps::Steps;
pub use facet_walk::{depth, leaf_count};
