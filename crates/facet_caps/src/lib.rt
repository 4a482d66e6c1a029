//! Capability records: what can be done with the values of a type, and the builders of the records.
#![tactic(auto)]

mod array_vtable;
mod iter_vtable;
mod list_type_ops;
mod list_vtable;
mod map_vtable;
mod option_vtable;
mod partial_record;
mod pointer_vtable;
mod result_vtable;
mod set_vtable;
mod slice_builder_vtable;
mod slice_vtable;
#[cfg(test)]
mod tests;
mod type_ops;
mod typed_builder;
mod vtable;
mod vtable_erased;

pub use array_vtable::{ArrayVTable, ArrayVTableBuilder};
pub use facet_base::MissingField;
pub use iter_vtable::IterVTable;
pub use list_type_ops::{ListTypeOps, ListTypeOpsBuilder};
pub use list_vtable::{ListVTable, ListVTableBuilder};
pub use map_vtable::{MapVTable, MapVTableBuilder};
pub use option_vtable::{OptionVTable, OptionVTableBuilder};
pub use pointer_vtable::PointerVTable;
pub use result_vtable::{ResultVTable, ResultVTableBuilder};
pub use set_vtable::{SetVTable, SetVTableBuilder};
pub use slice_builder_vtable::SliceBuilderVTable;
pub use slice_vtable::SliceVTable;
pub use type_ops::{TypeOps, TypeOpsDirect, TypeOpsIndirect};
pub use typed_builder::TypedVTableDirectBuilder;
pub use vtable::{VTableDirect, VTableIndirect};
pub use vtable_erased::VTableErased;
