//! What every crate of the workspace uses: texts, lists, layouts, kinds of scalars, declaration ids, variances,
//! errors, and where bytes are written to.
#![tactic(auto)]

mod characteristic;
mod conversion;
mod decl_id;
mod errors;
mod flags;
mod fnv;
mod iter_size_hint;
mod known_pointer;
pub mod laws;
mod layout;
mod many;
mod output;
mod scalar_type;
#[cfg(test)]
mod tests;
mod text;
mod type_name;
mod variance;
mod variance_desc;

pub use bitflags::Flags;
pub use characteristic::Characteristic;
pub use conversion::TryFromOutcome;
pub use decl_id::{DeclId, decl_id_hash, decl_id_hash_extern};
pub use errors::{
    BadSize, FieldError, MissingField, ParseError, TryBorrowInnerError, TryFromError,
    TryIntoInnerError, UnsizedError,
};
pub use flags::{FieldFlags, MarkerTraits, PointerFlags, ShapeFlags};
pub use fnv::{FNV_START, fnv1a_128};
pub use iter_size_hint::IterSizeHint;
pub use known_pointer::KnownPointer;
pub use layout::{HookId, Layout, ShapeId, ShapeLayout};
pub use many::Many;
pub use output::Write;
pub use scalar_type::ScalarType;
pub use text::Text;
pub use type_name::{NameForm, TypeNameOpts};
pub use variance::Variance;
pub use variance_desc::{MAX_VARIANCE_DEPTH, VarianceDep, VarianceDesc, VariancePosition};
