//! Definitions: what a shape holds, by which operations its values are accessed, and of which shapes its parts are.
#![tactic(auto)]

mod array_def;
mod def;
mod def_builders;
mod def_cases;
mod dynamic_value_def;
mod list_def;
mod map_def;
mod nd_array_def;
mod option_def;
mod pointer_def;
mod result_def;
mod set_def;
mod slice_def;

pub use array_def::ArrayDef;
pub use def::Def;
pub use def_builders::{
    DefArrayBuilder, DefListBuilder, DefMapBuilder, DefOptionBuilder, DefResultBuilder,
    DefSetBuilder,
};
pub use dynamic_value_def::DynamicValueDef;
pub use list_def::ListDef;
pub use map_def::MapDef;
pub use nd_array_def::NdArrayDef;
pub use option_def::OptionDef;
pub use pointer_def::PointerDef;
pub use result_def::ResultDef;
pub use set_def::SetDef;
pub use slice_def::SliceDef;
