ghost use Rattle.std.specs.Prelude.{◌≡◌};

use crate::array_def::ArrayDef;
use crate::def_builders::{
    DefArrayBuilder, DefListBuilder, DefMapBuilder, DefOptionBuilder, DefResultBuilder,
    DefSetBuilder,
};
use crate::dynamic_value_def::DynamicValueDef;
use crate::list_def::ListDef;
use crate::map_def::MapDef;
use crate::nd_array_def::NdArrayDef;
use crate::option_def::OptionDef;
use crate::pointer_def::PointerDef;
use crate::result_def::ResultDef;
use crate::set_def::SetDef;
use crate::slice_def::SliceDef;
use facet_base::ShapeId;
use facet_caps::{ArrayVTable, ListVTable, MapVTable, OptionVTable, ResultVTable, SetVTable};
use facet_desc::{ArrayType, SequenceType, SliceType, Ty, UserType};

/// What the values of a shape are, and by which operations they are accessed.
#[derive(Drop)]
pub enum Def {
    Undefined,
    Scalar,
    Map(MapDef),
    Set(SetDef),
    List(ListDef),
    Array(ArrayDef),
    NdArray(NdArrayDef),
    Slice(SliceDef),
    Option(OptionDef),
    Result(ResultDef),
    Pointer(PointerDef),
    DynamicValue(DynamicValueDef),
}

impl Def {
    ghost use Rattle.facet_def.specs.Def.{type_of};

    /// The type that a shape of this definition has where no other is given.
    pub fn default_type(&self) -> Ty
        ensures { result ≡ type_of self.now }
    {
        match self {
            Def::Array(array) => Ty::Sequence(SequenceType::Array(ArrayType {
                t: array.t,
                n: array.n,
            })),
            Def::Slice(slice) => Ty::Sequence(SequenceType::Slice(SliceType { t: slice.t })),
            _ => Ty::User(UserType::Opaque),
        }
    }

    /// Begins the definition of a map of these members.
    pub fn map_builder(vtable: MapVTable, k: ShapeId, v: ShapeId) -> DefMapBuilder
        ensures { result.0 ≡ record { vtable = vtable; k = k; v = v } }
    {
        DefMapBuilder(MapDef::new(vtable, k, v))
    }

    /// Begins the definition of a set of these members.
    pub fn set_builder(vtable: SetVTable, t: ShapeId) -> DefSetBuilder
        ensures { result.0 ≡ record { vtable = vtable; t = t } }
    {
        DefSetBuilder(SetDef::new(vtable, t))
    }

    /// Begins the definition of a list of these members, without operations that need the type of its elements.
    pub fn list_builder(vtable: ListVTable, t: ShapeId) -> DefListBuilder
        ensures { result.0 ≡ record { vtable = vtable; type_ops = None; t = t } }
    {
        DefListBuilder(ListDef::new(vtable, t))
    }

    /// Begins the definition of an array of these members.
    pub fn array_builder(vtable: ArrayVTable, t: ShapeId, n: usize) -> DefArrayBuilder
        ensures { result.0 ≡ record { vtable = vtable; t = t; n = n } }
    {
        DefArrayBuilder(ArrayDef::new(vtable, t, n))
    }

    /// Begins the definition of an option of these members.
    pub fn option_builder(vtable: OptionVTable, t: ShapeId) -> DefOptionBuilder
        ensures { result.0 ≡ record { vtable = vtable; t = t } }
    {
        DefOptionBuilder(OptionDef::new(vtable, t))
    }

    /// Begins the definition of a result of these members.
    pub fn result_builder(vtable: ResultVTable, t: ShapeId, e: ShapeId) -> DefResultBuilder
        ensures { result.0 ≡ record { vtable = vtable; t = t; e = e } }
    {
        DefResultBuilder(ResultDef::new(vtable, t, e))
    }
}
