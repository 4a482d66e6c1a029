use crate::array_def::ArrayDef;
use crate::def::Def;
use crate::dynamic_value_def::DynamicValueDef;
use crate::list_def::ListDef;
use crate::map_def::MapDef;
use crate::nd_array_def::NdArrayDef;
use crate::option_def::OptionDef;
use crate::pointer_def::PointerDef;
use crate::result_def::ResultDef;
use crate::set_def::SetDef;
use crate::slice_def::SliceDef;

impl Def {
    ghost use Rattle.facet_def.specs.Def.{IsRecordOrBack};

    /// `()` if it is a scalar, and else the definition as it was.
    pub fn into_scalar(self) -> Result<(), Def>
        ensures { IsRecordOrBack (λ (_ : Unit). Def.Scalar) self result }
    {
        match self {
            Def::Scalar => Ok(()),
            other => Err(other),
        }
    }

    /// The record if it is a map, and else the definition as it was.
    pub fn into_map(self) -> Result<MapDef, Def>
        ensures { IsRecordOrBack Def.Map self result }
    {
        match self {
            Def::Map(members) => Ok(members),
            other => Err(other),
        }
    }

    /// The record if it is a set, and else the definition as it was.
    pub fn into_set(self) -> Result<SetDef, Def>
        ensures { IsRecordOrBack Def.Set self result }
    {
        match self {
            Def::Set(members) => Ok(members),
            other => Err(other),
        }
    }

    /// The record if it is a list, and else the definition as it was.
    pub fn into_list(self) -> Result<ListDef, Def>
        ensures { IsRecordOrBack Def.List self result }
    {
        match self {
            Def::List(members) => Ok(members),
            other => Err(other),
        }
    }

    /// The record if it is an array, and else the definition as it was.
    pub fn into_array(self) -> Result<ArrayDef, Def>
        ensures { IsRecordOrBack Def.Array self result }
    {
        match self {
            Def::Array(members) => Ok(members),
            other => Err(other),
        }
    }

    /// The record if it is an array of several dimensions, and else the definition as it was.
    pub fn into_ndarray(self) -> Result<NdArrayDef, Def>
        ensures { IsRecordOrBack Def.NdArray self result }
    {
        match self {
            Def::NdArray(members) => Ok(members),
            other => Err(other),
        }
    }

    /// The record if it is a slice, and else the definition as it was.
    pub fn into_slice(self) -> Result<SliceDef, Def>
        ensures { IsRecordOrBack Def.Slice self result }
    {
        match self {
            Def::Slice(members) => Ok(members),
            other => Err(other),
        }
    }

    /// The record if it is an option, and else the definition as it was.
    pub fn into_option(self) -> Result<OptionDef, Def>
        ensures { IsRecordOrBack Def.Option self result }
    {
        match self {
            Def::Option(members) => Ok(members),
            other => Err(other),
        }
    }

    /// The record if it is a result, and else the definition as it was.
    pub fn into_result(self) -> Result<ResultDef, Def>
        ensures { IsRecordOrBack Def.Result self result }
    {
        match self {
            Def::Result(members) => Ok(members),
            other => Err(other),
        }
    }

    /// The record if it is a smart pointer, and else the definition as it was.
    pub fn into_pointer(self) -> Result<PointerDef, Def>
        ensures { IsRecordOrBack Def.Pointer self result }
    {
        match self {
            Def::Pointer(members) => Ok(members),
            other => Err(other),
        }
    }

    /// The record if it is a dynamic value, and else the definition as it was.
    pub fn into_dynamic_value(self) -> Result<DynamicValueDef, Def>
        ensures { IsRecordOrBack Def.DynamicValue self result }
    {
        match self {
            Def::DynamicValue(members) => Ok(members),
            other => Err(other),
        }
    }
}
