ghost use Rattle.std.specs.Prelude.{◌≡◌, ◌++◌, OnOk};
ghost use Rattle.facet_outline.specs.References.{fields_of_enum, fields_of_struct};

use crate::refers::push_each;
use facet_base::ShapeId;
use facet_desc::{EnumType, StructType};
use std::alloc::AllocError;

/// Adds the shapes of the fields of a struct.
pub fn push_struct_fields(struct_type: &StructType, to: &mut Vec<ShapeId>) -> Result<(), AllocError>
    ensures { OnOk result (to.new.items ≡ to.old.items ++ fields_of_struct struct_type.now) }
{
    push_each(struct_type.fields.as_slice(), to)
}

/// Adds the shapes of the fields of all variants of an enum.
pub fn push_enum_fields(enum_type: &EnumType, to: &mut Vec<ShapeId>) -> Result<(), AllocError>
    ensures { OnOk result (to.new.items ≡ to.old.items ++ fields_of_enum enum_type.now) }
{
    for variant in enum_type.variants.as_slice() {
        push_struct_fields(&variant.body, to)?;
    }
    Ok(())
}
