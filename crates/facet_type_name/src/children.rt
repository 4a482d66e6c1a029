ghost use Rattle.std.specs.Prelude.{◌≡◌, ◌++◌, map, take, true, OnOk};
ghost use Rattle.std.specs.List.{flat_map};
ghost use Rattle.facet_type_name.specs.Name.{array_name, child_of, name_children, slice_name};

use facet_base::{NameForm, ShapeId};
use facet_def::Def;
use facet_desc::TypeParam;
use facet_outline::{push_each, push_tuple_fields};
use facet_shape::Shape;
use std::alloc::AllocError;

/// Adds the children of the full name of a shape in order.
#[tactic(auto, unfolding(crate::specs::Name::name_children, crate::specs::Name::name_pieces), using(crate::proofs::NameChildren::fields_of_name))]
pub fn push_name_children(shape: &Shape, to: &mut Vec<ShapeId>) -> Result<(), AllocError>
    ensures { OnOk result (to.new.items ≡ to.old.items ++ name_children shape.now) }
{
    let parameters = shape.type_params.as_slice();
    match &shape.type_name {
        None => Ok(()),
        Some(NameForm::Vec | NameForm::Option | NameForm::Set | NameForm::Box) => {
            push_first(parameters, 1, to)
        }
        Some(NameForm::Result | NameForm::Map) => push_first(parameters, 2, to),
        Some(NameForm::Array) => push_array_element(&shape.def, to),
        Some(NameForm::Slice) => push_slice_element(&shape.def, to),
        Some(NameForm::Tuple) => push_tuple_fields(&shape.ty, to),
    }
}

// Adds the first n parameters.
#[tactic(auto, using(crate::proofs::NamePieces::shapes_of_first))]
fn push_first(parameters: &[TypeParam], n: usize, to: &mut Vec<ShapeId>) -> Result<(), AllocError>
    ensures { OnOk result (to.new.items ≡ to.old.items ++ take n (map (λ p. p.shape) parameters.now)) }
{
    push_each(&parameters[..n.min(parameters.len())], to)
}

// Adds the element, where the definition is an array.
fn push_array_element(def: &Def, to: &mut Vec<ShapeId>) -> Result<(), AllocError>
    ensures { OnOk result (to.new.items ≡ to.old.items ++ flat_map child_of (array_name true def.now)) }
{
    if let Def::Array(array) = def {
        to.push(array.t)?;
    }
    Ok(())
}

// Adds the element, where the definition is a slice.
fn push_slice_element(def: &Def, to: &mut Vec<ShapeId>) -> Result<(), AllocError>
    ensures { OnOk result (to.new.items ≡ to.old.items ++ flat_map child_of (slice_name true def.now)) }
{
    if let Def::Slice(slice) = def {
        to.push(slice.t)?;
    }
    Ok(())
}
