ghost use Rattle.std.specs.Prelude.{◌≡◌, ◌++◌, map, OnOk};
ghost use Rattle.std.specs.Option.{option_to_list};
ghost use Rattle.facet_base.specs.declared.layout.ShapeId.{ShapeId};

use facet_base::{ShapeId, VarianceDep};
use facet_desc::{Field, FormatProxy, TypeParam};
use std::alloc::AllocError;

/// A part of a description that refers to one shape.
pub trait Refers {
    /// The shape that it refers to.
    ghost shape_of: { Self → ShapeId };

    /// The shape that it refers to.
    fn referred(&self) -> ShapeId
        ensures { result ≡ shape_of self.now };
}

impl Refers for TypeParam {
    ghost shape_of = { λ parameter. parameter.shape };

    fn referred(&self) -> ShapeId {
        self.shape
    }
}

impl Refers for Field {
    ghost shape_of = { λ field. field.shape };

    fn referred(&self) -> ShapeId {
        self.shape
    }
}

impl Refers for FormatProxy {
    ghost shape_of = { λ listed. listed.proxy.shape };

    fn referred(&self) -> ShapeId {
        self.proxy.shape
    }
}

impl Refers for VarianceDep {
    ghost shape_of = { λ dependency. dependency.shape };

    fn referred(&self) -> ShapeId {
        self.shape
    }
}

/// Adds the shape that each of them refers to.
pub fn push_each<T: Refers>(items: &[T], to: &mut Vec<ShapeId>) -> Result<(), AllocError>
    ensures { OnOk result (to.new.items ≡ to.old.items ++ map T.shape_of items.now) }
{
    for item in items {
        to.push(item.referred())?;
    }
    Ok(())
}

/// Adds the shape, if there is one.
pub fn push_option(shape: Option<ShapeId>, to: &mut Vec<ShapeId>) -> Result<(), AllocError>
    ensures { OnOk result (to.new.items ≡ to.old.items ++ option_to_list shape) }
{
    if let Some(id) = shape {
        to.push(id)?;
    }
    Ok(())
}
