ghost use Rattle.std.specs.Prelude.{◌≡◌, IfOk};
ghost use Rattle.facet_base.specs.Fnv.{fnv, fnv_start};
ghost use Rattle.facet_desc.specs.WithoutSpare.{ty_without_spare};
ghost use Rattle.facet_shape.specs.ShapeBuilder.{fresh_shape};
ghost use Rattle.facet_shape.specs.WithoutSpare.{shape_without_spare};
ghost use Rattle.facet_makers.specs.Generic.{built_in, in_module, with_length, with_parameter};
ghost use Rattle.facet_makers.specs.Types.{opaque};

use facet_base::{
    DeclId, ShapeId, ShapeLayout, Text, VarianceDep, decl_id_hash, decl_id_hash_extern,
};
use facet_desc::{ConstParam, ConstParamKind, Ty, TypeParam, UserType};
use facet_shape::{Shape, ShapeBuilder};
use std::alloc::{AllocError, Global};

/// The shape of a type that a module declares.
pub fn in_module(
    alloc: Global,
    identifier: &str,
    path: &str,
    ty: Ty,
    layout: ShapeLayout,
) -> Result<Shape, AllocError>
    ensures { IfOk result (λ shape. shape_without_spare shape ≡ in_module identifier.now path.now (ty_without_spare ty) layout) }
{
    let hash = decl_id_hash_extern(path, ty.kind_str(), identifier);
    let module_path = Text::new(alloc, path)?;
    let shape = fresh(alloc, identifier, DeclId::new(hash), layout)?;
    let shape = Shape {
        module_path: Some(module_path),
        ..shape
    };
    Ok(with_type(shape, ty))
}

/// The shape of a type of the language, numbered by a text of its own.
pub fn built_in(
    alloc: Global,
    identifier: &str,
    declaration: &str,
    ty: Ty,
    layout: ShapeLayout,
) -> Result<Shape, AllocError>
    ensures { IfOk result (λ shape. shape_without_spare shape ≡ built_in identifier.now declaration.now (ty_without_spare ty) layout) }
{
    let hash = decl_id_hash(declaration);
    let shape = fresh(alloc, identifier, DeclId::new(hash), layout)?;
    Ok(with_type(shape, ty))
}

// The shape of an opaque type of this identifier, number and layout, with nothing else set.
fn fresh(
    alloc: Global,
    identifier: &str,
    decl_id: DeclId,
    layout: ShapeLayout,
) -> Result<Shape, AllocError>
    ensures { IfOk result (λ shape. shape_without_spare shape ≡ record (fresh_shape identifier.now layout) { decl_id = decl_id; ty = opaque }) }
{
    let identifier = Text::new(alloc, identifier)?;
    let builder = ShapeBuilder::for_unsized(alloc, identifier)
        .layout(layout)
        .ty(Ty::User(UserType::Opaque));
    match builder.build() {
        Ok(shape) => Ok(Shape { decl_id, ..shape }),
        Err(_) => unreachable!(),
    }
}

// The shape with that type.
fn with_type(shape: Shape, ty: Ty) -> Shape
    ensures { result ≡ record shape { ty = ty } }
{
    let mut shape = shape;
    shape.ty = ty;
    shape
}

/// The shape with one type parameter more, in which it is covariant.
pub fn with_parameter(
    alloc: Global,
    shape: Shape,
    name: &str,
    t: ShapeId,
) -> Result<Shape, AllocError>
    ensures { IfOk result (λ more. shape_without_spare more ≡ with_parameter name.now t (shape_without_spare shape)) }
{
    let name = Text::new(alloc, name)?;
    let mut shape = shape;
    shape.type_params.push(TypeParam { name, shape: t })?;
    shape.variance.deps.push(VarianceDep::covariant(t))?;
    Ok(shape)
}

/// The shape with the const parameter of an array of `n` elements.
pub fn with_length(alloc: Global, shape: Shape, n: usize) -> Result<Shape, AllocError>
    ensures { IfOk result (λ more. shape_without_spare more ≡ with_length n (shape_without_spare shape)) }
{
    let name = Text::new(alloc, "N")?;
    let mut shape = shape;
    shape.const_params.push(ConstParam {
        name,
        value: n as u64,
        kind: ConstParamKind::Usize,
    })?;
    Ok(shape)
}
