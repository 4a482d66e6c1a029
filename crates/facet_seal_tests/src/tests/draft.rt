use super::definition::{Definition, def};
use super::types::{Type, ty};
use facet_base::{DeclId, Many, ScalarType, ShapeId, ShapeLayout, Text};
use facet_caps::VTableDirect;
use facet_desc::{Ty, TypeParam};
use facet_leaf::Scalar;
use facet_registry::Shapes;
use facet_shape::{Shape, ShapeBuilder};
use std::alloc::{AllocError, Global};

// A draft, by what the tables vary.
#[derive(Clone, Copy)]
pub struct Draft<'a> {
    pub definition: Definition,
    pub ty: Type<'a>,
    pub parameters: &'a [u32],
    pub layout: ShapeLayout,
    pub scalar: Option<ScalarType>,
    pub parses: bool,
}

impl<'a> Draft<'a> {
    // The draft with no scalar and no capability.
    pub fn new(
        definition: Definition,
        ty: Type<'a>,
        parameters: &'a [u32],
        layout: ShapeLayout,
    ) -> Draft<'a> {
        Draft {
            definition,
            ty,
            parameters,
            layout,
            scalar: None,
            parses: false,
        }
    }
}

fn type_params(alloc: Global, shapes: &[u32]) -> Result<Many<TypeParam>, AllocError> {
    let mut params = Many::new(alloc);
    for shape in shapes {
        params.push(TypeParam {
            name: Text::new(alloc, "T")?,
            shape: ShapeId(*shape),
        })?;
    }
    Ok(params)
}

// The draft as it is built, save that no type is set where it has none.
fn builder(alloc: Global, draft: Draft) -> Result<ShapeBuilder, AllocError> {
    let capabilities = VTableDirect {
        parse: draft.parses,
        ..VTableDirect::empty()
    };
    let params = type_params(alloc, draft.parameters)?;
    let ty = ty(alloc, draft.ty)?;
    let name = Text::new(alloc, "A")?;
    Ok(
        ShapeBuilder::for_unsized(alloc, name)
            .layout(draft.layout)
            .decl_id(DeclId::new(1))
            .type_params(params)
            .vtable_direct(capabilities)
            .def(def(draft.definition))
            .ty(ty),
    )
}

fn with_scalar(builder: ShapeBuilder, scalar: Option<ScalarType>) -> ShapeBuilder {
    match scalar {
        Some(scalar) => builder.scalar(scalar),
        None => builder,
    }
}

// The shape without a type, which no builder makes, where the draft has none.
fn without_type(shape: Shape, draft: Draft) -> Shape {
    match draft.ty {
        Type::Untyped => Shape {
            ty: Ty::Undefined,
            ..shape
        },
        _ => shape,
    }
}

// Adds the draft under the next id.
pub fn push_draft(
    alloc: Global,
    shapes: &mut Shapes<Scalar>,
    draft: Draft,
) -> Result<(), AllocError> {
    let builder = with_scalar(builder(alloc, draft)?, draft.scalar);
    if shapes.len() < 100 {
        if let Ok(shape) = builder.build() {
            shapes.push(without_type(shape, draft))?;
        }
    }
    Ok(())
}
