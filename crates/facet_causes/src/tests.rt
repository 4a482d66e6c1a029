use crate::{SealCause, SealError, SealFault, ShapeList, Tables, check};
use facet_base::{Layout, Many, ScalarType, ShapeId, ShapeLayout, Text};
use facet_def::Def;
use facet_desc::{Field, FieldBuilder, StructKind, Ty, UserType};
use facet_leaf::Scalar;
use facet_shape::ShapeBuilder;
use std::alloc::{AllocError, Global};
use std::test::Fail;

// A draft, by what the rows below vary.
#[derive(Clone, Copy)]
enum Draft {
    // A scalar without capabilities.
    Leaf(ScalarType, usize),
    // A struct of that size and an alignment of 4 bytes, with one field: its shape and its offset.
    Struct(usize, u32, usize),
}

use Draft::{Leaf, Struct};

fn layout(size: usize, align: usize) -> Layout {
    Layout { size, align }
}

fn field(alloc: Global, shape: u32, offset: usize) -> Result<Many<Field>, AllocError> {
    let name = Text::new(alloc, "x")?;
    let mut fields = Many::new(alloc);
    fields.push(FieldBuilder::new(alloc, name, ShapeId(shape), offset).build())?;
    Ok(fields)
}

fn builder(alloc: Global, draft: Draft) -> Result<ShapeBuilder, AllocError> {
    let name = Text::new(alloc, "T")?;
    match draft {
        Leaf(kind, size) => {
            let builder = ShapeBuilder::for_sized(alloc, name, layout(size, 4));
            Ok(
                builder
                    .ty(Ty::User(UserType::Opaque))
                    .def(Def::Scalar)
                    .scalar(kind),
            )
        }
        Struct(size, shape, offset) => {
            let builder = ShapeBuilder::for_sized(alloc, name, layout(size, 4));
            let fields = field(alloc, shape, offset)?;
            Ok(builder.ty(Ty::struct_builder(StructKind::Struct, fields).build()))
        }
    }
}

// The list of the drafts that are built.
fn list(alloc: Global, drafts: &[Draft]) -> Result<ShapeList, AllocError> {
    let mut shapes = ShapeList::new(alloc);
    for draft in drafts {
        if let Ok(shape) = builder(alloc, *draft)?.build() {
            shapes.push(shape)?;
        }
    }
    Ok(shapes)
}

// What the check of a whole list says: the cause and the shape's id, where it is refused.
fn verdict(alloc: Global, drafts: &[Draft]) -> Result<Option<(SealCause, u32)>, AllocError> {
    let shapes = list(alloc, drafts)?;
    if shapes.len() > 65_536 {
        return Err(AllocError);
    }
    let mut tables = Tables::new(alloc);
    match check::<Scalar>(alloc, &shapes, 0, &mut tables) {
        Ok(()) => Ok(None),
        Err(SealFault::Refused(error)) => Ok(Some((error.cause, error.shape.0))),
        Err(SealFault::NoMemory) => Err(AllocError),
    }
}

const U32: Draft = Leaf(ScalarType::U32, 4);

#[test]
fn sound_shapes_pass(rt: HostRuntime) -> Result<(), Fail> {
    let alloc = rt.alloc();
    assert!(rt; verdict(alloc, &[])?.is_none());
    assert!(rt; verdict(alloc, &[U32, Struct(8, 0, 4), Struct(8, 1, 0)])?.is_none());
    Ok(())
}

#[test]
fn the_first_cause_and_the_least_shape_are_named(rt: HostRuntime) -> Result<(), Fail> {
    let alloc = rt.alloc();
    let misaligned = Struct(8, 0, 2);
    let outside = Struct(4, 0, 4);
    let unknown = Struct(4, 99, 0);
    let rows = [
        (
            [U32, Struct(4, 0, 0), unknown],
            (SealCause::UnknownShape, 2),
        ),
        ([U32, misaligned, unknown], (SealCause::UnknownShape, 2)),
        ([U32, misaligned, outside], (SealCause::FieldOutside, 2)),
        (
            [U32, misaligned, misaligned],
            (SealCause::FieldMisaligned, 1),
        ),
        (
            [Struct(4, 1, 0), Struct(4, 2, 0), Struct(4, 1, 0)],
            (SealCause::InlineCycle, 1),
        ),
        (
            [U32, Leaf(ScalarType::U32, 0), Struct(6, 0, 0)],
            (SealCause::BadLayout, 2),
        ),
        (
            [U32, Leaf(ScalarType::U32, 0), U32],
            (SealCause::ZeroSizedScalar, 1),
        ),
        ([U32, Struct(65_540, 0, 0), U32], (SealCause::TooLarge, 1)),
    ];
    for (drafts, expected) in rows {
        assert!(rt; verdict(alloc, &drafts)? == Some(expected));
    }
    Ok(())
}
