ghost use Rattle.std.specs.Prelude.{◌≡◌, ◌<◌, ◌-◌, ◌^◌, length, IfOk, OnOk, OnErr};
ghost use Rattle.facet_shape.specs.WithoutSpare.{shape_without_spare};
ghost use Rattle.facet_registry.specs.Registry.{all_shapes, with_draft};
ghost use Rattle.facet_makers.specs.Makers.{slice_shape};

use crate::drafting::draft;
use crate::generic::{built_in, with_parameter};
use crate::offering::offering;
use crate::operations::slice_operations;
use facet_base::{NameForm, ShapeId, ShapeLayout};
use facet_def::{Def, SliceDef};
use facet_desc::{SequenceType, SliceType, Ty};
use facet_leaf::Leaf;
use facet_outline::ValueKind;
use facet_registry::Shapes;
use facet_shape::Shape;
use std::alloc::{AllocError, Global};

/// Drafts the shape of a slice of elements of the shape `t`, `[T]`. A refusal changes nothing.
/// Requires that `t` is below `len()`, and that there are fewer than 4,294,967,295 shapes.
pub fn slice_of<L: Leaf>(
    alloc: Global,
    shapes: &mut Shapes<L>,
    t: ShapeId,
) -> Result<ShapeId, AllocError>
    requires t { t.0 < length (all_shapes shapes.old) }
    requires room { length (all_shapes shapes.old) < 2 ^ 32 - 1 }
    ensures id { IfOk result (λ id. id.0 ≡ length (all_shapes shapes.old)) }
    ensures ok { OnOk result (shapes.new ≡ with_draft shapes.old (slice_shape L.model t)) }
    ensures err { OnErr result (shapes.new ≡ shapes.old) }
{
    draft(shapes, slice_shape::<L>(alloc, t)?)
}

// The shape of a slice.
fn slice_shape<L: Leaf>(alloc: Global, t: ShapeId) -> Result<Shape, AllocError>
    ensures { IfOk result (λ shape. shape_without_spare shape ≡ slice_shape L.model t) }
{
    let ty = Ty::Sequence(SequenceType::Slice(SliceType { t }));
    let shape = built_in(alloc, "[T]", "#slice#[T]", ty, ShapeLayout::Unsized)?;
    let shape = with_parameter(alloc, shape, "T", t)?;
    Ok(Shape {
        def: Def::Slice(SliceDef::new(slice_operations(), t)),
        inner: Some(t),
        type_name: Some(NameForm::Slice),
        ..offering::<L>(shape, ValueKind::NoValue)
    })
}
