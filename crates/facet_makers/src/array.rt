ghost use Rattle.std.specs.Prelude.{◌≡◌, ◌<◌, ◌-◌, ◌^◌, length, IfOk, OnOk, OnErr};
ghost use Rattle.facet_shape.specs.WithoutSpare.{shape_without_spare};
ghost use Rattle.facet_registry.specs.Registry.{all_shapes, with_draft};
ghost use Rattle.facet_makers.specs.Makers.{array_shape};
ghost use Rattle.facet_registry.specs.Offsets.{part_at};

use crate::drafting::draft;
use crate::generic::{built_in, with_length, with_parameter};
use crate::offering::offering;
use crate::operations::array_operations;
use facet_base::{Layout, NameForm, ShapeId, ShapeLayout};
use facet_def::{ArrayDef, Def};
use facet_desc::{ArrayType, SequenceType, Ty};
use facet_leaf::Leaf;
use facet_outline::{ValueKind, array_layout};
use facet_registry::Shapes;
use facet_shape::Shape;
use std::alloc::{AllocError, Global};

/// Drafts the shape of an array of `n` elements of the shape `t`, `[T; N]`. A refusal changes nothing.
/// Requires that `t` is below `len()`, and that there are fewer than 4,294,967,295 shapes.
pub fn array_of<L: Leaf>(
    alloc: Global,
    shapes: &mut Shapes<L>,
    t: ShapeId,
    n: usize,
) -> Result<ShapeId, AllocError>
    requires t { t.0 < length (all_shapes shapes.old) }
    requires room { length (all_shapes shapes.old) < 2 ^ 32 - 1 }
    ensures id { IfOk result (λ id. id.0 ≡ length (all_shapes shapes.old)) }
    ensures ok { OnOk result (shapes.new ≡ with_draft shapes.old (array_shape L.model t n (part_at (all_shapes shapes.old) t))) }
    ensures err { OnErr result (shapes.new ≡ shapes.old) }
{
    let part = shapes.part_layout(t);
    draft(shapes, array_shape::<L>(alloc, t, n, part)?)
}

// The shape of an array.
fn array_shape<L: Leaf>(
    alloc: Global,
    t: ShapeId,
    n: usize,
    part: Layout,
) -> Result<Shape, AllocError>
    ensures { IfOk result (λ shape. shape_without_spare shape ≡ array_shape L.model t n part) }
{
    let ty = Ty::Sequence(SequenceType::Array(ArrayType { t, n }));
    let layout = ShapeLayout::Sized(array_layout(n, part));
    let shape = built_in(alloc, "[T; N]", "#array#[T; N]", ty, layout)?;
    let shape = with_parameter(alloc, shape, "T", t)?;
    let shape = with_length(alloc, shape, n)?;
    Ok(Shape {
        def: Def::Array(ArrayDef::new(array_operations(), t, n)),
        inner: Some(t),
        type_name: Some(NameForm::Array),
        ..offering::<L>(shape, ValueKind::Array)
    })
}
