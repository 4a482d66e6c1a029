ghost use Rattle.std.specs.Prelude.{◌≡◌, ◌<◌, ◌-◌, ◌^◌, length, IfOk, OnOk, OnErr};
ghost use Rattle.facet_shape.specs.WithoutSpare.{shape_without_spare};
ghost use Rattle.facet_registry.specs.Registry.{all_shapes, with_draft};
ghost use Rattle.facet_makers.specs.Makers.{result_shape};
ghost use Rattle.facet_registry.specs.Offsets.{part_at};

use crate::drafting::draft;
use crate::generic::{in_module, with_parameter};
use crate::offering::offering;
use crate::operations::result_operations;
use facet_base::{Layout, NameForm, ShapeId, ShapeLayout};
use facet_def::{Def, ResultDef};
use facet_desc::{Ty, UserType};
use facet_leaf::Leaf;
use facet_outline::{ValueKind, result_layout};
use facet_registry::Shapes;
use facet_shape::Shape;
use std::alloc::{AllocError, Global};

/// Drafts the shape of a result, which holds the shape `t` or the shape `e`, `Result<T, E>`. A refusal changes nothing.
/// Requires that `t` and `e` are below `len()`, and that there are fewer than 4,294,967,295 shapes.
pub fn result_of<L: Leaf>(
    alloc: Global,
    shapes: &mut Shapes<L>,
    t: ShapeId,
    e: ShapeId,
) -> Result<ShapeId, AllocError>
    requires t { t.0 < length (all_shapes shapes.old) }
    requires e { e.0 < length (all_shapes shapes.old) }
    requires room { length (all_shapes shapes.old) < 2 ^ 32 - 1 }
    ensures id { IfOk result (λ id. id.0 ≡ length (all_shapes shapes.old)) }
    ensures ok { OnOk result (shapes.new ≡ with_draft shapes.old (result_shape L.model t e (part_at (all_shapes shapes.old) t) (part_at (all_shapes shapes.old) e))) }
    ensures err { OnErr result (shapes.new ≡ shapes.old) }
{
    let part = shapes.part_layout(t);
    let error = shapes.part_layout(e);
    draft(shapes, result_shape::<L>(alloc, t, e, part, error)?)
}

// The shape of a result.
fn result_shape<L: Leaf>(
    alloc: Global,
    t: ShapeId,
    e: ShapeId,
    part: Layout,
    error: Layout,
) -> Result<Shape, AllocError>
    ensures { IfOk result (λ shape. shape_without_spare shape ≡ result_shape L.model t e part error) }
{
    let layout = ShapeLayout::Sized(result_layout(part, error));
    let shape = in_module(
        alloc,
        "Result",
        "core::result",
        Ty::User(UserType::Opaque),
        layout,
    )?;
    let shape = with_parameter(alloc, shape, "T", t)?;
    let shape = with_parameter(alloc, shape, "E", e)?;
    Ok(Shape {
        def: Def::Result(ResultDef::new(result_operations(), t, e)),
        type_name: Some(NameForm::Result),
        ..offering::<L>(shape, ValueKind::Result)
    })
}
