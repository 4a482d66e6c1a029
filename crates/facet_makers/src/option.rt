ghost use Rattle.std.specs.Prelude.{◌≡◌, ◌<◌, ◌-◌, ◌^◌, length, IfOk, OnOk, OnErr};
ghost use Rattle.facet_shape.specs.WithoutSpare.{shape_without_spare};
ghost use Rattle.facet_registry.specs.Registry.{all_shapes, with_draft};
ghost use Rattle.facet_makers.specs.Makers.{option_shape};
ghost use Rattle.facet_registry.specs.Offsets.{part_at};

use crate::drafting::draft;
use crate::generic::{in_module, with_parameter};
use crate::offering::offering;
use crate::operations::option_operations;
use crate::types::option_type;
use facet_base::{Layout, NameForm, ShapeId, ShapeLayout};
use facet_def::{Def, OptionDef};
use facet_desc::Ty;
use facet_leaf::Leaf;
use facet_outline::{ValueKind, option_layout};
use facet_registry::Shapes;
use facet_shape::Shape;
use std::alloc::{AllocError, Global};

/// Drafts the shape of an option of the shape `t`, `Option<T>`. A refusal changes nothing.
/// Requires that `t` is below `len()`, and that there are fewer than 4,294,967,295 shapes.
pub fn option_of<L: Leaf>(
    alloc: Global,
    shapes: &mut Shapes<L>,
    t: ShapeId,
) -> Result<ShapeId, AllocError>
    requires t { t.0 < length (all_shapes shapes.old) }
    requires room { length (all_shapes shapes.old) < 2 ^ 32 - 1 }
    ensures id { IfOk result (λ id. id.0 ≡ length (all_shapes shapes.old)) }
    ensures ok { OnOk result (shapes.new ≡ with_draft shapes.old (option_shape L.model t (part_at (all_shapes shapes.old) t))) }
    ensures err { OnErr result (shapes.new ≡ shapes.old) }
{
    let part = shapes.part_layout(t);
    draft(shapes, option_shape::<L>(alloc, t, part)?)
}

// The shape of an option.
fn option_shape<L: Leaf>(alloc: Global, t: ShapeId, part: Layout) -> Result<Shape, AllocError>
    ensures { IfOk result (λ shape. shape_without_spare shape ≡ option_shape L.model t part) }
{
    let ty = option_type(alloc, t, part)?;
    let layout = ShapeLayout::Sized(option_layout(part));
    let shape = in_module(alloc, "Option", "core::option", ty, layout)?;
    let shape = with_parameter(alloc, shape, "T", t)?;
    Ok(Shape {
        def: Def::Option(OptionDef::new(option_operations(), t)),
        inner: Some(t),
        type_name: Some(NameForm::Option),
        ..offering::<L>(shape, ValueKind::Option)
    })
}
