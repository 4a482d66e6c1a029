ghost use Rattle.std.specs.Prelude.{◌≡◌, ◌<◌, ◌-◌, ◌^◌, length, IfOk, OnOk, OnErr};
ghost use Rattle.facet_shape.specs.WithoutSpare.{shape_without_spare};
ghost use Rattle.facet_registry.specs.Registry.{all_shapes, with_draft};
ghost use Rattle.facet_makers.specs.Makers.{list_shape};

use crate::drafting::draft;
use crate::generic::{in_module, with_parameter};
use crate::offering::offering;
use crate::operations::{element_operations, list_operations};
use facet_base::{Layout, NameForm, ShapeId, ShapeLayout};
use facet_def::{Def, ListDef};
use facet_desc::{Ty, UserType};
use facet_leaf::Leaf;
use facet_outline::ValueKind;
use facet_registry::Shapes;
use facet_shape::Shape;
use std::alloc::{AllocError, Global};

/// Drafts the shape of a list of elements of the shape `t`, `Vec<T>`. A refusal changes nothing.
/// Requires that `t` is below `len()`, and that there are fewer than 4,294,967,295 shapes.
pub fn list_of<L: Leaf>(
    alloc: Global,
    shapes: &mut Shapes<L>,
    t: ShapeId,
) -> Result<ShapeId, AllocError>
    requires t { t.0 < length (all_shapes shapes.old) }
    requires room { length (all_shapes shapes.old) < 2 ^ 32 - 1 }
    ensures id { IfOk result (λ id. id.0 ≡ length (all_shapes shapes.old)) }
    ensures ok { OnOk result (shapes.new ≡ with_draft shapes.old (list_shape L.model t)) }
    ensures err { OnErr result (shapes.new ≡ shapes.old) }
{
    draft(shapes, list_shape::<L>(alloc, t)?)
}

// The shape of a list.
fn list_shape<L: Leaf>(alloc: Global, t: ShapeId) -> Result<Shape, AllocError>
    ensures { IfOk result (λ shape. shape_without_spare shape ≡ list_shape L.model t) }
{
    let layout = Layout { size: 24, align: 8 };
    let shape = in_module(
        alloc,
        "Vec",
        "alloc::vec",
        Ty::User(UserType::Opaque),
        ShapeLayout::Sized(layout),
    )?;
    let shape = with_parameter(alloc, shape, "T", t)?;
    Ok(Shape {
        def: Def::List(ListDef::with_type_ops(list_operations(), element_operations(), t)),
        inner: Some(t),
        type_name: Some(NameForm::Vec),
        ..offering::<L>(shape, ValueKind::List)
    })
}
