ghost use Rattle.std.specs.Prelude.{◌≡◌, ◌<◌, ◌-◌, ◌^◌, length, IfOk, OnOk, OnErr};
ghost use Rattle.facet_shape.specs.WithoutSpare.{shape_without_spare};
ghost use Rattle.facet_registry.specs.Registry.{all_shapes, with_draft};
ghost use Rattle.facet_makers.specs.Makers.{set_shape};

use crate::drafting::draft;
use crate::generic::{in_module, with_parameter};
use crate::offering::offering;
use crate::operations::set_operations;
use facet_base::{Layout, NameForm, ShapeId, ShapeLayout};
use facet_def::{Def, SetDef};
use facet_desc::{Ty, UserType};
use facet_leaf::Leaf;
use facet_outline::ValueKind;
use facet_registry::Shapes;
use facet_shape::Shape;
use std::alloc::{AllocError, Global};

/// Drafts the shape of a set of items of the shape `t`, `BTreeSet<T>`. A refusal changes nothing.
/// Requires that `t` is below `len()`, and that there are fewer than 4,294,967,295 shapes.
pub fn set_of<L: Leaf>(
    alloc: Global,
    shapes: &mut Shapes<L>,
    t: ShapeId,
) -> Result<ShapeId, AllocError>
    requires t { t.0 < length (all_shapes shapes.old) }
    requires room { length (all_shapes shapes.old) < 2 ^ 32 - 1 }
    ensures id { IfOk result (λ id. id.0 ≡ length (all_shapes shapes.old)) }
    ensures ok { OnOk result (shapes.new ≡ with_draft shapes.old (set_shape L.model t)) }
    ensures err { OnErr result (shapes.new ≡ shapes.old) }
{
    draft(shapes, set_shape::<L>(alloc, t)?)
}

// The shape of a set.
fn set_shape<L: Leaf>(alloc: Global, t: ShapeId) -> Result<Shape, AllocError>
    ensures { IfOk result (λ shape. shape_without_spare shape ≡ set_shape L.model t) }
{
    let layout = Layout { size: 24, align: 8 };
    let shape = in_module(
        alloc,
        "BTreeSet",
        "alloc::collections::btree_set",
        Ty::User(UserType::Opaque),
        ShapeLayout::Sized(layout),
    )?;
    let shape = with_parameter(alloc, shape, "T", t)?;
    Ok(Shape {
        def: Def::Set(SetDef::new(set_operations(), t)),
        inner: Some(t),
        type_name: Some(NameForm::Set),
        ..offering::<L>(shape, ValueKind::Set)
    })
}
