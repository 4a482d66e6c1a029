ghost use Rattle.std.specs.Prelude.{◌≡◌, ◌<◌, ◌-◌, ◌^◌, length, IfOk, OnOk, OnErr};
ghost use Rattle.facet_shape.specs.WithoutSpare.{shape_without_spare};
ghost use Rattle.facet_registry.specs.Registry.{all_shapes, with_draft};
ghost use Rattle.facet_makers.specs.Makers.{map_shape};
ghost use Rattle.facet_registry.specs.Offsets.{part_at};

use crate::drafting::draft;
use crate::generic::{in_module, with_parameter};
use crate::offering::offering;
use crate::operations::map_operations;
use facet_base::{Layout, NameForm, ShapeId, ShapeLayout};
use facet_def::{Def, MapDef};
use facet_desc::{Ty, UserType};
use facet_leaf::Leaf;
use facet_outline::ValueKind;
use facet_registry::Shapes;
use facet_shape::Shape;
use std::alloc::{AllocError, Global};

/// Drafts the shape of a map from the shape `k` to the shape `v`, `BTreeMap<K, V>`. A refusal changes nothing.
/// Requires that `k` and `v` are below `len()`, and that there are fewer than 4,294,967,295 shapes.
pub fn map_of<L: Leaf>(
    alloc: Global,
    shapes: &mut Shapes<L>,
    k: ShapeId,
    v: ShapeId,
) -> Result<ShapeId, AllocError>
    requires k { k.0 < length (all_shapes shapes.old) }
    requires v { v.0 < length (all_shapes shapes.old) }
    requires room { length (all_shapes shapes.old) < 2 ^ 32 - 1 }
    ensures id { IfOk result (λ id. id.0 ≡ length (all_shapes shapes.old)) }
    ensures ok { OnOk result (shapes.new ≡ with_draft shapes.old (map_shape L.model k v (part_at (all_shapes shapes.old) k) (part_at (all_shapes shapes.old) v))) }
    ensures err { OnErr result (shapes.new ≡ shapes.old) }
{
    let key = shapes.part_layout(k);
    let value = shapes.part_layout(v);
    draft(shapes, map_shape::<L>(alloc, k, v, key, value)?)
}

// The shape of a map.
fn map_shape<L: Leaf>(
    alloc: Global,
    k: ShapeId,
    v: ShapeId,
    key: Layout,
    value: Layout,
) -> Result<Shape, AllocError>
    ensures { IfOk result (λ shape. shape_without_spare shape ≡ map_shape L.model k v key value) }
{
    let layout = Layout { size: 24, align: 8 };
    let shape = in_module(
        alloc,
        "BTreeMap",
        "alloc::collections::btree_map",
        Ty::User(UserType::Opaque),
        ShapeLayout::Sized(layout),
    )?;
    let shape = with_parameter(alloc, shape, "K", k)?;
    let shape = with_parameter(alloc, shape, "V", v)?;
    Ok(Shape {
        def: Def::Map(MapDef::new(map_operations(key, value), k, v)),
        type_name: Some(NameForm::Map),
        ..offering::<L>(shape, ValueKind::Map)
    })
}
