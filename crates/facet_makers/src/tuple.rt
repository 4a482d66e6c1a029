ghost use Rattle.std.specs.Prelude.{◌≡◌, ◌<◌, ◌≤◌, ◌-◌, ◌^◌, length, IfOk, OnOk, OnErr};
ghost use Rattle.std.specs.List.{All};
ghost use Rattle.facet_shape.specs.WithoutSpare.{shape_without_spare};
ghost use Rattle.facet_registry.specs.Registry.{all_shapes, with_draft};
ghost use Rattle.facet_makers.specs.Makers.{tuple_of, tuple_shape};
ghost use Rattle.facet_registry.specs.Offsets.{part_at};
ghost use Rattle.facet_makers.specs.Types.{tuple_identifier};

use crate::drafting::draft;
use crate::generic::built_in;
use crate::offering::offering;
use crate::tuple_parts::{TupleParts, tuple_parts};
use facet_base::{NameForm, ShapeId, ShapeLayout};
use facet_desc::{Repr, StructKind, StructType, Ty, UserType};
use facet_leaf::Leaf;
use facet_outline::{ValueKind, rounded};
use facet_registry::Shapes;
use facet_shape::Shape;
use std::alloc::{AllocError, Global};

/// Drafts the shape of a tuple of parts of these shapes. A refusal changes nothing.
/// Requires 1 to 12 parts, that each is below `len()`, and that there are fewer than 4,294,967,295 shapes.
pub fn tuple_of<L: Leaf>(
    alloc: Global,
    shapes: &mut Shapes<L>,
    parts: &[ShapeId],
) -> Result<ShapeId, AllocError>
    requires some { 0 < length parts.now }
    requires few { length parts.now ≤ 12 }
    requires parts { All (λ t. t.0 < length (all_shapes shapes.old)) parts.now }
    requires room { length (all_shapes shapes.old) < 2 ^ 32 - 1 }
    ensures id { IfOk result (λ id. id.0 ≡ length (all_shapes shapes.old)) }
    ensures ok { OnOk result (shapes.new ≡ with_draft shapes.old (tuple_shape (λ t. part_at (all_shapes shapes.old) t) parts.now)) }
    ensures err { OnErr result (shapes.new ≡ shapes.old) }
{
    let tuple = tuple_parts(alloc, shapes, parts)?;
    let identifier = tuple_identifier(parts.len());
    draft(shapes, tuple_shape::<L>(alloc, identifier, tuple)?)
}

// How the identifier of a tuple of so many parts is written.
fn tuple_identifier(count: usize) -> &'static str
    ensures { result.now ≡ tuple_identifier count }
{
    if count == 1 { "(_,)" } else { "(…)" }
}

// The shape of a tuple of these fields. It offers what a result does, which is less than structs may offer.
fn tuple_shape<L: Leaf>(
    alloc: Global,
    identifier: &str,
    tuple: TupleParts,
) -> Result<Shape, AllocError>
    ensures { IfOk result (λ shape. shape_without_spare shape ≡ tuple_of identifier.now tuple) }
{
    let layout = ShapeLayout::Sized(rounded(tuple.end, tuple.align));
    let ty = Ty::User(UserType::Struct(StructType {
        repr: Repr::RUST,
        kind: StructKind::Tuple,
        fields: tuple.fields,
    }));
    let shape = built_in(alloc, identifier, "#tuple#(…)", ty, layout)?;
    Ok(Shape {
        type_name: Some(NameForm::Tuple),
        ..offering::<L>(shape, ValueKind::Result)
    })
}
