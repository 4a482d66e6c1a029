ghost use Rattle.std.specs.Prelude.{◌≡◌};
ghost use Rattle.facet_registry.specs.Registry.{kind_at, offers, size_at};

use facet_base::{Characteristic, ShapeId, ShapeLayout};
use facet_causes::{ShapeList, kind_in};
use facet_outline::ValueKind;

/// What the values of the shape under an id are. Without a shape there are none.
pub fn kind_at(shapes: &ShapeList, id: ShapeId) -> ValueKind
    ensures { result ≡ kind_at shapes.now id.0 }
{
    match shapes.get(id.0 as usize) {
        Some(shape) => kind_in(shapes, shape),
        None => ValueKind::NoValue,
    }
}

/// The size in bytes of the values of the shape under an id, 0 where they share none or there is no shape.
pub fn size_at(shapes: &ShapeList, id: ShapeId) -> usize
    ensures { result ≡ size_at shapes.now id.0 }
{
    match shapes.get(id.0 as usize).map(|shape| shape.layout) {
        Some(ShapeLayout::Sized(layout)) => layout.size,
        _ => 0,
    }
}

/// Whether the values of the shape under an id can do that, as its record of capabilities says.
pub fn offers(shapes: &ShapeList, id: ShapeId, c: Characteristic) -> bool
    ensures { result ≡ offers shapes.now id.0 c }
{
    shapes.get(id.0 as usize).is_some_and(|shape| shape.is(c))
}
