ghost use Rattle.std.specs.Prelude.{◌≡◌, ◌<◌, ◌-◌, ◌^◌, length, IfOk, OnOk, OnErr};
ghost use Rattle.facet_shape.specs.WithoutSpare.{shape_without_spare};
ghost use Rattle.facet_registry.specs.Registry.{all_shapes, with_draft};

use facet_base::ShapeId;
use facet_leaf::Leaf;
use facet_registry::Shapes;
use facet_shape::Shape;
use std::alloc::AllocError;

/// Adds a shape as a draft, which is told by its lists alone. A refusal drops it, and changes nothing.
pub fn draft<L: Leaf>(shapes: &mut Shapes<L>, shape: Shape) -> Result<ShapeId, AllocError>
    requires { length (all_shapes shapes.old) < 2 ^ 32 - 1 }
    ensures id { IfOk result (λ id. id.0 ≡ length (all_shapes shapes.old)) }
    ensures ok { OnOk result (shapes.new ≡ with_draft shapes.old (shape_without_spare shape)) }
    ensures err { OnErr result (shapes.new ≡ shapes.old) }
{
    shapes.push(shape)
}
