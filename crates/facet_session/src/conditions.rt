ghost use Rattle.std.specs.Prelude.{◌≡◌, bytes_eq};
ghost use Rattle.std.specs.List.{list_any};
ghost use Rattle.facet_registry.specs.WellFormed.{IsRegistry};
ghost use Rattle.facet_session.specs.Refusal.{is_unsealed as has_no_sealed_shape};

use crate::session::Cell;
use facet_base::{ShapeId, Text};
use facet_block::Leaf;
use facet_registry::Shapes;

/// Whether no sealed shape has this id.
pub fn is_unsealed<L: Leaf>(shapes: &Shapes<L>, shape: ShapeId) -> bool
    ensures test { result ≡ has_no_sealed_shape shapes.now.sealed shape.0 }
    ensures registry { IsRegistry L.model shapes.now }
{
    shape.0 as usize >= shapes.sealed()
}

/// Whether a cell has this name.
pub fn is_taken<L>(cells: &[Cell<L>], name: &Text) -> bool
    ensures { result ≡ list_any (λ cell. bytes_eq cell.name name.now) cells.now }
{
    cells.iter().any(|cell| cell.name.is_same(name))
}
