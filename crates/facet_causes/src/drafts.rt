ghost use Rattle.std.specs.Prelude.{◌≡◌, ◌↔◌, ◌<◌, IfOk, IsTrue, length};
ghost use Rattle.facet_causes.specs.Causes.{Meets};
ghost use Rattle.facet_causes.specs.First.{IsLocal, NoneOfFirst};
ghost use Rattle.facet_graph.specs.Least.{IsLeast};

use crate::buffers::Buffers;
use crate::cause::SealCause;
use crate::local::shape_meets;
use crate::shape_list::ShapeList;
use facet_leaf::Leaf;
use std::alloc::{AllocError, Global};

/// The least shape that meets a cause that needs no search, and None where no shape does. It looks at the shapes from
/// `sealed` on: those before meet none.
pub fn first_draft<L: Leaf>(
    alloc: Global,
    shapes: &ShapeList,
    sealed: usize,
    cause: SealCause,
    buffers: &mut Buffers,
) -> Result<Option<usize>, AllocError>
    requires local { IsLocal cause }
    requires sealed { NoneOfFirst L.model shapes.now sealed }
    ensures { IfOk result (IsLeast (Meets L.model shapes.now cause) (length shapes.now)) }
{
    for s in sealed..shapes.len() {
        if draft_meets::<L>(alloc, shapes, cause, s, buffers)? {
            return Ok(Some(s));
        }
    }
    Ok(None)
}

// Whether the shape under an id meets a cause that needs no search.
fn draft_meets<L: Leaf>(
    alloc: Global,
    shapes: &ShapeList,
    cause: SealCause,
    s: usize,
    buffers: &mut Buffers,
) -> Result<bool, AllocError>
    requires { IsLocal cause }
    ensures { IfOk result (λ met. IsTrue met ↔ Meets L.model shapes.now cause s) }
{
    match shapes.get(s) {
        Some(shape) => shape_meets::<L>(alloc, shapes, cause, s, shape, buffers),
        None => Ok(false),
    }
}
