ghost use Rattle.std.specs.Prelude.{◌≡◌, ◌≤◌, ◌+◌, ◌^◌, IfErr, OnOk, length};
ghost use Rattle.facet_causes.specs.Causes.{Meets, rank};
ghost use Rattle.facet_causes.specs.First.{Explains, IsLocal, NoneBefore, NoneBelow, NoneOfFirst};
ghost use Rattle.facet_graph.specs.Least.{IsLeast};

use crate::buffers::Buffers;
use crate::cause::{SealCause, SealError, SealFault};
use crate::drafts::first_draft;
use crate::shape_list::ShapeList;
use facet_base::ShapeId;
use facet_leaf::Leaf;
use std::alloc::Global;

/// Refuses the shape that was found, the least one that meets the cause.
pub fn refuse<L: Leaf>(
    shapes: &ShapeList,
    cause: SealCause,
    found: Option<usize>,
) -> Result<(), SealFault>
    requires few { length shapes.now ≤ 2 ^ 32 }
    requires none_before { NoneBefore L.model shapes.now cause }
    requires least { IsLeast (Meets L.model shapes.now cause) (length shapes.now) found }
    ensures ok { OnOk result (NoneBelow L.model shapes.now (rank cause + 1)) }
    ensures refused { IfErr result (Explains L.model shapes.now) }
{
    match found {
        Some(s) => Err(SealFault::Refused(SealError {
            cause,
            shape: ShapeId(s as u32),
        })),
        None => Ok(()),
    }
}

/// Refuses the least shape that meets a cause that needs no search, where one does. No shape before `sealed` does.
pub fn refuse_draft<L: Leaf>(
    alloc: Global,
    shapes: &ShapeList,
    sealed: usize,
    cause: SealCause,
    buffers: &mut Buffers,
) -> Result<(), SealFault>
    requires few { length shapes.now ≤ 2 ^ 32 }
    requires none_before { NoneBefore L.model shapes.now cause }
    requires local { IsLocal cause }
    requires sealed { NoneOfFirst L.model shapes.now sealed }
    ensures ok { OnOk result (NoneBelow L.model shapes.now (rank cause + 1)) }
    ensures refused { IfErr result (Explains L.model shapes.now) }
{
    let found = first_draft::<L>(alloc, shapes, sealed, cause, buffers)?;
    refuse::<L>(shapes, cause, found)
}
