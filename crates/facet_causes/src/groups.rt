ghost use Rattle.std.specs.Prelude.{◌≡◌, ◌≤◌, ◌^◌, IfErr, OnOk, length};
ghost use Rattle.facet_causes.specs.First.{Explains, NoneBefore, NoneBelow, NoneOfFirst};

use crate::buffers::Buffers;
use crate::cause::{SealCause, SealFault};
use crate::refuse::refuse_draft;
use crate::shape_list::ShapeList;
use facet_leaf::Leaf;
use std::alloc::Global;

/// Refuses the least draft that meets a cause before InlineCycle: its references and what it says of itself.
pub fn refuse_references<L: Leaf>(
    alloc: Global,
    shapes: &ShapeList,
    sealed: usize,
    buffers: &mut Buffers,
) -> Result<(), SealFault>
    requires few { length shapes.now ≤ 2 ^ 32 }
    requires sealed { NoneOfFirst L.model shapes.now sealed }
    ensures ok { OnOk result (NoneBefore L.model shapes.now SealCause.InlineCycle) }
    ensures refused { IfErr result (Explains L.model shapes.now) }
{
    refuse_draft::<L>(alloc, shapes, sealed, SealCause::UnknownShape, buffers)?;
    refuse_draft::<L>(alloc, shapes, sealed, SealCause::EagerForward, buffers)?;
    refuse_draft::<L>(alloc, shapes, sealed, SealCause::Mismatch, buffers)?;
    refuse_draft::<L>(alloc, shapes, sealed, SealCause::UnsizedPart, buffers)
}

/// Refuses the least draft that meets a cause between TooLarge and KeyNotOrd: its layout, fields and discriminants.
pub fn refuse_layouts<L: Leaf>(
    alloc: Global,
    shapes: &ShapeList,
    sealed: usize,
    buffers: &mut Buffers,
) -> Result<(), SealFault>
    requires few { length shapes.now ≤ 2 ^ 32 }
    requires none_before { NoneBefore L.model shapes.now SealCause.BadLayout }
    requires sealed { NoneOfFirst L.model shapes.now sealed }
    ensures ok { OnOk result (NoneBefore L.model shapes.now SealCause.KeyNotOrd) }
    ensures refused { IfErr result (Explains L.model shapes.now) }
{
    refuse_draft::<L>(alloc, shapes, sealed, SealCause::BadLayout, buffers)?;
    refuse_draft::<L>(alloc, shapes, sealed, SealCause::FieldOutside, buffers)?;
    refuse_draft::<L>(alloc, shapes, sealed, SealCause::FieldMisaligned, buffers)?;
    refuse_draft::<L>(alloc, shapes, sealed, SealCause::FieldOverlap, buffers)?;
    refuse_draft::<L>(alloc, shapes, sealed, SealCause::ZeroSizedScalar, buffers)?;
    refuse_draft::<L>(
        alloc,
        shapes,
        sealed,
        SealCause::DiscriminantRepeated,
        buffers,
    )?;
    refuse_draft::<L>(alloc, shapes, sealed, SealCause::DiscriminantRange, buffers)
}
