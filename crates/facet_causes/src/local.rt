ghost use Rattle.std.specs.Prelude.{◌≡◌, ◌↔◌, ◌≤◌, Any, IfOk, IsTrue};
ghost use Rattle.facet_causes.specs.Causes.{ShapeMeets};
ghost use Rattle.facet_causes.specs.First.{IsLocal};
ghost use Rattle.facet_graph.specs.Repeats.{HasRepeat};
ghost use Rattle.facet_outline.specs.Discriminant.{discriminants_of_kind};
ghost use Rattle.facet_outline.specs.References.{eager_references, references};

use crate::buffers::Buffers;
use crate::cause::SealCause;
use crate::overlap::has_overlap;
use crate::reading::element_of;
use crate::shape_list::ShapeList;
use facet_base::ShapeId;
use facet_desc::Ty;
use facet_graph::has_repeat;
use facet_leaf::Leaf;
use facet_outline::{
    ValueKind, has_bad_layout, has_discriminant_outside, has_field_misaligned, has_field_outside,
    has_unoffered_member, has_unsized_part, is_leaf_without_bytes, is_mismatched, kind_of,
    part_layout, push_discriminants_of_kind, push_eager_references, push_references,
};
use facet_shape::Shape;
use std::alloc::{AllocError, Global};

/// Whether a shape, which stands under the id `s`, meets a cause that needs no search.
pub fn shape_meets<L: Leaf>(
    alloc: Global,
    shapes: &ShapeList,
    cause: SealCause,
    s: usize,
    shape: &Shape,
    buffers: &mut Buffers,
) -> Result<bool, AllocError>
    requires { IsLocal cause }
    ensures { IfOk result (λ met. IsTrue met ↔ ShapeMeets L.model shapes.now cause s shape.now) }
{
    let element = element_of(shapes, &shape.def);
    let kind = kind_of(shape, element);
    let size = part_layout(shape.layout).size;
    let ty = &shape.ty;
    match cause {
        SealCause::UnknownShape => is_unknown(shapes.len(), shape, &mut buffers.ids),
        SealCause::EagerForward => is_forward(s, shape, &mut buffers.ids),
        SealCause::Mismatch => Ok(is_mismatched(shapes, shape)),
        SealCause::UnsizedPart => has_unsized_part(shapes, element, shape, &mut buffers.ids),
        SealCause::BadLayout => has_bad_layout(shapes, element, shape, &mut buffers.ids),
        SealCause::FieldOutside => {
            has_field_outside(shapes, kind, ty, size, &mut buffers.fields)
        }
        SealCause::FieldMisaligned => {
            has_field_misaligned(shapes, kind, ty, &mut buffers.fields)
        }
        SealCause::FieldOverlap => has_overlap(shapes, kind, ty, buffers),
        SealCause::ZeroSizedScalar => Ok(is_leaf_without_bytes(kind, shape.layout)),
        SealCause::DiscriminantRepeated => {
            is_repeated(alloc, kind, ty, &mut buffers.discriminants)
        }
        SealCause::DiscriminantRange => {
            has_discriminant_outside(kind, ty, &mut buffers.discriminants)
        }
        SealCause::CapabilityMissing => Ok(has_unoffered_member::<L>(element, shape)),
        SealCause::InlineCycle | SealCause::TooLarge | SealCause::KeyNotOrd => unreachable!(),
    }
}

// Whether a shape refers to an id at or above the number of shapes.
fn is_unknown(len: usize, shape: &Shape, ids: &mut Vec<ShapeId>) -> Result<bool, AllocError>
    ensures { IfOk result (λ met. IsTrue met ↔ Any (λ id. len ≤ id.0) (references shape.now)) }
{
    ids.clear();
    push_references(shape, ids)?;
    Ok(has_from(ids, len))
}

// Whether a shape, which stands under the id `s`, has an eager reference to itself or a later one.
fn is_forward(s: usize, shape: &Shape, ids: &mut Vec<ShapeId>) -> Result<bool, AllocError>
    ensures { IfOk result (λ met. IsTrue met ↔ Any (λ id. s ≤ id.0) (eager_references shape.now)) }
{
    ids.clear();
    push_eager_references(shape, ids)?;
    Ok(has_from(ids, s))
}

// Whether one of the ids is at or above the least one.
fn has_from(ids: &[ShapeId], least: usize) -> bool
    ensures { IsTrue result ↔ Any (λ id. least ≤ id.0) ids.now }
{
    ids.iter().any(|id| id.0 as usize >= least)
}

// Whether two variants have one discriminant.
fn is_repeated(
    alloc: Global,
    kind: ValueKind,
    ty: &Ty,
    discriminants: &mut Vec<i64>,
) -> Result<bool, AllocError>
    ensures { IfOk result (λ met. IsTrue met ↔ HasRepeat (discriminants_of_kind kind ty.now)) }
{
    discriminants.clear();
    push_discriminants_of_kind(kind, ty, discriminants)?;
    has_repeat(alloc, discriminants)
}
