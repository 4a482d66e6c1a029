ghost use Rattle.std.specs.Prelude.{◌≡◌, ◌↔◌, [], Any, IfOk, IsTrue, slice_index_or};
ghost use Rattle.facet_causes.specs.Reading.{layout_at};
ghost use Rattle.facet_graph.specs.Repeats.{HaveOverlap};
ghost use Rattle.facet_outline.specs.Field.{bodies, spans_of, tag_bytes};

use crate::buffers::Buffers;
use crate::shape_list::ShapeList;
use facet_desc::Ty;
use facet_graph::have_overlap;
use facet_outline::{ValueKind, body_count, push_body, push_spans, tag_bytes};
use std::alloc::AllocError;

/// Whether two fields of a struct or of one variant share a byte, or one shares a byte with the tag.
pub fn has_overlap(
    shapes: &ShapeList,
    kind: ValueKind,
    ty: &Ty,
    buffers: &mut Buffers,
) -> Result<bool, AllocError>
    ensures { IfOk result (λ met. IsTrue met ↔ Any (λ body. HaveOverlap (spans_of (layout_at shapes.now) (tag_bytes kind ty.now) body)) (bodies kind ty.now)) }
{
    for i in 0..body_count(kind, ty) {
        if body_overlaps(shapes, kind, ty, i, buffers)? {
            return Ok(true);
        }
    }
    Ok(false)
}

// The same of the fields that lie side by side in the value at an index.
fn body_overlaps(
    shapes: &ShapeList,
    kind: ValueKind,
    ty: &Ty,
    i: usize,
    buffers: &mut Buffers,
) -> Result<bool, AllocError>
    ensures { IfOk result (λ met. IsTrue met ↔ HaveOverlap (spans_of (layout_at shapes.now) (tag_bytes kind ty.now) (slice_index_or (bodies kind ty.now) i []))) }
{
    buffers.fields.clear();
    push_body(kind, ty, i, &mut buffers.fields)?;
    buffers.spans.clear();
    push_spans(
        shapes,
        tag_bytes(kind, ty),
        &buffers.fields,
        &mut buffers.spans,
    )?;
    have_overlap(&mut buffers.spans)
}
