ghost use Rattle.std.specs.Prelude.{◌≡◌, ◌↔◌, ◌<◌, ◌≤◌, IsTrue, length};
ghost use Rattle.facet_causes.specs.Causes.{Meets};
ghost use Rattle.facet_causes.specs.First.{NoneOfFirst};
ghost use Rattle.facet_causes.specs.Reading.{before_at, inline_at, named_at, own_name_bytes_of, repeated_at};
ghost use Rattle.facet_causes.specs.TooLarge.{IsTooLarge, each_counts};
ghost use Rattle.facet_graph.specs.Cost.{AreCosts, IsCostEntry};
ghost use Rattle.facet_graph.specs.Height.{AreHeights, IsHeightEntry};
ghost use Rattle.facet_graph.specs.Least.{IsLeast};
ghost use Rattle.facet_outline.specs.References.{LeadLower};

use crate::cause::SealCause;
use crate::shape_list::ShapeList;
use facet_graph::MAX_COST;
use facet_leaf::Leaf;
use facet_outline::is_too_large;
use facet_shape::Shape;

/// The least shape that is too large, by the tables of all shapes, and None where no shape is. No shape before `sealed`
/// is.
pub fn first_too_large<L: Leaf>(
    shapes: &ShapeList,
    sealed: usize,
    inline_heights: &[u8],
    part_counts: &[u32],
    name_lengths: &[u32],
    heights: &[u8],
) -> Option<usize>
    requires lower { LeadLower shapes.now }
    requires sealed { NoneOfFirst L.model shapes.now sealed }
    requires inline_heights_len { length inline_heights.now ≡ length shapes.now }
    requires inline_heights { AreHeights (inline_at shapes.now) (length shapes.now) inline_heights.now }
    requires part_counts_len { length part_counts.now ≡ length shapes.now }
    requires part_counts { AreCosts (repeated_at shapes.now) each_counts (length shapes.now) part_counts.now }
    requires name_lengths_len { length name_lengths.now ≡ length shapes.now }
    requires name_lengths { AreCosts (named_at shapes.now) (own_name_bytes_of shapes.now) (length shapes.now) name_lengths.now }
    requires heights_len { length heights.now ≡ length shapes.now }
    requires heights { AreHeights (before_at shapes.now) (length shapes.now) heights.now }
    ensures { IsLeast (Meets L.model shapes.now SealCause.TooLarge) (length shapes.now) result }
{
    for s in sealed..shapes.len() {
        let entries = Entries {
            inline_height: inline_heights[s],
            part_count: part_counts[s],
            name_length: name_lengths[s],
            height: heights[s],
        };
        if draft_is_large::<L>(shapes, s, entries) {
            return Some(s);
        }
    }
    None
}

// The entries of a shape in the tables.
#[derive(Clone, Copy)]
struct Entries {
    inline_height: u8,
    part_count: u32,
    name_length: u32,
    height: u8,
}

// Whether the shape under an id is too large, by its entries in the tables.
fn draft_is_large<L: Leaf>(shapes: &ShapeList, s: usize, entries: Entries) -> bool
    requires lower { LeadLower shapes.now }
    requires inline_height { IsHeightEntry (inline_at shapes.now) s entries.inline_height }
    requires part_count { IsCostEntry (repeated_at shapes.now) each_counts s entries.part_count }
    requires name_length { IsCostEntry (named_at shapes.now) (own_name_bytes_of shapes.now) s entries.name_length }
    requires height { IsHeightEntry (before_at shapes.now) s entries.height }
    ensures { IsTrue result ↔ Meets L.model shapes.now SealCause.TooLarge s }
{
    match shapes.get(s) {
        Some(shape) => is_large(shapes, s, shape, entries),
        None => false,
    }
}

// The same of the shape that stands there.
fn is_large(shapes: &ShapeList, s: usize, shape: &Shape, entries: Entries) -> bool
    requires lower { LeadLower shapes.now }
    requires inline_height { IsHeightEntry (inline_at shapes.now) s entries.inline_height }
    requires part_count { IsCostEntry (repeated_at shapes.now) each_counts s entries.part_count }
    requires name_length { IsCostEntry (named_at shapes.now) (own_name_bytes_of shapes.now) s entries.name_length }
    requires height { IsHeightEntry (before_at shapes.now) s entries.height }
    ensures { IsTrue result ↔ IsTooLarge shapes.now s shape.now }
{
    if entries.inline_height == 0 {
        return true;
    }
    if entries.height == 0 {
        return true;
    }
    if entries.part_count > MAX_COST {
        return true;
    }
    if entries.name_length > MAX_COST {
        return true;
    }
    is_too_large(shape.layout)
}
