ghost use Rattle.std.specs.Prelude.{◌≡◌, ◌≤◌, ◌^◌, IfErr, OnOk, length, take, vec_len};
ghost use Rattle.facet_causes.specs.First.{Explains, NoneBefore, NoneBelow, NoneOfFirst};
ghost use Rattle.facet_causes.specs.Reading.{before_at, inline_at, named_at, own_name_bytes_of, repeated_at};
ghost use Rattle.facet_causes.specs.TooLarge.{each_counts};
ghost use Rattle.facet_graph.specs.Cost.{AreCosts};
ghost use Rattle.facet_graph.specs.Height.{AreHeights, AreLow};

use crate::cause::{SealCause, SealFault};
use crate::edges::{Before, InlineParts, Names};
use crate::large::first_too_large;
use crate::refuse::refuse;
use crate::shape_list::ShapeList;
use facet_graph::{fill_costs, fill_heights, first_on_cycle};
use facet_leaf::Leaf;
use std::alloc::Global;

/// Lengthens the table of inline heights to all shapes, and refuses the least shape that lies in itself.
pub fn refuse_cycle<L: Leaf>(
    alloc: Global,
    shapes: &ShapeList,
    heights: &mut Vec<u8>,
) -> Result<(), SealFault>
    requires few { length shapes.now ≤ 2 ^ 32 }
    requires none_before { NoneBefore L.model shapes.now SealCause.InlineCycle }
    requires fits { vec_len heights.old ≤ length shapes.now }
    requires known { AreLow (inline_at shapes.now) (vec_len heights.old) heights.old.items }
    ensures ok { OnOk result (NoneBefore L.model shapes.now SealCause.TooLarge) }
    ensures heights { OnOk result (AreHeights (inline_at shapes.now) (length shapes.now) heights.new.items) }
    ensures len { OnOk result (vec_len heights.new ≡ length shapes.now) }
    ensures begins { take (vec_len heights.old) heights.new.items ≡ heights.old.items }
    ensures refused { IfErr result (Explains L.model shapes.now) }
{
    let sealed = heights.len();
    let graph = InlineParts { alloc, shapes };
    fill_heights(alloc, &graph, heights)?;
    let found = first_on_cycle(alloc, &graph, sealed, heights)?;
    refuse::<L>(shapes, SealCause::InlineCycle, found)
}

/// Lengthens the tables of heights, of numbers of parts and of the lengths of names to all shapes, and refuses the least
/// shape that is too large.
pub fn refuse_large<L: Leaf>(
    alloc: Global,
    shapes: &ShapeList,
    inline_heights: &[u8],
    heights: &mut Vec<u8>,
    part_counts: &mut Vec<u32>,
    name_lengths: &mut Vec<u32>,
) -> Result<(), SealFault>
    requires few { length shapes.now ≤ 2 ^ 32 }
    requires none_before { NoneBefore L.model shapes.now SealCause.TooLarge }
    requires sealed { NoneOfFirst L.model shapes.now (vec_len heights.old) }
    requires inline_heights_len { length inline_heights.now ≡ length shapes.now }
    requires inline_heights { AreHeights (inline_at shapes.now) (length shapes.now) inline_heights.now }
    requires heights_fit { vec_len heights.old ≤ length shapes.now }
    requires heights_known { AreLow (before_at shapes.now) (vec_len heights.old) heights.old.items }
    requires part_counts_fit { vec_len part_counts.old ≤ length shapes.now }
    requires part_counts_known { AreCosts (repeated_at shapes.now) each_counts (vec_len part_counts.old) part_counts.old.items }
    requires name_lengths_fit { vec_len name_lengths.old ≤ length shapes.now }
    requires name_lengths_known { AreCosts (named_at shapes.now) (own_name_bytes_of shapes.now) (vec_len name_lengths.old) name_lengths.old.items }
    ensures ok { OnOk result (NoneBefore L.model shapes.now SealCause.BadLayout) }
    ensures heights { OnOk result (AreHeights (before_at shapes.now) (length shapes.now) heights.new.items) }
    ensures heights_len { OnOk result (vec_len heights.new ≡ length shapes.now) }
    ensures heights_begin { take (vec_len heights.old) heights.new.items ≡ heights.old.items }
    ensures part_counts { OnOk result (AreCosts (repeated_at shapes.now) each_counts (length shapes.now) part_counts.new.items) }
    ensures part_counts_len { OnOk result (vec_len part_counts.new ≡ length shapes.now) }
    ensures part_counts_begin { take (vec_len part_counts.old) part_counts.new.items ≡ part_counts.old.items }
    ensures name_lengths { OnOk result (AreCosts (named_at shapes.now) (own_name_bytes_of shapes.now) (length shapes.now) name_lengths.new.items) }
    ensures name_lengths_len { OnOk result (vec_len name_lengths.new ≡ length shapes.now) }
    ensures name_lengths_begin { take (vec_len name_lengths.old) name_lengths.new.items ≡ name_lengths.old.items }
    ensures refused { IfErr result (Explains L.model shapes.now) }
{
    let sealed = heights.len();
    fill_heights(alloc, &Before { alloc, shapes }, heights)?;
    let parts = InlineParts { alloc, shapes };
    fill_costs(alloc, &parts, inline_heights, part_counts)?;
    let names = Names { alloc, shapes };
    fill_costs(alloc, &names, heights, name_lengths)?;
    let found = first_too_large::<L>(
        shapes,
        sealed,
        inline_heights,
        part_counts,
        name_lengths,
        heights,
    );
    refuse::<L>(shapes, SealCause::TooLarge, found)
}
