ghost use Rattle.std.specs.Prelude.{◌≡◌, ◌⊎◌, ◌+◌, ◌<◌, ◌≤◌, length, option_map, slice_get};
ghost use Rattle.facet_block.specs.Block.{size_of};
ghost use Rattle.facet_block.specs.Seq.{filled_of};
ghost use Rattle.facet_outline.specs.declared.value_kind.ValueKind.TheVariants as ValueKind;
ghost use Rattle.facet_registry.specs.Offsets.{part_offset_at};
ghost use Rattle.facet_registry.specs.Registry.{kind_at};
ghost use Rattle.facet_values.specs.Place.{place_in, start_of};

use facet_base::ShapeId;
use facet_block::{PtrConst, Seq};
use facet_leaf::Leaf;
use facet_registry::Shapes;

/// The start of block `i` of a sequence, and None exactly at or above the number of filled blocks.
pub fn start_in<L>(blocks: &Seq<L>, i: usize) -> Option<PtrConst<'_, L>>
    ensures { option_map (λ q. place_in 0 q.block.now q.offset) result ≡ option_map (start_of 0) (slice_get (filled_of blocks.now) i) }
{
    match blocks.get(i) {
        Some(block) => Some(PtrConst::new(block, 0)),
        None => None,
    }
}

/// Where the part of an option or a result lies behind the tag. Requires that it begins in the block, or at its end.
pub(crate) fn behind_tag<'a, L: Leaf>(
    shapes: &Shapes<L>,
    s: ShapeId,
    p: PtrConst<'a, L>,
) -> PtrConst<'a, L>
    requires sealed { s.0 < length shapes.now.sealed }
    requires kind { (kind_at shapes.now.sealed s.0 ≡ ValueKind.Option) ⊎ (kind_at shapes.now.sealed s.0 ≡ ValueKind.Result) }
    requires inside { p.offset + part_offset_at shapes.now.sealed s.0 ≤ size_of p.block.now }
    ensures block { result.block.now ≡ p.entry.block.now }
    ensures offset { result.offset ≡ p.entry.offset + part_offset_at shapes.now.sealed s.0 }
{
    p.field(shapes.part_offset(s))
}
