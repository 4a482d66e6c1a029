ghost use Rattle.std.specs.Prelude.{◌≡◌, Some, map};
ghost use Rattle.facet_block.specs.Block.{item_at, item_kind_at, with_item};
ghost use Rattle.facet_block.specs.Seq.{filled_of, with_filled};
ghost use Rattle.facet_block.specs.declared.block.Item.{Sequence};
ghost use Rattle.facet_block.specs.declared.block.ItemKind.{ItemKind};
ghost use Rattle.facet_block.specs.declared.block.Seq.{Seq};
ghost use Rattle.facet_block_callers.specs.Retagged.{with_tag, with_tags, AreTagged, retagged};

use facet_block::{Block, ItemKind, PtrMut, PtrUninit, Seq};

/// Puts another tag at the offset.
#[tactic(auto, using(facet_block::proofs::ItemChanges::with_item_twice))]
pub fn retag<L: Drop>(block: &mut Block<L>, at: usize, tag: u32)
    requires { item_kind_at block.old at ≡ ItemKind.Tag }
    ensures { block.new ≡ with_tag at tag block.old }
{
    PtrMut::new(block, at).take_tag();
    PtrUninit::new(block, at).put_tag(tag);
}

/// Puts another tag at the offset of each filled block.
pub fn retag_each<L: Drop>(sequence: &mut Seq<L>, at: usize, tag: u32)
    requires { AreTagged at sequence.old }
    ensures { sequence.new ≡ with_tags at tag sequence.old }
{
    for i in 0..sequence.len() {
        if let Some(block) = sequence.get_mut(i) {
            retag(block, at, tag);
        }
    }
}

/// Puts another tag at the offset of each filled block of the sequence at another offset of a block.
pub fn retag_below<L: Drop>(block: &mut Block<L>, sequence_at: usize, at: usize, tag: u32)
    requires sequence { item_kind_at block.old sequence_at ≡ ItemKind.Sequence }
    requires tagged { (s : Seq L) → item_at block.old sequence_at ≡ Some (Sequence s) → AreTagged at s }
    ensures { (s : Seq L) → item_at block.old sequence_at ≡ Some (Sequence s)
        → block.new ≡ with_item block.old sequence_at (Some (Sequence (with_tags at tag s))) }
{
    let mut place = PtrMut::new(block, sequence_at);
    retag_each(place.seq_mut(), at, tag);
}

/// Puts another tag at the start of the block, or of each block that its first sequence leads to, at most `levels`
/// levels down.
#[cycle(deep)]
pub fn retag_deep<L: Drop>(block: &mut Block<L>, levels: usize, tag: u32)
    ensures { block.new ≡ retagged levels tag block.old }
{
    if levels == 0 {
        return;
    }
    match block.item_at(0) {
        ItemKind::Tag => retag(block, 0, tag),
        ItemKind::Sequence => retag_deep_each(PtrMut::new(block, 0).into_seq(), levels - 1, tag),
        ItemKind::Nothing | ItemKind::Leaf => {}
    }
}

// Does the same in each filled block.
#[cycle(deep)]
fn retag_deep_each<L: Drop>(sequence: &mut Seq<L>, levels: usize, tag: u32)
    ensures { sequence.new ≡ with_filled sequence.old (map (retagged levels tag) (filled_of sequence.old)) }
{
    for i in 0..sequence.len() {
        if let Some(block) = sequence.get_mut(i) {
            retag_deep(block, levels, tag);
        }
    }
}
