ghost use Rattle.std.specs.Prelude.{◌≡◌, ◌<◌, ◌≤◌, ◌+◌, ◌++◌, ◌∷◌, [], None, Some};
ghost use Rattle.facet_block.specs.Block.{item_at, item_kind_at, with_item};
ghost use Rattle.facet_block.specs.declared.block.Item.{Leaf, Sequence};
ghost use Rattle.facet_block.specs.declared.block.ItemKind.{ItemKind};

use facet_block::{Block, DropLog, PtrMut, Seq};

/// Moves the leaf at an offset of a block to the end of the log.
pub(crate) fn drop_leaf<L: Drop>(block: &mut Block<L>, at: usize, log: &mut DropLog<L>)
    requires leaf { item_kind_at block.old at ≡ ItemKind.Leaf }
    requires room { 0 < log.old.spare }
    ensures logs { (leaf : L) → item_at block.old at ≡ Some (Leaf leaf) → log.new.leaves ≡ log.old.leaves ++ leaf ∷ [] }
    ensures spare { log.old.spare ≤ log.new.spare + 1 }
    ensures empties { block.new ≡ with_item block.old at None }
{
    PtrMut::new(block, at).drop_in_place(log);
}

/// Takes the tag at an offset out of a block.
pub(crate) fn drop_tag<L: Drop>(block: &mut Block<L>, at: usize)
    requires { item_kind_at block.old at ≡ ItemKind.Tag }
    ensures { block.new ≡ with_item block.old at None }
{
    PtrMut::new(block, at).take_tag();
}

/// Takes the sequence at an offset out of a block.
pub(crate) fn take_blocks<L: Drop>(block: &mut Block<L>, at: usize) -> Seq<L>
    requires { item_kind_at block.old at ≡ ItemKind.Sequence }
    ensures value { item_at block.old at ≡ Some (Sequence result) }
    ensures empties { block.new ≡ with_item block.old at None }
{
    PtrMut::new(block, at).take_seq()
}
