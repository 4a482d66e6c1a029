ghost use Rattle.std.specs.Prelude.{◌≡◌};
ghost use Rattle.std.specs.Option.{option_copied};
ghost use Rattle.facet_block.specs.Block.{item_at, leaf_of, sequence_of, tag_of};

use facet_block::{ItemKind, PtrConst, Seq};

/// The leaf at a place, where there is one.
pub(crate) fn leaf_at<'a, L>(at: PtrConst<'a, L>) -> Option<&'a L>
    ensures { option_copied result ≡ leaf_of (item_at at.entry.block.now at.entry.offset) }
{
    match at.block.item_at(at.offset) {
        ItemKind::Leaf => Some(at.get()),
        ItemKind::Nothing | ItemKind::Tag | ItemKind::Sequence => None,
    }
}

/// The tag at a place, where there is one.
pub(crate) fn tag_at<L>(at: PtrConst<L>) -> Option<u32>
    ensures { result ≡ tag_of (item_at at.entry.block.now at.entry.offset) }
{
    match at.block.item_at(at.offset) {
        ItemKind::Tag => Some(at.tag()),
        ItemKind::Nothing | ItemKind::Leaf | ItemKind::Sequence => None,
    }
}

/// The sequence at a place, where there is one.
pub(crate) fn sequence_at<'a, L>(at: PtrConst<'a, L>) -> Option<&'a Seq<L>>
    ensures { option_copied result ≡ sequence_of (item_at at.entry.block.now at.entry.offset) }
{
    match at.block.item_at(at.offset) {
        ItemKind::Sequence => Some(at.seq()),
        ItemKind::Nothing | ItemKind::Leaf | ItemKind::Tag => None,
    }
}
