ghost use Rattle.std.specs.Prelude.{◌≡◌, ◌+◌, ◌<◌, ◌≤◌, Some, None};
ghost use Rattle.facet_block.specs.Block.{item_at, moved_in, moved_out, size_of, with_item};
ghost use Rattle.facet_block.specs.PtrUninit.{place_of};
ghost use Rattle.facet_block.specs.Span.{IsVacant, span};
ghost use Rattle.facet_block.specs.declared.block.Item.{Sequence, Tag};

use facet_block::{Block, PtrMut, PtrUninit, Seq};

/// Puts a tag at an empty place, which stays a place to be filled.
pub fn put_tag<L: Drop>(dst: &mut PtrUninit<'_, L>, tag: u32)
    requires below { (place_of dst.old).offset < size_of (place_of dst.old).block.now }
    requires empty { item_at (place_of dst.old).block.now (place_of dst.old).offset ≡ None }
    ensures same_reference { (place_of dst.new).block.ghost_name ≡ (place_of dst.old).block.ghost_name }
    ensures same_offset { (place_of dst.new).offset ≡ (place_of dst.old).offset }
    ensures block { (place_of dst.new).block.now ≡ with_item (place_of dst.old).block.now (place_of dst.old).offset (Some (Tag tag)) }
{
    dst.put_tag_at(0, tag);
}

/// Puts a sequence at an empty place, which stays a place to be filled.
pub fn put_sequence<L: Drop>(dst: &mut PtrUninit<'_, L>, blocks: Seq<L>)
    requires below { (place_of dst.old).offset < size_of (place_of dst.old).block.now }
    requires empty { item_at (place_of dst.old).block.now (place_of dst.old).offset ≡ None }
    ensures same_reference { (place_of dst.new).block.ghost_name ≡ (place_of dst.old).block.ghost_name }
    ensures same_offset { (place_of dst.new).offset ≡ (place_of dst.old).offset }
    ensures block { (place_of dst.new).block.now ≡ with_item (place_of dst.old).block.now (place_of dst.old).offset (Some (Sequence blocks)) }
{
    dst.put_seq_at(0, blocks);
}

/// Moves what lies in so many bytes at a place to an empty range, which stays a place to be filled. The bytes at the
/// source are empty afterwards.
pub fn move_to<L: Drop>(dst: &mut PtrUninit<'_, L>, value: PtrMut<'_, L>, size: usize)
    requires vacant { IsVacant (place_of dst.old).block.now (span (place_of dst.old).offset size) }
    requires source_inside { value.offset + size ≤ size_of value.block.now }
    ensures same_reference { (place_of dst.new).block.ghost_name ≡ (place_of dst.old).block.ghost_name }
    ensures same_offset { (place_of dst.new).offset ≡ (place_of dst.old).offset }
    ensures block { (place_of dst.new).block.now ≡ moved_in (place_of dst.old).block.now (place_of dst.old).offset value.entry.block.now value.entry.offset size }
    ensures source { value.exit.0.now ≡ moved_out value.entry.block.now value.entry.offset size }
{
    match dst {
        PtrUninit::At(place) => move_to_place(place, value, size),
        PtrUninit::Not(never) => match *never {},
    }
}

fn move_to_place<L: Drop>(place: &mut PtrMut<'_, L>, value: PtrMut<'_, L>, size: usize)
    requires vacant { IsVacant place.old.block.now (span place.old.offset size) }
    requires source_inside { value.offset + size ≤ size_of value.block.now }
    ensures same_reference { place.new.block.ghost_name ≡ place.old.block.ghost_name }
    ensures same_offset { place.new.offset ≡ place.old.offset }
    ensures block { place.new.block.now ≡ moved_in place.old.block.now place.old.offset value.entry.block.now value.entry.offset size }
    ensures source { value.exit.0.now ≡ moved_out value.entry.block.now value.entry.offset size }
{
    let at = place.offset;
    move_into(place.block, at, value, size);
}

// Moves what lies in so many bytes at a place to an offset, where nothing lies.
fn move_into<L: Drop>(block: &mut Block<L>, at: usize, value: PtrMut<'_, L>, size: usize)
    requires vacant { IsVacant block.old (span at size) }
    requires source_inside { value.offset + size ≤ size_of value.block.now }
    ensures block { block.new ≡ moved_in block.old at value.entry.block.now value.entry.offset size }
    ensures source { value.exit.0.now ≡ moved_out value.entry.block.now value.entry.offset size }
{
    PtrUninit::new(block, at).move_from(value, size);
}

/// Puts a tag at an empty place, and moves so many bytes from a place to an offset behind it, where nothing lies.
pub(crate) fn put_tag_and_move<L: Drop>(
    dst: &mut PtrUninit<'_, L>,
    tag: u32,
    offset: usize,
    value: PtrMut<'_, L>,
    size: usize,
)
    requires below { (place_of dst.old).offset < size_of (place_of dst.old).block.now }
    requires empty { item_at (place_of dst.old).block.now (place_of dst.old).offset ≡ None }
    requires vacant { IsVacant (with_item (place_of dst.old).block.now (place_of dst.old).offset (Some (Tag tag))) (span ((place_of dst.old).offset + offset) size) }
    requires source_inside { value.offset + size ≤ size_of value.block.now }
    ensures same_reference { (place_of dst.new).block.ghost_name ≡ (place_of dst.old).block.ghost_name }
    ensures same_offset { (place_of dst.new).offset ≡ (place_of dst.old).offset }
    ensures block { (place_of dst.new).block.now ≡ moved_in (with_item (place_of dst.old).block.now (place_of dst.old).offset (Some (Tag tag)))
        ((place_of dst.old).offset + offset) value.entry.block.now value.entry.offset size }
    ensures source { value.exit.0.now ≡ moved_out value.entry.block.now value.entry.offset size }
{
    put_tag(dst, tag);
    match dst {
        PtrUninit::At(place) => move_behind(place, offset, value, size),
        PtrUninit::Not(never) => match *never {},
    }
}

// Moves what lies in so many bytes at a place to an offset behind another, where nothing lies.
fn move_behind<L: Drop>(place: &mut PtrMut<'_, L>, offset: usize, value: PtrMut<'_, L>, size: usize)
    requires vacant { IsVacant place.old.block.now (span (place.old.offset + offset) size) }
    requires source_inside { value.offset + size ≤ size_of value.block.now }
    ensures same_reference { place.new.block.ghost_name ≡ place.old.block.ghost_name }
    ensures same_offset { place.new.offset ≡ place.old.offset }
    ensures block { place.new.block.now ≡ moved_in place.old.block.now (place.old.offset + offset) value.entry.block.now value.entry.offset size }
    ensures source { value.exit.0.now ≡ moved_out value.entry.block.now value.entry.offset size }
{
    // proof: the block's size is a usize, so the sum below can't overflow
    let _size = place.block.size();
    let at = place.offset + offset;
    move_into(place.block, at, value, size);
}
