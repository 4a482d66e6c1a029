use crate::{
    fill_and_read, fill_nested, is_slot_empty, move_range, put_further, retag_deep, size_behind,
    take_further,
};
use facet_block::{Block, ItemKind, PtrConst, PtrUninit, Seq};
use std::test::Fail;

#[test]
fn a_nested_struct_is_filled_and_its_leaf_is_moved(rt: HostRuntime) -> Result<(), Fail> {
    let mut source: Block<u32> = Block::new(rt.alloc(), 16)?;
    let mut target: Block<u32> = Block::new(rt.alloc(), 8)?;
    fill_nested(&mut source, 2, 7, 1);
    assert_eq!(rt; source.item_at(6), ItemKind::Leaf);
    assert_eq!(rt; source.item_at(10), ItemKind::Tag);
    assert_eq!(rt; source.item_at(14), ItemKind::Tag);
    move_range(&mut target, 1, &mut source, 4, 4);
    assert!(rt; source.is_empty_in(0, 10));
    assert_eq!(rt; take_further(&mut target, 1, 2), (3, 7));
    assert_eq!(rt; put_further(&mut target, 1, 2, 9), 3);
    assert_eq!(rt; fill_and_read(&mut source, 0, 5, 6), (5, 6));
    assert_eq!(rt; size_behind(PtrConst::new(&target, 3)), 5);
    Ok(())
}

// Puts a tag at the start of the block, where it is empty.
fn tag_start(block: &mut Block<u32>, tag: u32) {
    if block.size() > 0 && block.item_at(0) == ItemKind::Nothing {
        PtrUninit::new(block, 0).put_tag(tag);
    }
}

// The tag at the start of the block, and 0 where there is none.
fn start_tag(block: &Block<u32>) -> u32 {
    if block.item_at(0) == ItemKind::Tag {
        PtrConst::new(block, 0).tag()
    } else {
        0
    }
}

// The tag at the start of the only block of the sequence at the start of the block, and 0 where there is none.
fn inner_tag(block: &Block<u32>) -> u32 {
    if block.item_at(0) != ItemKind::Sequence {
        return 0;
    }
    match PtrConst::new(block, 0).seq().get(0) {
        Some(inner) => start_tag(inner),
        None => 0,
    }
}

#[test]
fn a_tag_in_a_nested_block_is_exchanged(rt: HostRuntime) -> Result<(), Fail> {
    let mut sequence: Seq<u32> = Seq::new(rt.alloc(), 1);
    sequence.reserve(1)?;
    if sequence.spare() > 0 {
        assert!(rt; is_slot_empty(&sequence, 0));
        tag_start(sequence.slot_mut(0), 5);
        assert!(rt; !is_slot_empty(&sequence, 0));
        sequence.set_len(1);
    }
    let mut block = Block::new(rt.alloc(), 1)?;
    PtrUninit::new(&mut block, 0).put_seq(sequence);
    assert_eq!(rt; inner_tag(&block), 5);
    retag_deep(&mut block, 1, 6);
    assert_eq!(rt; inner_tag(&block), 5);
    retag_deep(&mut block, 2, 6);
    assert_eq!(rt; inner_tag(&block), 6);
    Ok(())
}
