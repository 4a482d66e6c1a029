use crate::laws::put_and_read;
use crate::{
    Block, DropLog, ItemKind, PtrConst, PtrMut, PtrUninit, Seq, alloc_for_layout,
    dealloc_for_layout,
};
use facet_base::Layout;
use std::test::Fail;

#[test]
fn an_empty_block_takes_a_leaf_at_each_offset(rt: HostRuntime) -> Result<(), Fail> {
    let mut block: Block<u32> = Block::new(rt.alloc(), 4)?;
    assert_eq!(rt; block.size(), 4);
    assert_eq!(rt; put_and_read(&mut block, 3, 7), 7);
    PtrUninit::new(&mut block, 0).put(8);
    assert_eq!(rt; *PtrConst::new(&block, 0).get(), 8);
    assert_eq!(rt; PtrMut::new(&mut block, 0).replace(9), 8);
    let mut place = PtrMut::new(&mut block, 0);
    *place.as_mut() = 10;
    assert_eq!(rt; *place.get(), 10);
    Ok(())
}

#[test]
fn new_blocks_of_each_size_are_empty(rt: HostRuntime) -> Result<(), Fail> {
    for size in [0, 1, 8, 65_536] {
        let block: Block<u32> = Block::new(rt.alloc(), size)?;
        assert_eq!(rt; block.size(), size);
        assert!(rt; block.is_empty_in(0, size));
        assert!(rt; block.is_empty_in(0, usize::MAX));
        assert_eq!(rt; block.item_at(0), ItemKind::Nothing);
        assert_eq!(rt; block.item_at(size), ItemKind::Nothing);
    }
    Ok(())
}

#[test]
fn a_block_of_a_layout_has_its_size_and_is_freed_empty(rt: HostRuntime) -> Result<(), Fail> {
    let layout = Layout { size: 24, align: 8 };
    let block: Block<u32> = alloc_for_layout(rt.alloc(), layout)?;
    assert_eq!(rt; block.size(), 24);
    dealloc_for_layout(block);
    Ok(())
}

// Offset, bytes, and whether nothing lies in them, in a block of 8 bytes with items at 0 and 7.
fn ranges() -> [(usize, usize, bool); 10] {
    [
        (0, 0, true),
        (0, 1, false),
        (1, 6, true),
        (1, 7, false),
        (7, 1, false),
        (8, 0, true),
        (8, 100, true),
        (3, 100, false),
        (7, usize::MAX, false),
        (usize::MAX, usize::MAX, true),
    ]
}

#[test]
fn a_range_is_empty_exactly_where_nothing_lies_in_it(rt: HostRuntime) -> Result<(), Fail> {
    let mut block: Block<u32> = Block::new(rt.alloc(), 8)?;
    PtrUninit::new(&mut block, 0).put(5);
    PtrUninit::new(&mut block, 7).put_tag(1);
    for (off, len, empty) in ranges() {
        assert_eq!(rt; block.is_empty_in(off, len), empty);
    }
    Ok(())
}

#[test]
fn a_move_takes_leaves_tags_and_sequences_at_once(rt: HostRuntime) -> Result<(), Fail> {
    let mut source: Block<u32> = Block::new(rt.alloc(), 6)?;
    let mut target: Block<u32> = Block::new(rt.alloc(), 8)?;
    PtrUninit::new(&mut source, 1).put(5);
    PtrUninit::new(&mut source, 2).put_tag(6);
    PtrUninit::new(&mut source, 4).put_seq(Seq::new(rt.alloc(), 9));
    PtrUninit::new(&mut source, 5).put(7);
    PtrUninit::new(&mut target, 3).move_from(PtrMut::new(&mut source, 1), 4);
    assert!(rt; source.is_empty_in(0, 5));
    assert!(rt; target.is_empty_in(0, 3));
    assert_eq!(rt; *PtrConst::new(&source, 5).get(), 7);
    assert_eq!(rt; *PtrConst::new(&target, 3).get(), 5);
    assert_eq!(rt; PtrConst::new(&target, 3).field(1).tag(), 6);
    assert_eq!(rt; target.item_at(5), ItemKind::Nothing);
    assert_eq!(rt; PtrMut::new(&mut target, 6).seq().elem_size(), 9);
    assert_eq!(rt; PtrMut::new(&mut target, 4).take_tag(), 6);
    assert_eq!(rt; PtrMut::new(&mut target, 6).take_seq().elem_size(), 9);
    assert!(rt; target.is_empty_in(4, 4));
    Ok(())
}

// Puts a leaf at the start of spare block `j`, where there is an empty byte for it; whether it did.
fn fill(sequence: &mut Seq<u32>, j: usize, leaf: u32) -> bool {
    if j >= sequence.spare() {
        return false;
    }
    let block = sequence.slot_mut(j);
    if block.size() == 0 || block.item_at(0) != ItemKind::Nothing {
        return false;
    }
    PtrUninit::new(block, 0).put(leaf);
    true
}

// Makes the first `n` blocks the filled ones, where there are as many; whether it did.
fn set_len(sequence: &mut Seq<u32>, n: usize) -> bool {
    let len = sequence.len();
    if n > len && n - len > sequence.spare() {
        return false;
    }
    sequence.set_len(n);
    true
}

// Whether the filled blocks hold these leaves at their starts, and are no more.
fn holds(sequence: &Seq<u32>, leaves: &[u32]) -> bool {
    for i in 0..leaves.len() {
        if leaf_in(sequence, i) != leaves[i] {
            return false;
        }
    }
    sequence.len() == leaves.len()
}

// The leaf at the start of filled block `i`, and 0 where there is none.
fn leaf_in(sequence: &Seq<u32>, i: usize) -> u32 {
    match sequence.get(i) {
        Some(block) if block.item_at(0) == ItemKind::Leaf => *PtrConst::new(block, 0).get(),
        _ => 0,
    }
}

#[test]
fn a_sequence_is_cut_and_grown_again(rt: HostRuntime) -> Result<(), Fail> {
    let mut sequence = Seq::new(rt.alloc(), 1);
    sequence.reserve(2)?;
    assert_eq!(rt; sequence.spare(), 2);
    assert!(rt; fill(&mut sequence, 0, 5) && fill(&mut sequence, 1, 6));
    assert!(rt; !fill(&mut sequence, 1, 7) && !fill(&mut sequence, 2, 7));
    assert!(rt; set_len(&mut sequence, 2) && !set_len(&mut sequence, 3));
    assert!(rt; holds(&sequence, [5, 6].as_slice()));
    assert!(rt; set_len(&mut sequence, 1) && holds(&sequence, [5].as_slice()));
    assert_eq!(rt; sequence.spare(), 1);
    sequence.reserve(3)?;
    assert_eq!(rt; sequence.spare(), 3);
    assert!(rt; fill(&mut sequence, 2, 8));
    assert!(rt; set_len(&mut sequence, 4) && holds(&sequence, [5, 6, 0, 8].as_slice()));
    assert_eq!(rt; sequence.spare(), 0);
    Ok(())
}

#[test]
fn filled_blocks_are_reordered(rt: HostRuntime) -> Result<(), Fail> {
    let mut sequence = Seq::new(rt.alloc(), 1);
    sequence.reserve(4)?;
    assert!(rt;
        fill(&mut sequence, 0, 5) && fill(&mut sequence, 1, 6) && fill(&mut sequence, 2, 7)
    );
    assert!(rt; set_len(&mut sequence, 3));
    if sequence.len() > 0 {
        sequence.rotate_last_to(0);
    }
    assert!(rt; holds(&sequence, [7, 5, 6].as_slice()));
    if sequence.len() > 2 {
        sequence.swap(0, 2);
    }
    assert!(rt; holds(&sequence, [6, 5, 7].as_slice()));
    assert_eq!(rt; sequence.spare(), 1);
    assert!(rt; sequence.get_mut(3).is_none());
    Ok(())
}

#[test]
fn a_log_keeps_the_dropped_leaves_in_order(rt: HostRuntime) -> Result<(), Fail> {
    let mut block: Block<u32> = Block::new(rt.alloc(), 1)?;
    let mut log: DropLog<u32> = DropLog::new(rt.alloc());
    assert_eq!(rt; log.leaves().len(), 0);
    log.make_room(2)?;
    assert!(rt; log.spare() >= 2);
    log.push(7);
    PtrUninit::new(&mut block, 0).put(8).drop_in_place(&mut log);
    assert_eq!(rt; log.leaves(), [7, 8].as_slice());
    log.clear();
    assert_eq!(rt; log.leaves().len(), 0);
    Ok(())
}
