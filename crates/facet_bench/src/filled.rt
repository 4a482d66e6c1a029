use facet_block::{Block, ItemKind, PtrUninit, Scalar, Seq};
use std::alloc::{AllocError, Global};

/// The block of a list of so many `u32`, each equal to its index.
pub fn list_block(alloc: Global, len: u32) -> Result<Block<Scalar>, AllocError> {
    let mut blocks = Seq::new(alloc, 4);
    blocks.reserve(len as usize)?;
    for i in 0..len {
        if (i as usize) < blocks.spare() {
            put_number(blocks.slot_mut(i as usize), 0, i);
        }
    }
    let len = blocks.spare();
    blocks.set_len(len);
    let mut block = Block::new(alloc, 24)?;
    if block.size() > 0 && block.item_at(0) == ItemKind::Nothing {
        PtrUninit::new(&mut block, 0).put_seq(blocks);
    }
    Ok(block)
}

/// The block of an array of so many `u32`, each equal to its index.
pub fn array_block(alloc: Global, len: u32) -> Result<Block<Scalar>, AllocError> {
    let mut block = Block::new(alloc, 65_536)?;
    for i in 0..len {
        put_number(&mut block, 4 * i as usize, i);
    }
    Ok(block)
}

// Puts a number at an offset in bytes, where nothing lies.
fn put_number(block: &mut Block<Scalar>, at: usize, number: u32) {
    if at < block.size() && block.item_at(at) == ItemKind::Nothing {
        PtrUninit::new(block, at).put(Scalar::U32(number));
    }
}
