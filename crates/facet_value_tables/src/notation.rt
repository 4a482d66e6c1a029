//! Blocks as words: `{ SIZE OFFSET ITEM .. }`, where an item is `KIND:TEXT` (the leaf that the text is), `tag:NUMBER`,
//! or a sequence `[ SIZE BLOCK .. | BLOCK .. ]`, with the spare blocks behind the bar.

use crate::words::Words;
use facet_base::Characteristic;
use facet_block::{Block, Item, ItemKind, PtrUninit, Seq};
use facet_leaf::Leaf;
use facet_words::{read_kind, read_number};
use std::alloc::{AllocError, Global};

/// How many levels of sequences a block has at most, here and where it is written.
pub const LEVELS: u32 = 110;

/// The block that the next words are, and none where they are no block.
#[cycle(reading)]
pub fn read_block<L: Leaf>(
    alloc: Global,
    words: &mut Words,
    levels: u32,
) -> Result<Option<Block<L>>, AllocError> {
    if levels == 0 || !words.takes("{") {
        return Ok(None);
    }
    let Some(size) = words.number() else {
        return Ok(None);
    };
    let mut block = Block::new(alloc, size)?;
    for _ in 0..u32::MAX {
        if words.takes("}") {
            return Ok(Some(block));
        }
        let Some(at) = words.number() else {
            return Ok(None);
        };
        let Some(item) = read_item(alloc, words, levels - 1)? else {
            return Ok(None);
        };
        if !put_item(&mut block, at, item) {
            return Ok(None);
        }
    }
    Ok(None)
}

// Puts an item at an offset. False where the offset is outside the block, or an item lies there.
fn put_item<L: Leaf>(block: &mut Block<L>, at: usize, item: Item<L>) -> bool {
    if at >= block.size() || block.item_at(at) != ItemKind::Nothing {
        return false;
    }
    let place = PtrUninit::new(block, at);
    match item {
        Item::Leaf(leaf) => {
            place.put(leaf);
        }
        Item::Tag(tag) => {
            place.put_tag(tag);
        }
        Item::Sequence(blocks) => {
            place.put_seq(blocks);
        }
    }
    true
}

// The item that the next words are.
#[cycle(reading)]
fn read_item<L: Leaf>(
    alloc: Global,
    words: &mut Words,
    levels: u32,
) -> Result<Option<Item<L>>, AllocError> {
    if words.takes("[") {
        return match read_blocks(alloc, words, levels)? {
            Some(blocks) => Ok(Some(Item::Sequence(blocks))),
            None => Ok(None),
        };
    }
    let Some(word) = words.take() else {
        return Ok(None);
    };
    match word.split_once(':') {
        Some(("tag", number)) => match read_number(number) {
            Some(tag) => Ok(Some(Item::Tag(tag))),
            None => Ok(None),
        },
        Some((kind, text)) => read_leaf(alloc, kind, text),
        None => Ok(None),
    }
}

// The leaf of a kind that a text is.
fn read_leaf<L: Leaf>(
    alloc: Global,
    kind: &str,
    text: &str,
) -> Result<Option<Item<L>>, AllocError> {
    let Some(kind) = read_kind(kind) else {
        return Ok(None);
    };
    if !L::can(kind, Characteristic::FromStr) {
        return Ok(None);
    }
    match L::parse(alloc, kind, text)? {
        Ok(leaf) => Ok(Some(Item::Leaf(leaf))),
        Err(_) => Ok(None),
    }
}

// The sequence that the words behind its bracket are.
#[cycle(reading)]
fn read_blocks<L: Leaf>(
    alloc: Global,
    words: &mut Words,
    levels: u32,
) -> Result<Option<Seq<L>>, AllocError> {
    let Some(size) = words.number() else {
        return Ok(None);
    };
    let mut blocks = Seq::new(alloc, size);
    let mut filled = None;
    for _ in 0..u32::MAX {
        if words.takes("]") {
            let len = filled.unwrap_or(blocks.spare());
            fill(&mut blocks, len);
            return Ok(Some(blocks));
        }
        if words.takes("|") {
            filled = Some(blocks.spare());
            continue;
        }
        match read_block(alloc, words, levels)? {
            Some(block) => add_block(&mut blocks, block)?,
            None => return Ok(None),
        }
    }
    Ok(None)
}

// Makes the first spare blocks the filled ones.
fn fill<L: Leaf>(blocks: &mut Seq<L>, len: usize) {
    if blocks.len() == 0 && len <= blocks.spare() {
        blocks.set_len(len);
    }
}

// Adds a spare block behind the others.
fn add_block<L: Leaf>(blocks: &mut Seq<L>, block: Block<L>) -> Result<(), AllocError> {
    let index = blocks.spare();
    blocks.reserve(index.saturating_add(1))?;
    if index < blocks.spare() {
        let slot = blocks.slot_mut(index);
        *slot = block;
    }
    Ok(())
}
