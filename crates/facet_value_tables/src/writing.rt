use facet_base::Write;
use facet_block::{Block, ItemKind, PtrConst, Seq};
use facet_leaf::Leaf;
use std::alloc::{AllocError, Global};

/// Writes a block in the notation, with the debug text of each leaf and without the bar where there are no spare blocks.
#[cycle(writing)]
pub fn write_block<L: Leaf>(
    alloc: Global,
    block: &Block<L>,
    out: &mut Vec<u8>,
    levels: u32,
) -> Result<(), AllocError> {
    out.write(b"{ ")?;
    write_number(alloc, block.size(), out)?;
    for at in 0..block.size() {
        if block.item_at(at) == ItemKind::Nothing {
            continue;
        }
        out.write(b" ")?;
        write_number(alloc, at, out)?;
        out.write(b" ")?;
        write_item(alloc, block, at, out, levels)?;
    }
    out.write(b" }")
}

/// Writes what lies at an offset in the notation, and `-` for nothing.
#[cycle(writing)]
pub fn write_item<L: Leaf>(
    alloc: Global,
    block: &Block<L>,
    at: usize,
    out: &mut Vec<u8>,
    levels: u32,
) -> Result<(), AllocError> {
    if at >= block.size() {
        return out.write(b"-");
    }
    let place = PtrConst::new(block, at);
    match block.item_at(at) {
        ItemKind::Nothing => out.write(b"-"),
        ItemKind::Leaf => place.get().write_debug(out),
        ItemKind::Tag => {
            out.write(b"tag:")?;
            write_number(alloc, place.tag() as usize, out)
        }
        ItemKind::Sequence if levels == 0 => out.write(b".."),
        ItemKind::Sequence => write_sequence(alloc, place.seq(), out, levels - 1),
    }
}

// Writes a sequence in the notation.
#[cycle(writing)]
fn write_sequence<L: Leaf>(
    alloc: Global,
    blocks: &Seq<L>,
    out: &mut Vec<u8>,
    levels: u32,
) -> Result<(), AllocError> {
    out.write(b"[ ")?;
    write_number(alloc, blocks.elem_size(), out)?;
    for i in 0..blocks.len() {
        if let Some(block) = blocks.get(i) {
            out.write(b" ")?;
            write_block(alloc, block, out, levels)?;
        }
    }
    if blocks.spare() > 0 {
        out.write(b" |")?;
        write_spare(alloc, blocks, out, levels)?;
    }
    out.write(b" ]")
}

// Writes the spare blocks of a sequence.
#[cycle(writing)]
fn write_spare<L: Leaf>(
    alloc: Global,
    blocks: &Seq<L>,
    out: &mut Vec<u8>,
    levels: u32,
) -> Result<(), AllocError> {
    for j in 0..blocks.spare() {
        out.write(b" ")?;
        write_block(alloc, blocks.slot(j), out, levels)?;
    }
    Ok(())
}

/// Writes a number in decimal digits.
pub fn write_number(alloc: Global, number: usize, out: &mut Vec<u8>) -> Result<(), AllocError> {
    let digits = format!(in alloc; "{number}")?;
    out.write(digits.as_bytes())
}

/// Writes the debug texts of leaves between brackets, separated by a comma and a space.
pub fn write_log<L: Leaf>(leaves: &[L], out: &mut Vec<u8>) -> Result<(), AllocError> {
    out.write(b"[")?;
    let mut is_first = true;
    for leaf in leaves {
        if !is_first {
            out.write(b", ")?;
        }
        is_first = false;
        leaf.write_debug(out)?;
    }
    out.write(b"]")
}
