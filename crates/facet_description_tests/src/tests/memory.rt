use facet_base::{Layout, ShapeLayout, Text};
use facet_block::Block;
use facet_shape::{AllocateError, Shape};
use std::alloc::{AllocError, Global};
use std::test::Fail;

// Why there is no block, or no shape.
#[derive(Clone, Copy, PartialEq, Eq, Debug)]
enum Refusal {
    Unbuilt,
    Unsized,
    NoMemory,
}

// The size of the block that a shape allocates.
fn allocated_size(alloc: Global, shape: &Shape) -> Result<usize, Refusal> {
    let allocated: Result<Block<u32>, AllocateError> = shape.allocate(alloc);
    match allocated {
        Ok(block) => Ok(block.size()),
        Err(AllocateError::Unsized) => Err(Refusal::Unsized),
        Err(AllocateError::NoMemory) => Err(Refusal::NoMemory),
    }
}

// Whether a shape frees an empty block.
fn is_freed(shape: &Shape, block: Block<u32>) -> bool {
    let size = block.size();
    block.is_empty_in(0, size) && shape.deallocate(block).is_ok()
}

// The size of the block that a shape of this layout allocates, and whether it frees a block.
fn allocated_and_freed(
    alloc: Global,
    layout: ShapeLayout,
) -> Result<(Result<usize, Refusal>, bool), AllocError> {
    let identifier = Text::new(alloc, "T")?;
    let block = Block::new(alloc, 24)?;
    let builder = Shape::builder_for_unsized(alloc, identifier);
    match builder.layout(layout).build() {
        Ok(shape) => Ok((allocated_size(alloc, &shape), is_freed(&shape, block))),
        Err(_) => Ok((Err(Refusal::Unbuilt), false)),
    }
}

#[test]
fn blocks_are_allocated_and_freed_for_sized_shapes_alone(rt: HostRuntime) -> Result<(), Fail> {
    for (size, align) in [(0, 1), (24, 8)] {
        let layout = ShapeLayout::Sized(Layout { size, align });
        assert!(rt; allocated_and_freed(rt.alloc(), layout)? == (Ok(size), true));
    }
    let refused = (Err(Refusal::Unsized), false);
    assert!(rt; allocated_and_freed(rt.alloc(), ShapeLayout::Unsized)? == refused);
    Ok(())
}
