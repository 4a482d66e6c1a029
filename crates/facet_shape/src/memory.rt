ghost use Rattle.std.specs.Prelude.{◌≡◌, ◌↔◌, Some, IfOk, IsErr, IsErrOf, option_map};
ghost use Rattle.facet_block.specs.Block.{empty_block, size_of};
ghost use Rattle.facet_block.specs.Span.{span, IsEmptyIn};
ghost use Rattle.facet_base.specs.ShapeLayout.{size_in_bytes};

use crate::errors::AllocateError;
use crate::shape::Shape;
use facet_base::{ShapeLayout, UnsizedError};
use facet_block::{Block, alloc_for_layout, dealloc_for_layout};
use std::alloc::Global;

impl Shape {
    /// A block for one value, of the shape's size and with no item.
    pub fn allocate<L: Drop>(&self, alloc: Global) -> Result<Block<L>, AllocateError>
        ensures block { IfOk result (λ block. option_map empty_block (size_in_bytes self.now.layout) ≡ Some block) }
        ensures without_size { IsErrOf result AllocateError.Unsized ↔ (self.now.layout ≡ ShapeLayout.Unsized) }
    {
        let ShapeLayout::Sized(layout) = self.layout else {
            return Err(AllocateError::Unsized);
        };
        alloc_for_layout(alloc, layout).map_err(|_| AllocateError::NoMemory)
    }

    /// Frees a block with no item. Err comes exactly for an unsized shape, and the block is freed then too.
    pub fn deallocate<L: Drop>(&self, block: Block<L>) -> Result<(), UnsizedError>
        requires { IsEmptyIn block (span 0 (size_of block)) }
        ensures { IsErr result ↔ (self.now.layout ≡ ShapeLayout.Unsized) }
    {
        dealloc_for_layout(block);
        self.layout.sized_layout()?;
        Ok(())
    }
}
