use facet_base::ShapeId;
use facet_block::PtrConst;

/// A place in a block that is borrowed for reading, and the shape by which it is read.
#[derive_where(Clone, Copy)]
pub struct Place<'a, L> {
    pub shape: ShapeId,
    pub at: PtrConst<'a, L>,
}
