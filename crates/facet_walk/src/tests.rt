use crate::see;
use facet_base::ShapeId;
use facet_block::{Block, PtrConst, PtrUninit, Scalar};
use facet_leaf::Leaf;
use facet_registry::Shapes;
use std::test::Fail;

// Whether something is seen of a sealed shape at a place.
fn is_seen<L: Leaf>(shapes: &Shapes<L>, id: ShapeId, at: PtrConst<L>) -> bool {
    if id.0 as usize >= shapes.sealed() {
        return false;
    }
    see(shapes, id, at).is_some()
}

#[test]
fn a_leaf_is_seen_where_it_lies_and_the_unit_everywhere(rt: HostRuntime) -> Result<(), Fail> {
    let shapes: Shapes<Scalar> = Shapes::prelude(rt.alloc())?;
    let mut block: Block<Scalar> = Block::new(rt.alloc(), 8)?;
    assert!(rt; is_seen(&shapes, ShapeId(0), PtrConst::new(&block, 0)));
    assert!(rt; !is_seen(&shapes, ShapeId(1), PtrConst::new(&block, 0)));
    PtrUninit::new(&mut block, 0).put(Scalar::Bool(true));
    assert!(rt; is_seen(&shapes, ShapeId(1), PtrConst::new(&block, 0)));
    Ok(())
}
