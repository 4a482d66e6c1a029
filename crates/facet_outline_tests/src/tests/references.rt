use super::{Answer, Definition, Draft, EMPTY, Question, Type, are, ask};
use facet_outline::{push_eager_references, push_height_references, push_references};
use facet_shape::Shape;
use std::alloc::{AllocError, Global};
use std::test::Fail;

pub fn references(alloc: Global, shape: &Shape) -> Result<Answer, AllocError> {
    let mut all = Vec::new(alloc);
    push_references(shape, &mut all)?;
    let mut eager = Vec::new(alloc);
    push_eager_references(shape, &mut eager)?;
    let mut height = Vec::new(alloc);
    push_height_references(shape, &mut height)?;
    Ok(Answer::References([
        are(&all, &[1, 2, 3, 4, 5, 6, 7, 8, 9, 10, 11, 12]),
        are(&eager, &[1, 2, 3, 4, 5, 6, 7, 8, 9, 10]),
        are(&height, &[1, 2, 3, 4, 5, 6, 7, 8, 9]),
    ]))
}

#[test]
fn references_are_eager_unless_they_may_point_forward(rt: HostRuntime) -> Result<(), Fail> {
    let alloc = rt.alloc();
    let draft = Draft {
        ty: Type::Tuple,
        def: Definition::Pointer(None),
        ..EMPTY
    };
    assert!(rt; ask(alloc, draft, Question::References)? == Answer::References([true; 3]));
    Ok(())
}
