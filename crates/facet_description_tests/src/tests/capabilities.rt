use super::push;
use facet_base::{Characteristic, ShapeId, Text};
use facet_caps::{TypeOpsDirect, VTableDirect};
use facet_leaf::Scalar;
use facet_registry::{
    Shapes, all, all_default, all_hash, all_ord, all_partial_eq, all_partial_ord, any, none,
};
use facet_shape::ShapeBuilder;
use std::alloc::{AllocError, Global};
use std::test::Fail;

// What is offered and asked of the shapes of the unit, of `u32` and of the two, and under an id without a shape.
fn offers(shapes: &Shapes<Scalar>) -> [bool; 9] {
    let display = Characteristic::Display;
    let both = [ShapeId(0), ShapeId(6)];
    let both = both.as_slice();
    let unit = [ShapeId(0)];
    let unit = unit.as_slice();
    [
        shapes.offers(ShapeId(0), display),
        shapes.offers(ShapeId(6), display),
        shapes.offers(ShapeId(16), display),
        all(shapes, Characteristic::Debug, both),
        all(shapes, display, both),
        any(shapes, display, both),
        any(shapes, display, unit),
        none(shapes, display, both),
        none(shapes, display, unit),
    ]
}

// The five questions over lists, in the order of their names.
fn questions(shapes: &Shapes<Scalar>, ids: &[ShapeId]) -> [bool; 5] {
    [
        all_default(shapes, ids),
        all_hash(shapes, ids),
        all_ord(shapes, ids),
        all_partial_eq(shapes, ids),
        all_partial_ord(shapes, ids),
    ]
}

// What is offered by the scalars, and the five questions of none of them and of `String` and `u32`.
fn scalar_questions(alloc: Global) -> Result<([bool; 9], [bool; 5], [bool; 5]), AllocError> {
    let shapes: Shapes<Scalar> = Shapes::prelude(alloc)?;
    let of_none = questions(&shapes, [].as_slice());
    let of_two = questions(&shapes, [ShapeId(3), ShapeId(6)].as_slice());
    Ok((offers(&shapes), of_none, of_two))
}

#[test]
fn what_values_can_do_is_asked_of_a_shape_and_of_lists(rt: HostRuntime) -> Result<(), Fail> {
    let offered = [false, true, false, true, false, true, false, false, true];
    let expected = (offered, [true; 5], [true; 5]);
    assert!(rt; scalar_questions(rt.alloc())? == expected);
    Ok(())
}

// A draft that says that its values can do what the question at an index asks, and nothing else.
fn able_draft(alloc: Global, identifier: Text, index: usize) -> ShapeBuilder {
    let vtable = VTableDirect {
        hash: index == 1,
        cmp: index == 2,
        partial_eq: index == 3,
        partial_cmp: index == 4,
        ..VTableDirect::empty()
    };
    let operations = TypeOpsDirect {
        drop_in_place: false,
        default_in_place: index == 0,
        clone_into: false,
        is_truthy: false,
    };
    ShapeBuilder::for_unsized(alloc, identifier)
        .vtable_direct(vtable)
        .type_ops_direct(operations)
}

// The five questions of `u32` and that draft.
fn draft_questions(alloc: Global, index: usize) -> Result<Option<[bool; 5]>, AllocError> {
    let identifier = Text::new(alloc, "T")?;
    let mut shapes: Shapes<Scalar> = Shapes::prelude(alloc)?;
    match push(&mut shapes, able_draft(alloc, identifier, index)) {
        Some(id) => Ok(Some(questions(&shapes, [ShapeId(6), ShapeId(id)].as_slice()))),
        None => Ok(None),
    }
}

#[test]
fn each_question_over_a_list_reads_its_own_member(rt: HostRuntime) -> Result<(), Fail> {
    for index in 0..5 {
        let mut expected = [false; 5];
        expected[index] = true;
        assert!(rt; draft_questions(rt.alloc(), index)? == Some(expected));
    }
    Ok(())
}
