use super::{Answer, Definition, Draft, EMPTY, FourBytes, Question, Type, ask, first_two};
use facet_base::{KnownPointer, ShapeId};
use facet_desc::Ty;
use facet_graph::Span;
use facet_outline::{
    PlacedField, ValueKind, push_body, push_discriminants_of_kind, push_inline_parts, push_parts,
    push_placed_fields, push_spans, tag_bytes,
};
use facet_shape::Shape;
use std::alloc::{AllocError, Global};
use std::test::Fail;

pub fn parts(alloc: Global, shape: &Shape, element: Option<ShapeId>) -> Result<Answer, AllocError> {
    let mut inline = Vec::new(alloc);
    push_inline_parts(shape, element, &mut inline)?;
    let mut parts = Vec::new(alloc);
    push_parts(shape, element, &mut parts)?;
    Ok(Answer::Parts(inline.len(), first_two(&parts)))
}

#[test]
fn parts_lie_inside_structs_and_elsewhere_for_boxes(rt: HostRuntime) -> Result<(), Fail> {
    let alloc = rt.alloc();
    let boxed = (
        Type::Undefined,
        Definition::Pointer(Some(KnownPointer::Box)),
    );
    let without_values = (Type::Undefined, Definition::Pointer(None));
    let fields = (Type::Struct(4), Definition::Undefined);
    let rows = [
        (boxed, None, 0, (1, [3, 0])),
        (boxed, Some(ShapeId(9)), 0, (1, [9, 0])),
        (without_values, None, 0, (0, [0, 0])),
        (fields, None, 2, (2, [6, 5])),
    ];
    for ((ty, def), element, inline, parts) in rows {
        let draft = Draft { ty, def, ..EMPTY };
        assert!(rt; ask(alloc, draft, Question::Parts(element))? == Answer::Parts(inline, parts));
    }
    Ok(())
}

pub fn variants(alloc: Global, ty: &Ty) -> Result<Answer, AllocError> {
    let mut fields = Vec::new(alloc);
    push_placed_fields(ValueKind::Enum, ty, &mut fields)?;
    let mut body: Vec<PlacedField> = Vec::new(alloc);
    push_body(ValueKind::Enum, ty, 1, &mut body)?;
    let offset = last_offset(alloc, ty, &body)?;
    let discriminant = last_discriminant(alloc, ty)?;
    Ok(Answer::Variants(fields.len(), body.len(), offset, discriminant))
}

fn last_offset(alloc: Global, ty: &Ty, body: &[PlacedField]) -> Result<usize, AllocError> {
    let mut spans: Vec<Span> = Vec::new(alloc);
    let tag = tag_bytes(ValueKind::Enum, ty);
    push_spans(&FourBytes, tag, body, &mut spans)?;
    match spans.last() {
        Some(span) => Ok(span.offset),
        None => Ok(0),
    }
}

fn last_discriminant(alloc: Global, ty: &Ty) -> Result<i64, AllocError> {
    let mut discriminants = Vec::new(alloc);
    push_discriminants_of_kind(ValueKind::Enum, ty, &mut discriminants)?;
    match discriminants.last() {
        Some(last) => Ok(*last),
        None => Ok(0),
    }
}

#[test]
fn each_variant_has_its_fields_behind_the_tag(rt: HostRuntime) -> Result<(), Fail> {
    let alloc = rt.alloc();
    let draft = Draft {
        ty: Type::Enum(7),
        ..EMPTY
    };
    assert!(rt; ask(alloc, draft, Question::Variants)? == Answer::Variants(2, 1, 8, 1));
    Ok(())
}
