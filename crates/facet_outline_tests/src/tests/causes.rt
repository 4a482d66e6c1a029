use super::{Answer, Definition, Draft, EMPTY, FourBytes, Question, Type, ask};
use facet_desc::Ty;
use facet_leaf::Scalar;
use facet_outline::{
    ValueKind, has_bad_layout, has_discriminant_outside, has_field_misaligned, has_field_outside,
    has_unoffered_member, has_unsized_part, is_mismatched,
};
use facet_shape::Shape;
use std::alloc::{AllocError, Global};
use std::test::Fail;

pub fn causes(alloc: Global, shape: &Shape) -> Result<Answer, AllocError> {
    let of_shape = shape_causes(alloc, shape)?;
    let of_fields = field_causes(alloc, &shape.ty)?;
    let mut discriminants = Vec::new(alloc);
    let out_of_range = has_discriminant_outside(ValueKind::Enum, &shape.ty, &mut discriminants)?;
    Ok(Answer::Causes(of_shape, of_fields, out_of_range))
}

fn shape_causes(alloc: Global, shape: &Shape) -> Result<[bool; 4], AllocError> {
    let mut buffer = Vec::new(alloc);
    let unsized_part = has_unsized_part(&FourBytes, None, shape, &mut buffer)?;
    let bad_layout = has_bad_layout(&FourBytes, None, shape, &mut buffer)?;
    let mismatched = is_mismatched(&FourBytes, shape);
    let unoffered = has_unoffered_member::<Scalar>(None, shape);
    Ok([mismatched, unsized_part, bad_layout, unoffered])
}

fn field_causes(alloc: Global, ty: &Ty) -> Result<[bool; 2], AllocError> {
    let mut fields = Vec::new(alloc);
    let outside = has_field_outside(&FourBytes, ValueKind::Struct, ty, 12, &mut fields)?;
    let misaligned = has_field_misaligned(&FourBytes, ValueKind::Struct, ty, &mut fields)?;
    Ok([outside, misaligned])
}

#[test]
fn a_type_meets_a_cause_by_one_number(rt: HostRuntime) -> Result<(), Fail> {
    let alloc = rt.alloc();
    let rows = [
        (Type::Struct(8), [false, false], false),
        (Type::Struct(6), [false, true], false),
        (Type::Struct(12), [true, false], false),
        (Type::Enum(255), [false, false], false),
        (Type::Enum(256), [false, false], true),
        (Type::Enum(-1), [false, false], true),
    ];
    for (ty, fields, discriminant) in rows {
        let draft = Draft { ty, ..EMPTY };
        let expected = Answer::Causes([false; 4], fields, discriminant);
        assert!(rt; ask(alloc, draft, Question::Causes)? == expected);
    }
    Ok(())
}

#[test]
fn a_struct_meets_a_cause_by_one_member(rt: HostRuntime) -> Result<(), Fail> {
    let alloc = rt.alloc();
    let rows = [
        (false, Definition::Undefined, [false; 4]),
        (true, Definition::Undefined, [false, false, false, true]),
        (
            false,
            Definition::Pointer(None),
            [true, false, false, false],
        ),
    ];
    for (parses, def, expected) in rows {
        let draft = Draft {
            ty: Type::Struct(4),
            def,
            parses,
            ..EMPTY
        };
        let expected = Answer::Causes(expected, [false; 2], false);
        assert!(rt; ask(alloc, draft, Question::Causes)? == expected);
    }
    Ok(())
}
