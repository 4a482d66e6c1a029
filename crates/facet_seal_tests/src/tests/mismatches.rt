use super::definition::Definition;
use super::definition::Definition::{
    ArrayOf, BoxOf, DynamicValue, ListOf, MapOf, NdArrayOf, OptionOf, RcOf, ResultOf, SetOf,
    SliceOf, Undefined,
};
use super::draft::Draft;
use super::types::Type::{Array, Boolean, Enum, Opaque, Slice, Struct, Untyped};
use super::types::Variants;
use super::{Answer, MISMATCH, SEALED, expected, outcome_of, rows_are_answered, sized};
use facet_base::{ScalarType, ShapeLayout};
use facet_desc::EnumRepr;
use facet_shape::UNSIZED_LAYOUT;
use std::alloc::Global;
use std::process::Abort;
use std::test::Fail;

// A definition, its parameters and its layout, with what is to come of an opaque type, a boolean, no type, a struct and
// an enum beside it.
type DefinitionRow<'a> = (Definition, &'a [u32], ShapeLayout, [Answer; 5]);

// Seals the row's definition beside each type.
fn types_are_answered(rt: &impl Abort, alloc: Global, row: DefinitionRow) -> Result<(), Fail> {
    let (definition, parameters, layout, answers) = row;
    let [opaque, boolean, untyped, of_struct, of_enum] = answers;
    for (ty, answer) in [
        (Opaque, opaque),
        (Boolean, boolean),
        (Untyped, untyped),
        (Struct(&[]), of_struct),
        (Enum(EnumRepr::U8, &[]), of_enum),
    ] {
        let outcome = outcome_of(alloc, Draft::new(definition, ty, parameters, layout))?;
        assert_eq!(rt; outcome, expected(answer));
    }
    Ok(())
}

fn definitions_are_answered(
    rt: &impl Abort,
    alloc: Global,
    rows: &[DefinitionRow],
) -> Result<(), Fail> {
    for row in rows {
        types_are_answered(rt, alloc, *row)?;
    }
    Ok(())
}

#[test]
fn a_definition_needs_a_type_that_is_no_struct_and_no_enum(rt: HostRuntime) -> Result<(), Fail> {
    let none = [SEALED, SEALED, MISMATCH, SEALED, SEALED];
    let option = [SEALED, MISMATCH, MISMATCH, MISMATCH, MISMATCH];
    let other = [SEALED, SEALED, MISMATCH, MISMATCH, MISMATCH];
    definitions_are_answered(
        &rt,
        rt.alloc(),
        &[
            (Undefined, &[], sized(4, 4), none),
            (Definition::Scalar, &[], sized(4, 4), other),
            (MapOf(6, 5), &[6, 5], sized(24, 8), other),
            (SetOf(6), &[6], sized(24, 8), other),
            (ListOf(6), &[6], sized(24, 8), other),
            (ArrayOf(6, 3), &[6], sized(12, 4), other),
            (NdArrayOf(6), &[], sized(4, 4), other),
            (SliceOf(6), &[6], UNSIZED_LAYOUT, other),
            (OptionOf(6), &[6], sized(8, 4), option),
            (ResultOf(6, 5), &[6, 5], sized(8, 4), other),
            (BoxOf(Some(6)), &[6], sized(8, 8), other),
            (BoxOf(Some(16)), &[16], sized(16, 8), other),
            (RcOf(Some(6)), &[6], sized(8, 8), other),
            (DynamicValue, &[], sized(4, 4), other),
        ],
    )
}

// Sequence types beside an array of three `u32`, and beside a slice of them.
#[test]
fn a_sequence_type_has_the_element_and_the_length_of_its_definition(
    rt: HostRuntime,
) -> Result<(), Fail> {
    rows_are_answered(
        &rt,
        rt.alloc(),
        &[
            (ArrayOf(6, 3), Array(6, 3), &[6], sized(12, 4), SEALED),
            (ArrayOf(6, 3), Array(12, 3), &[6], sized(12, 4), MISMATCH),
            (ArrayOf(6, 3), Array(6, 2), &[6], sized(12, 4), MISMATCH),
            (ArrayOf(6, 3), Array(6, 4), &[6], sized(12, 4), MISMATCH),
            (ArrayOf(6, 3), Slice(6), &[6], sized(12, 4), MISMATCH),
            (ArrayOf(6, 3), Boolean, &[6], sized(12, 4), SEALED),
            (SliceOf(6), Slice(6), &[6], UNSIZED_LAYOUT, SEALED),
            (SliceOf(6), Slice(12), &[6], UNSIZED_LAYOUT, MISMATCH),
            (SliceOf(6), Array(6, 3), &[6], UNSIZED_LAYOUT, MISMATCH),
            (SliceOf(6), Boolean, &[6], UNSIZED_LAYOUT, SEALED),
            (ListOf(6), Slice(12), &[6], sized(24, 8), SEALED),
            (Undefined, Array(12, 3), &[6], sized(12, 4), SEALED),
            (Undefined, Slice(12), &[6], sized(12, 4), SEALED),
        ],
    )
}

// Seals an option of `u32`, whose part lies at 4, beside each enum.
fn options_are_answered(
    rt: &impl Abort,
    alloc: Global,
    rows: &[(Variants, Answer)],
) -> Result<(), Fail> {
    for (row, (variants, answer)) in rows.iter().enumerate() {
        let ty = Enum(EnumRepr::Rust, *variants);
        let outcome = outcome_of(alloc, Draft::new(OptionOf(6), ty, &[6], sized(8, 4)))?;
        assert_eq!(rt; outcome, expected(*answer), "at row {row}");
    }
    Ok(())
}

#[test]
fn an_option_is_none_and_some_of_its_part(rt: HostRuntime) -> Result<(), Fail> {
    options_are_answered(
        &rt,
        rt.alloc(),
        &[
            (&[("None", 0, &[]), ("Some", 1, &[(6, 4)])], SEALED),
            (&[("None", 5, &[]), ("Some", 5, &[(6, 4)])], SEALED),
            (&[("none", 0, &[]), ("Some", 1, &[(6, 4)])], MISMATCH),
            (&[("None", 0, &[]), ("some", 1, &[(6, 4)])], MISMATCH),
            (&[("Some", 0, &[]), ("None", 1, &[(6, 4)])], MISMATCH),
            (&[("Some", 1, &[(6, 4)]), ("None", 0, &[])], MISMATCH),
            (&[("None", 0, &[(0, 1)]), ("Some", 1, &[(6, 4)])], MISMATCH),
            (&[("None", 0, &[]), ("Some", 1, &[])], MISMATCH),
            (
                &[("None", 0, &[]), ("Some", 1, &[(6, 4), (0, 1)])],
                MISMATCH,
            ),
            (&[("None", 0, &[]), ("Some", 1, &[(12, 4)])], MISMATCH),
            (&[("None", 0, &[]), ("Some", 1, &[(6, 0)])], MISMATCH),
            (
                &[("None", 0, &[]), ("Some", 1, &[(6, 4)]), ("X", 2, &[])],
                MISMATCH,
            ),
            (&[("Some", 1, &[(6, 4)])], MISMATCH),
            (&[("None", 0, &[])], MISMATCH),
        ],
    )
}

// Parameters of what has one part.
#[test]
fn the_first_parameter_is_the_part(rt: HostRuntime) -> Result<(), Fail> {
    rows_are_answered(
        &rt,
        rt.alloc(),
        &[
            (ListOf(6), Opaque, &[6], sized(24, 8), SEALED),
            (ListOf(6), Opaque, &[], sized(24, 8), MISMATCH),
            (ListOf(6), Opaque, &[12], sized(24, 8), MISMATCH),
            (ListOf(6), Opaque, &[12, 6], sized(24, 8), MISMATCH),
            (ListOf(6), Opaque, &[6, 12], sized(24, 8), SEALED),
            (SetOf(6), Opaque, &[], sized(24, 8), MISMATCH),
            (SetOf(6), Opaque, &[12, 6], sized(24, 8), MISMATCH),
            (SetOf(6), Opaque, &[6, 12], sized(24, 8), SEALED),
            (OptionOf(6), Opaque, &[], sized(8, 4), MISMATCH),
            (OptionOf(6), Opaque, &[12, 6], sized(8, 4), MISMATCH),
            (OptionOf(6), Opaque, &[6, 12], sized(8, 4), SEALED),
            (ArrayOf(6, 3), Opaque, &[], sized(12, 4), MISMATCH),
            (ArrayOf(6, 3), Opaque, &[12, 6], sized(12, 4), MISMATCH),
            (ArrayOf(6, 3), Opaque, &[6, 12], sized(12, 4), SEALED),
            (SliceOf(6), Opaque, &[], UNSIZED_LAYOUT, SEALED),
            (SliceOf(6), Opaque, &[12], UNSIZED_LAYOUT, SEALED),
            (NdArrayOf(6), Opaque, &[], sized(4, 4), SEALED),
            (NdArrayOf(6), Opaque, &[12], sized(4, 4), SEALED),
            (Undefined, Opaque, &[12], sized(4, 4), SEALED),
            (DynamicValue, Opaque, &[12], sized(4, 4), SEALED),
        ],
    )
}

// Parameters of what has two parts.
#[test]
fn the_first_two_parameters_are_the_two_parts(rt: HostRuntime) -> Result<(), Fail> {
    rows_are_answered(
        &rt,
        rt.alloc(),
        &[
            (MapOf(6, 5), Opaque, &[6, 5], sized(24, 8), SEALED),
            (MapOf(6, 5), Opaque, &[5, 6], sized(24, 8), MISMATCH),
            (MapOf(6, 5), Opaque, &[], sized(24, 8), MISMATCH),
            (MapOf(6, 5), Opaque, &[6], sized(24, 8), MISMATCH),
            (MapOf(6, 5), Opaque, &[6, 6], sized(24, 8), MISMATCH),
            (MapOf(6, 5), Opaque, &[5, 5], sized(24, 8), MISMATCH),
            (MapOf(6, 5), Opaque, &[6, 5, 4], sized(24, 8), SEALED),
            (ResultOf(6, 5), Opaque, &[6, 5], sized(8, 4), SEALED),
            (ResultOf(6, 5), Opaque, &[5, 6], sized(8, 4), MISMATCH),
            (ResultOf(6, 5), Opaque, &[], sized(8, 4), MISMATCH),
            (ResultOf(6, 5), Opaque, &[6], sized(8, 4), MISMATCH),
            (ResultOf(6, 5), Opaque, &[6, 6], sized(8, 4), MISMATCH),
            (ResultOf(6, 5), Opaque, &[5, 5], sized(8, 4), MISMATCH),
            (ResultOf(6, 5), Opaque, &[6, 5, 4], sized(8, 4), SEALED),
        ],
    )
}

// Pointees and parameters of boxes, and of pointers that are none.
#[test]
fn a_box_has_a_pointee_and_it_is_the_first_parameter(rt: HostRuntime) -> Result<(), Fail> {
    rows_are_answered(
        &rt,
        rt.alloc(),
        &[
            (BoxOf(Some(6)), Opaque, &[6], sized(8, 8), SEALED),
            (BoxOf(Some(6)), Opaque, &[6, 12], sized(8, 8), SEALED),
            (BoxOf(Some(6)), Opaque, &[], sized(8, 8), MISMATCH),
            (BoxOf(Some(6)), Opaque, &[12], sized(8, 8), MISMATCH),
            (BoxOf(Some(6)), Opaque, &[12, 6], sized(8, 8), MISMATCH),
            (BoxOf(None), Opaque, &[], sized(8, 8), MISMATCH),
            (BoxOf(None), Opaque, &[6], sized(8, 8), MISMATCH),
            (BoxOf(Some(16)), Opaque, &[16], sized(16, 8), SEALED),
            (BoxOf(Some(16)), Opaque, &[], sized(16, 8), MISMATCH),
            (BoxOf(Some(16)), Opaque, &[6], sized(16, 8), MISMATCH),
            (RcOf(Some(6)), Opaque, &[], sized(8, 8), SEALED),
            (RcOf(Some(6)), Opaque, &[12], sized(8, 8), SEALED),
            (RcOf(None), Opaque, &[], sized(8, 8), SEALED),
            (RcOf(None), Opaque, &[12], sized(8, 8), SEALED),
        ],
    )
}

// Seals scalars beside definitions.
fn scalars_are_answered(
    rt: &impl Abort,
    alloc: Global,
    rows: &[(Option<ScalarType>, Definition, ShapeLayout, Answer)],
) -> Result<(), Fail> {
    for (row, (scalar, definition, layout, answer)) in rows.iter().enumerate() {
        let draft = Draft {
            scalar: *scalar,
            ..Draft::new(*definition, Opaque, &[6], *layout)
        };
        assert_eq!(rt;
            outcome_of(alloc, draft)?,
            expected(*answer),
            "at row {row}"
        );
    }
    Ok(())
}

#[test]
fn a_scalar_has_the_definition_of_scalars(rt: HostRuntime) -> Result<(), Fail> {
    let (unit, string) = (Some(ScalarType::Unit), Some(ScalarType::Str));
    let number = Some(ScalarType::U32);
    scalars_are_answered(
        &rt,
        rt.alloc(),
        &[
            (number, Definition::Scalar, sized(4, 4), SEALED),
            (number, Undefined, sized(4, 4), MISMATCH),
            (number, ListOf(6), sized(24, 8), MISMATCH),
            (number, OptionOf(6), sized(8, 4), MISMATCH),
            (number, BoxOf(Some(6)), sized(8, 8), MISMATCH),
            (number, DynamicValue, sized(4, 4), MISMATCH),
            (unit, Definition::Scalar, sized(0, 1), SEALED),
            (unit, Undefined, sized(0, 1), MISMATCH),
            (string, Definition::Scalar, sized(16, 8), SEALED),
            (string, Undefined, sized(16, 8), MISMATCH),
            (string, ListOf(6), sized(24, 8), MISMATCH),
            (None, Definition::Scalar, sized(4, 4), SEALED),
        ],
    )
}
