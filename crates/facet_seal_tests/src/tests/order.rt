use super::definition::Definition;
use super::definition::Definition::{BoxOf, ListOf, MapOf, OptionOf, SetOf, Undefined};
use super::draft::Draft;
use super::types::Type;
use super::types::Type::{Enum, Opaque, Struct};
use super::{MISMATCH, expected, outcome_of, rows_are_answered, sized};
use facet_base::{ScalarType, ShapeLayout};
use facet_desc::EnumRepr::U8;
use facet_registry::SealCause;
use facet_registry::SealCause::{
    BadLayout, CapabilityMissing, DiscriminantRange, DiscriminantRepeated, EagerForward,
    FieldMisaligned, FieldOutside, FieldOverlap, InlineCycle, KeyNotOrd, TooLarge, UnknownShape,
    UnsizedPart, ZeroSizedScalar,
};
use facet_shape::UNSIZED_LAYOUT;
use std::alloc::Global;
use std::process::Abort;
use std::test::Fail;

// Seals the draft, which meets that cause, and then the same one as a scalar that isn't defined as such.
fn both_are_answered(
    rt: &impl Abort,
    alloc: Global,
    draft: Draft,
    cause: SealCause,
) -> Result<(), Fail> {
    assert_eq!(rt; outcome_of(alloc, draft)?, expected(Some(cause)));
    let mismatched = Draft {
        scalar: Some(ScalarType::Str),
        ..draft
    };
    assert_eq!(rt; outcome_of(alloc, mismatched)?, expected(MISMATCH));
    Ok(())
}

// Seals structs and enums that meet a cause behind Mismatch, and none before it.
fn types_are_answered(
    rt: &impl Abort,
    alloc: Global,
    rows: &[(Type, ShapeLayout, SealCause)],
) -> Result<(), Fail> {
    for (ty, layout, cause) in rows {
        both_are_answered(rt, alloc, Draft::new(Undefined, *ty, &[], *layout), *cause)?;
    }
    Ok(())
}

#[test]
fn mismatch_is_named_before_what_a_struct_or_an_enum_meets(rt: HostRuntime) -> Result<(), Fail> {
    types_are_answered(
        &rt,
        rt.alloc(),
        &[
            (Struct(&[]), UNSIZED_LAYOUT, UnsizedPart),
            (Struct(&[(16, 0)]), sized(4, 4), UnsizedPart),
            (Struct(&[(18, 0)]), sized(4, 4), InlineCycle),
            (Struct(&[]), sized(65_540, 4), TooLarge),
            (Struct(&[(6, 0)]), sized(6, 4), BadLayout),
            (Struct(&[(6, 4)]), sized(4, 4), FieldOutside),
            (Struct(&[(6, 2)]), sized(8, 4), FieldMisaligned),
            (Struct(&[(6, 0), (5, 2)]), sized(8, 4), FieldOverlap),
            (
                Enum(U8, &[("X", 1, &[]), ("Y", 1, &[])]),
                sized(1, 1),
                DiscriminantRepeated,
            ),
            (Enum(U8, &[("X", 256, &[])]), sized(1, 1), DiscriminantRange),
        ],
    )
}

// The same of containers.
fn containers_are_answered(
    rt: &impl Abort,
    alloc: Global,
    rows: &[(Definition, &[u32], ShapeLayout, SealCause)],
) -> Result<(), Fail> {
    for (definition, parameters, layout, cause) in rows {
        let draft = Draft::new(*definition, Opaque, *parameters, *layout);
        both_are_answered(rt, alloc, draft, *cause)?;
    }
    Ok(())
}

#[test]
fn mismatch_is_named_before_what_a_container_meets(rt: HostRuntime) -> Result<(), Fail> {
    containers_are_answered(
        &rt,
        rt.alloc(),
        &[
            (ListOf(16), &[16], sized(24, 8), UnsizedPart),
            (OptionOf(6), &[6], UNSIZED_LAYOUT, UnsizedPart),
            (ListOf(6), &[6], sized(65_544, 8), TooLarge),
            (ListOf(6), &[6], sized(24, 4), BadLayout),
            (BoxOf(Some(6)), &[6], sized(16, 8), BadLayout),
            (OptionOf(6), &[6], sized(4, 4), BadLayout),
            (SetOf(17), &[17], sized(24, 8), KeyNotOrd),
            (MapOf(17, 6), &[17, 6], sized(24, 8), KeyNotOrd),
        ],
    )
}

#[test]
fn mismatch_is_named_before_a_capability_that_is_missing(rt: HostRuntime) -> Result<(), Fail> {
    let draft = Draft {
        parses: true,
        ..Draft::new(Undefined, Struct(&[]), &[], sized(0, 1))
    };
    both_are_answered(&rt, rt.alloc(), draft, CapabilityMissing)
}

#[test]
fn mismatch_is_named_before_a_scalar_without_a_byte(rt: HostRuntime) -> Result<(), Fail> {
    let draft = Draft {
        scalar: Some(ScalarType::U32),
        ..Draft::new(Definition::Scalar, Opaque, &[], sized(0, 4))
    };
    let zero_sized = outcome_of(rt.alloc(), draft)?;
    assert_eq!(rt; zero_sized, expected(Some(ZeroSizedScalar)));
    let mismatched = Draft {
        definition: Undefined,
        ..draft
    };
    assert_eq!(rt; outcome_of(rt.alloc(), mismatched)?, expected(MISMATCH));
    Ok(())
}

// Lists whose parameter isn't their element, of which some meet an earlier cause too.
#[test]
fn unknown_and_forward_references_are_named_before_a_mismatch(rt: HostRuntime) -> Result<(), Fail> {
    let unknown = Some(UnknownShape);
    let forward = Some(EagerForward);
    rows_are_answered(
        &rt,
        rt.alloc(),
        &[
            (ListOf(19), Opaque, &[6], sized(24, 8), unknown),
            (ListOf(6), Opaque, &[19], sized(24, 8), unknown),
            (ListOf(18), Opaque, &[6], sized(24, 8), forward),
            (ListOf(6), Opaque, &[18], sized(24, 8), forward),
            (ListOf(17), Opaque, &[6], sized(24, 8), MISMATCH),
            (ListOf(6), Opaque, &[17], sized(24, 8), MISMATCH),
        ],
    )
}
