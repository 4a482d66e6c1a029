use crate::pointer_vtable::PointerVTable;
use crate::type_ops::{TypeOps, TypeOpsDirect, TypeOpsIndirect};
use crate::typed_builder::TypedVTableDirectBuilder;
use crate::vtable::{VTableDirect, VTableIndirect};
use crate::vtable_erased::VTableErased;
use std::test::Fail;

// The builder that sets the member at an index of the record.
fn with_member(index: usize, value: bool) -> TypedVTableDirectBuilder {
    let builder = VTableDirect::builder_for();
    match index {
        0 => builder.display(value),
        1 => builder.debug(value),
        2 => builder.hash(value),
        3 => builder.invariants(value),
        4 => builder.parse(value),
        5 => builder.parse_bytes(value),
        6 => builder.try_from(value),
        7 => builder.try_into_inner(value),
        8 => builder.try_borrow_inner(value),
        9 => builder.partial_eq(value),
        10 => builder.partial_cmp(value),
        _ => builder.cmp(value),
    }
}

// The record of a generic type with the same members.
fn indirect(vtable: VTableDirect) -> VTableIndirect {
    VTableIndirect {
        display: vtable.display,
        debug: vtable.debug,
        hash: vtable.hash,
        invariants: vtable.invariants,
        parse: vtable.parse,
        parse_bytes: vtable.parse_bytes,
        try_from: vtable.try_from,
        try_into_inner: vtable.try_into_inner,
        try_borrow_inner: vtable.try_borrow_inner,
        partial_eq: vtable.partial_eq,
        partial_cmp: vtable.partial_cmp,
        cmp: vtable.cmp,
    }
}

fn questions(erased: &VTableErased) -> [bool; 11] {
    [
        erased.has_display(),
        erased.has_debug(),
        erased.has_hash(),
        erased.has_partial_eq(),
        erased.has_partial_ord(),
        erased.has_ord(),
        erased.has_parse(),
        erased.has_parse_bytes(),
        erased.has_try_from(),
        erased.has_try_borrow_inner(),
        erased.has_invariants(),
    ]
}

// For each member of the record, which of these questions reads it.
fn readers() -> [Option<usize>; 12] {
    [
        Some(0),
        Some(1),
        Some(2),
        Some(10),
        Some(6),
        Some(7),
        Some(8),
        None,
        Some(9),
        Some(3),
        Some(4),
        Some(5),
    ]
}

#[test]
fn each_question_reads_its_member_alone(rt: HostRuntime) {
    for (index, reader) in readers().iter().enumerate() {
        let vtable = with_member(index, true).build();
        let direct = questions(&VTableErased::from(vtable));
        let generic = questions(&indirect(vtable).into());
        for question in 0..11 {
            let expected = *reader == Some(question);
            assert_eq!(rt;
                direct[question],
                expected,
                "question {question} of member {index}"
            );
            assert_eq!(rt;
                generic[question],
                expected,
                "question {question} of generic member {index}"
            );
        }
    }
}

#[test]
fn an_optional_setter_sets_and_unsets(rt: HostRuntime) {
    let set = VTableDirect::builder_for()
        .display_opt(true)
        .debug_opt(true)
        .hash_opt(true)
        .partial_eq_opt(true)
        .partial_cmp_opt(true)
        .cmp_opt(true);
    let vtable = set.debug_opt(false).cmp_opt(false).build();
    assert_eq!(rt; vtable.try_into_inner, false);
    assert_eq!(rt;
        questions(&vtable.into()),
        [
            true, false, true, true, true, false, false, false, false, false, false
        ]
    );
}

fn default_of<T: Default>() -> T {
    T::default()
}

fn pointer_members(pointer: PointerVTable) -> [bool; 8] {
    [
        pointer.upgrade_into_fn,
        pointer.downgrade_into_fn,
        pointer.borrow_fn,
        pointer.new_into_fn,
        pointer.lock_fn,
        pointer.read_fn,
        pointer.write_fn,
        pointer.slice_builder_vtable.is_some(),
    ]
}

#[test]
fn defaults_have_no_member(rt: HostRuntime) {
    let none = [false; 11];
    assert_eq!(rt; questions(&default_of::<VTableDirect>().into()), none);
    assert_eq!(rt; questions(&default_of::<VTableIndirect>().into()), none);
    assert_eq!(rt; questions(&VTableIndirect::EMPTY.into()), none);
    assert_eq!(rt; questions(&VTableDirect::builder().into()), none);
    let pointer = default_of::<PointerVTable>();
    assert_eq!(rt; pointer_members(pointer), [false; 8]);
}

#[test]
fn debug_texts_name_the_variant(rt: HostRuntime) -> Result<(), Fail> {
    let alloc = rt.alloc();
    let direct = VTableErased::from(VTableDirect::empty());
    let generic = VTableErased::from(VTableIndirect::empty());
    assert_eq!(rt;
        format!(in alloc; "{direct:?}")?.as_str(),
        "Direct(\"...\")"
    );
    assert_eq!(rt;
        format!(in alloc; "{generic:?}")?.as_str(),
        "Indirect(\"...\")"
    );
    Ok(())
}

fn operations(type_ops: &TypeOps) -> [bool; 3] {
    [
        type_ops.has_clone_into(),
        type_ops.has_default_in_place(),
        type_ops.truthiness_fn(),
    ]
}

#[test]
fn operations_are_read_from_either_record(rt: HostRuntime) {
    let direct = TypeOps::from(TypeOpsDirect {
        drop_in_place: true,
        default_in_place: false,
        clone_into: true,
        is_truthy: false,
    });
    assert_eq!(rt; operations(&direct), [true, false, false]);
    let generic = TypeOps::from(TypeOpsIndirect {
        drop_in_place: false,
        default_in_place: true,
        clone_into: false,
        is_truthy: true,
    });
    assert_eq!(rt; operations(&generic), [false, true, true]);
}
