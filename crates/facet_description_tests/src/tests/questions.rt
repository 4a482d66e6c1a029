use super::{begin, one_attribute, proxy};
use facet_base::{HookId, KnownPointer, Many, PointerFlags, ShapeFlags, ShapeId, Text};
use facet_caps::{PointerVTable, SliceBuilderVTable, TypeOpsDirect, VTableDirect};
use facet_def::{Def, PointerDef};
use facet_desc::{
    EnumRepr, EnumTypeBuilder, OpaqueAdapterDef, PrimitiveType, ProxyDef, Ty, UserType,
};
use facet_shape::{Shape, ShapeBuilder};
use std::alloc::{AllocError, Global};
use std::test::Fail;

const OPERATIONS: TypeOpsDirect = TypeOpsDirect {
    drop_in_place: false,
    default_in_place: false,
    clone_into: false,
    is_truthy: false,
};

// An enum whose values are borrowed or owned.
fn cow(alloc: Global) -> Ty {
    let builder = EnumTypeBuilder::new(EnumRepr::U8, Many::new(alloc)).cow();
    Ty::User(UserType::Enum(builder.build()))
}

// A pointer that a slice builder makes.
fn slice_pointer() -> Def {
    let vtable = PointerVTable {
        slice_builder_vtable: Some(SliceBuilderVTable::new(true, true, true, true)),
        ..PointerVTable::new()
    };
    Def::Pointer(PointerDef {
        vtable,
        pointee: None,
        weak: None,
        strong: None,
        flags: PointerFlags::EMPTY,
        known: Some(KnownPointer::Box),
    })
}

// What the shape returns, in this order: the attributes deny_unknown_fields and default, transparent, untagged,
// numeric, a container of metadata, any values, borrowed or owned, a proxy, an adapter, a truth value, made by a
// slice builder.
fn questions(shape: &Shape) -> [bool; 12] {
    [
        shape.has_deny_unknown_fields_attr(),
        shape.has_default_attr(),
        shape.is_transparent(),
        shape.is_untagged(),
        shape.is_numeric(),
        shape.is_metadata_container(),
        shape.is_pod(),
        shape.is_cow(),
        shape.has_any_proxy(),
        shape.has_opaque_adapter(),
        shape.truthiness_fn(),
        shape.requires_eager_materialization(),
    ]
}

fn built_questions(builder: ShapeBuilder) -> Option<[bool; 12]> {
    match builder.build() {
        Ok(shape) => Some(questions(&shape)),
        Err(_) => None,
    }
}

// The same of a shape with an attribute of this key.
fn with_attribute(alloc: Global, key: &str) -> Result<Option<[bool; 12]>, AllocError> {
    let identifier = Text::new(alloc, "Point")?;
    let attributes = one_attribute(alloc, None, key)?;
    Ok(built_questions(begin(alloc, identifier).attributes(attributes)))
}

// The same of a shape with this flag.
fn with_flag(alloc: Global, flag: ShapeFlags) -> Result<Option<[bool; 12]>, AllocError> {
    let identifier = Text::new(alloc, "Point")?;
    Ok(built_questions(begin(alloc, identifier).flags(flag)))
}

// The member that the question at an index from 6 to 11 reads, beside attributes and flags. Other indexes set none.
fn with_one_member(alloc: Global, builder: ShapeBuilder, index: usize) -> ShapeBuilder {
    match index {
        6 => builder.ty(Ty::Primitive(PrimitiveType::Boolean)),
        7 => builder.ty(cow(alloc)),
        8 => builder.proxy(proxy(20)),
        9 => builder.opaque_adapter(OpaqueAdapterDef {
            serialize: HookId(3),
            deserialize: HookId(4),
        }),
        10 => builder.type_ops_direct(TypeOpsDirect {
            is_truthy: true,
            ..OPERATIONS
        }),
        11 => builder.def(slice_pointer()),
        _ => builder,
    }
}

// The same of a shape with that member.
fn with_member(alloc: Global, index: usize) -> Result<Option<[bool; 12]>, AllocError> {
    let identifier = Text::new(alloc, "Point")?;
    let builder = with_one_member(alloc, begin(alloc, identifier), index);
    Ok(built_questions(builder))
}

// False everywhere but at this index.
fn only(index: usize) -> Option<[bool; 12]> {
    let mut expected = [false; 12];
    if index < 12 {
        expected[index] = true;
    }
    Some(expected)
}

#[test]
fn each_question_reads_its_own_member(rt: HostRuntime) -> Result<(), Fail> {
    for (index, key) in [
        (0, "deny_unknown_fields"),
        (1, "default"),
        (2, "transparent"),
        (12, "rename"),
    ] {
        assert!(rt; with_attribute(rt.alloc(), key)? == only(index));
    }
    for (index, flag) in [
        (3, ShapeFlags::UNTAGGED),
        (4, ShapeFlags::NUMERIC),
        (5, ShapeFlags::METADATA_CONTAINER),
        (6, ShapeFlags::POD),
    ] {
        assert!(rt; with_flag(rt.alloc(), flag)? == only(index));
    }
    for index in 6..13 {
        assert!(rt; with_member(rt.alloc(), index)? == only(index));
    }
    Ok(())
}

// What the values of the shape can do, in the order of `Characteristic`.
fn capabilities(shape: &Shape) -> [bool; 9] {
    [
        shape.is_clone(),
        shape.is_display(),
        shape.is_debug(),
        shape.is_partial_eq(),
        shape.is_partial_ord(),
        shape.is_ord(),
        shape.is_hash(),
        shape.is_default(),
        shape.is_from_str(),
    ]
}

fn built_capabilities(builder: ShapeBuilder) -> Option<[bool; 9]> {
    match builder.build() {
        Ok(shape) => Some(capabilities(&shape)),
        Err(_) => None,
    }
}

// What values can do that have the characteristic at an index alone.
fn able(alloc: Global, index: usize) -> Result<Option<[bool; 9]>, AllocError> {
    let identifier = Text::new(alloc, "Point")?;
    let vtable = VTableDirect {
        display: index == 1,
        debug: index == 2,
        partial_eq: index == 3,
        partial_cmp: index == 4,
        cmp: index == 5,
        hash: index == 6,
        parse: index == 8,
        ..VTableDirect::empty()
    };
    let operations = TypeOpsDirect {
        clone_into: index == 0,
        default_in_place: index == 7,
        ..OPERATIONS
    };
    let builder = begin(alloc, identifier).vtable_direct(vtable);
    Ok(built_capabilities(builder.type_ops_direct(operations)))
}

#[test]
fn each_capability_is_read_off_its_own_member(rt: HostRuntime) -> Result<(), Fail> {
    for index in 0..9 {
        let mut expected = [false; 9];
        expected[index] = true;
        assert!(rt; able(rt.alloc(), index)? == Some(expected));
    }
    Ok(())
}
