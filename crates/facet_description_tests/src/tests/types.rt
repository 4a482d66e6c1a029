use facet_base::{Many, ShapeId, Text};
use facet_desc::{
    ArrayType, BaseRepr, EnumRepr, FunctionAbi, FunctionPointerDef, PointerType, PrimitiveType,
    Repr, SequenceType, SliceType, StructKind, StructTypeBuilder, Ty, TypeParam, UserType,
    ValuePointerType,
};
use std::alloc::Global;
use std::test::Fail;

const SHAPE: ShapeId = ShapeId(6);

fn pointer() -> ValuePointerType {
    ValuePointerType {
        mutable: false,
        wide: false,
        target: SHAPE,
    }
}

// The type of each kind at an index.
fn type_at(alloc: Global, index: usize) -> Ty {
    match index {
        0 => Ty::Undefined,
        1 => Ty::Primitive(PrimitiveType::Boolean),
        2 => Ty::Sequence(SequenceType::Array(ArrayType { t: SHAPE, n: 3 })),
        3 => Ty::Sequence(SequenceType::Slice(SliceType { t: SHAPE })),
        4 => Ty::struct_builder(StructKind::Struct, Many::new(alloc)).build(),
        5 => Ty::enum_builder(EnumRepr::U8, Many::new(alloc)).build(),
        6 => Ty::User(UserType::Opaque),
        7 => Ty::Pointer(PointerType::Reference(pointer())),
        8 => Ty::Pointer(PointerType::Raw(pointer())),
        _ => {
            let function = FunctionPointerDef::new(FunctionAbi::C, Many::new(alloc), SHAPE);
            Ty::Pointer(PointerType::Function(function))
        }
    }
}

fn has_word(alloc: Global, index: usize, word: &str) -> bool {
    type_at(alloc, index).kind_str() == word
}

#[test]
fn each_kind_of_type_has_its_word(rt: HostRuntime) {
    for (index, word) in [
        (0, "undefined"),
        (1, "primitive"),
        (2, "array"),
        (3, "slice"),
        (4, "struct"),
        (5, "enum"),
        (6, "opaque"),
        (7, "ref"),
        (8, "ptr"),
        (9, "fn"),
    ] {
        assert!(rt; has_word(rt.alloc(), index, word));
    }
}

// The representation of a struct or an enum, and none of another type.
fn repr_of(ty: &Ty) -> Option<Repr> {
    match ty {
        Ty::User(user) => user.repr(),
        _ => None,
    }
}

// The representations of a struct as it begins and of one set to Rust's.
fn struct_reprs(alloc: Global) -> [Option<Repr>; 2] {
    let fresh = Ty::struct_builder(StructKind::Struct, Many::new(alloc));
    let set = Ty::struct_builder(StructKind::Struct, Many::new(alloc)).repr(Repr::RUST);
    [repr_of(&fresh.build()), repr_of(&set.build())]
}

// The representations of an enum as it begins and of a transparent one.
fn enum_reprs(alloc: Global) -> [Option<Repr>; 2] {
    let fresh = Ty::enum_builder(EnumRepr::U8, Many::new(alloc));
    let set = Ty::enum_builder(EnumRepr::U8, Many::new(alloc)).repr(Repr::TRANSPARENT);
    [repr_of(&fresh.build()), repr_of(&set.build())]
}

// The kind and the representation of a tuple as it begins, and the representation of a transparent one.
fn tuple_parts(alloc: Global) -> (StructKind, [Repr; 2]) {
    let fresh = StructTypeBuilder::new(StructKind::Tuple, Many::new(alloc)).build();
    let builder = StructTypeBuilder::new(StructKind::Tuple, Many::new(alloc));
    let set = builder.repr(Repr::TRANSPARENT).build();
    (fresh.kind, [fresh.repr, set.repr])
}

#[test]
fn structs_and_enums_have_the_representation_that_was_set(rt: HostRuntime) {
    let structs = struct_reprs(rt.alloc());
    assert!(rt; structs == [Some(Repr::c()), Some(Repr::RUST)]);
    let enums = enum_reprs(rt.alloc());
    assert!(rt; enums == [Some(Repr::c()), Some(Repr::transparent())]);
    let (kind, reprs) = tuple_parts(rt.alloc());
    assert!(rt; kind == StructKind::Tuple);
    assert!(rt; reprs == [Repr::C, Repr::TRANSPARENT]);
    assert!(rt; repr_of(&Ty::User(UserType::Opaque)).is_none());
}

fn default_of<T: Default>() -> T {
    T::default()
}

#[test]
fn the_defaults_are_those_of_rust(rt: HostRuntime) {
    assert!(rt; default_of::<BaseRepr>() == BaseRepr::Rust);
    assert!(rt; default_of::<FunctionAbi>() == FunctionAbi::Rust);
    let unpacked = Repr {
        base: BaseRepr::Rust,
        packed: false,
    };
    assert!(rt; default_of::<Repr>() == unpacked);
}

#[test]
fn a_discriminant_of_one_two_four_or_eight_bytes_is_unsigned(rt: HostRuntime) {
    for (size, expected) in [
        (0, None),
        (1, Some(EnumRepr::U8)),
        (2, Some(EnumRepr::U16)),
        (3, None),
        (4, Some(EnumRepr::U32)),
        (7, None),
        (8, Some(EnumRepr::U64)),
        (16, None),
    ] {
        assert!(rt; EnumRepr::from_discriminant_size(size).ok() == expected);
    }
}

#[test]
fn each_calling_convention_has_its_name(rt: HostRuntime) {
    for (abi, expected) in [
        (FunctionAbi::C, Some("C")),
        (FunctionAbi::Rust, Some("Rust")),
        (FunctionAbi::Unknown, None),
    ] {
        assert!(rt; abi.as_abi_str() == expected);
    }
}

#[test]
fn parameters_and_pointers_have_their_shapes(rt: HostRuntime) -> Result<(), Fail> {
    let name = Text::new(rt.alloc(), "T")?;
    let shape = TypeParam { name, shape: SHAPE }.shape();
    assert!(rt; (shape, pointer().target()) == (SHAPE, SHAPE));
    Ok(())
}
