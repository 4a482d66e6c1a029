use super::{begin, push};
use facet_base::{
    Flags, KnownPointer, Layout, Many, MarkerTraits, PointerFlags, ScalarType, ShapeId,
    ShapeLayout, Text,
};
use facet_caps::{PointerVTable, SliceVTable};
use facet_def::{Def, PointerDef, SliceDef};
use facet_desc::{StructKind, Ty, UserType};
use facet_leaf::Scalar;
use facet_registry::{SealCause, SealFault, Shapes, ValueKind};
use facet_shape::{Shape, ShapeBuilder};
use std::alloc::{AllocError, Global};
use std::test::Fail;

// The sixteen scalars: the id, the name, the size, the alignment and the module.
fn scalars() -> [(u32, &'static str, usize, usize, &'static str); 16] {
    [
        (0, "()", 0, 1, ""),
        (1, "bool", 1, 1, ""),
        (2, "char", 4, 4, ""),
        (3, "String", 24, 8, "alloc::string"),
        (4, "u8", 1, 1, ""),
        (5, "u16", 2, 2, ""),
        (6, "u32", 4, 4, ""),
        (7, "u64", 8, 8, ""),
        (8, "u128", 16, 16, ""),
        (9, "usize", 8, 8, ""),
        (10, "i8", 1, 1, ""),
        (11, "i16", 2, 2, ""),
        (12, "i32", 4, 4, ""),
        (13, "i64", 8, 8, ""),
        (14, "i128", 16, 16, ""),
        (15, "isize", 8, 8, ""),
    ]
}

// Whether it has this name and layout, and its module, where values with none are copied bit by bit.
fn is_as_listed(shape: &Shape, name: &str, layout: Layout, path: &str) -> bool {
    let module = match &shape.module_path {
        Some(module) => module.as_str(),
        None => "",
    };
    shape.effective_name() == name
        && shape.layout == ShapeLayout::Sized(layout)
        && module == path
        && shape.marker_traits.contains(MarkerTraits::COPY) == path.is_empty()
}

// The first id whose shape is not as the list of scalars says.
fn first_unlisted(shapes: &Shapes<Scalar>) -> Option<u32> {
    for (id, name, size, align, path) in scalars() {
        let is_listed = match shapes.get(ShapeId(id)) {
            Some(shape) => is_as_listed(shape, name, Layout { size, align }, path),
            None => false,
        };
        if !is_listed || shapes.size_of(ShapeId(id)) != size {
            return Some(id);
        }
    }
    None
}

// That of the shapes that every registry begins with, how many there are and are sealed, and whether these are all.
fn beginning(alloc: Global) -> Result<(Option<u32>, [usize; 2], bool), AllocError> {
    let shapes: Shapes<Scalar> = Shapes::prelude(alloc)?;
    let counts = [shapes.len(), shapes.sealed()];
    Ok((first_unlisted(&shapes), counts, shapes.is_prelude()))
}

#[test]
fn the_sixteen_scalars_have_their_names_layouts_and_modules(rt: HostRuntime) -> Result<(), Fail> {
    assert!(rt; beginning(rt.alloc())? == (None, [16, 16], true));
    Ok(())
}

fn pointer(known: KnownPointer, pointee: u32) -> Def {
    Def::Pointer(PointerDef {
        vtable: PointerVTable::new(),
        pointee: Some(ShapeId(pointee)),
        weak: None,
        strong: None,
        flags: PointerFlags::empty(),
        known: Some(known),
    })
}

// A draft with the definition or the type at an index.
fn draft(alloc: Global, identifier: Text, index: usize) -> ShapeBuilder {
    let builder = ShapeBuilder::for_sized(alloc, identifier, Layout { size: 8, align: 8 });
    match index {
        0 => builder.def(Def::Slice(SliceDef::new(SliceVTable::new(true, true, true), ShapeId(4)))),
        1 => builder.def(pointer(KnownPointer::Box, 16)),
        2 => builder.def(pointer(KnownPointer::Box, 4)),
        3 => builder.def(pointer(KnownPointer::Rc, 4)),
        _ => builder.ty(Ty::struct_builder(StructKind::Struct, Many::new(alloc)).build()),
    }
}

// The id under which the draft at an index is added, where there is memory.
fn push_draft(shapes: &mut Shapes<Scalar>, alloc: Global, index: usize) -> Option<u32> {
    match Text::new(alloc, "T") {
        Ok(identifier) => push(shapes, draft(alloc, identifier, index)),
        Err(_) => None,
    }
}

// The kind of the shape of an id, where there is one.
fn kind(shapes: &Shapes<Scalar>, id: u32) -> Option<ValueKind> {
    if (id as usize) < shapes.len() {
        Some(shapes.kind_of(ShapeId(id)))
    } else {
        None
    }
}

// The kinds of the first scalar and of the five drafts.
fn kinds(shapes: &Shapes<Scalar>) -> [Option<ValueKind>; 6] {
    [
        kind(shapes, 0),
        kind(shapes, 16),
        kind(shapes, 17),
        kind(shapes, 18),
        kind(shapes, 19),
        kind(shapes, 20),
    ]
}

// The same once they are added to the scalars.
fn drafted_kinds(alloc: Global) -> Result<[Option<ValueKind>; 6], AllocError> {
    let mut shapes: Shapes<Scalar> = Shapes::prelude(alloc)?;
    for index in 0..5 {
        push_draft(&mut shapes, alloc, index);
    }
    Ok(kinds(&shapes))
}

#[test]
fn kinds_go_by_scalar_and_definition_and_type(rt: HostRuntime) -> Result<(), Fail> {
    let expected = [
        Some(ValueKind::Unit),
        Some(ValueKind::NoValue),
        Some(ValueKind::BoxedSlice),
        Some(ValueKind::Box),
        Some(ValueKind::NoValue),
        Some(ValueKind::Struct),
    ];
    assert!(rt; drafted_kinds(rt.alloc())? == expected);
    Ok(())
}

// How many shapes there are, how many are sealed, and the id of the shape that stands under the id 17.
fn counts_and_id(shapes: &Shapes<Scalar>) -> (usize, usize, Option<u32>) {
    let id = match shapes.get(ShapeId(17)) {
        Some(shape) => Some(shape.id.0),
        None => None,
    };
    (shapes.len(), shapes.sealed(), id)
}

// The ids under which two drafts are added.
fn add_two(shapes: &mut Shapes<Scalar>, alloc: Global) -> [Option<u32>; 2] {
    [push_draft(shapes, alloc, 0), push_draft(shapes, alloc, 1)]
}

#[test]
fn drafts_are_added_and_cut(rt: HostRuntime) -> Result<(), Fail> {
    let mut shapes: Shapes<Scalar> = Shapes::prelude(rt.alloc())?;
    let ids = add_two(&mut shapes, rt.alloc());
    let drafted = counts_and_id(&shapes);
    shapes.cut();
    let cut = counts_and_id(&shapes);
    drop(shapes);
    assert!(rt; ids == [Some(16), Some(17)]);
    assert!(rt; drafted == (18, 16, Some(17)));
    assert!(rt; cut == (16, 16, None));
    Ok(())
}

// What `seal` returns of the drafts so far, as the cause and the shape where it is a refusal, and how many shapes are
// sealed after it.
fn sealed_now(shapes: &mut Shapes<Scalar>) -> (Option<(SealCause, u32)>, usize) {
    let refusal = match shapes.seal() {
        Err(SealFault::Refused(error)) => Some((error.cause, error.shape.0)),
        _ => None,
    };
    (refusal, shapes.sealed())
}

// The same of an opaque shape, and then of a shape of scalars whose definition isn't that of scalars.
fn opaque_and_mismatched(
    alloc: Global,
) -> Result<[(Option<(SealCause, u32)>, usize); 2], AllocError> {
    let mut shapes: Shapes<Scalar> = Shapes::prelude(alloc)?;
    let opaque = begin(alloc, Text::new(alloc, "A")?);
    push(&mut shapes, opaque.ty(Ty::User(UserType::Opaque)));
    let first = sealed_now(&mut shapes);
    let mismatched = begin(alloc, Text::new(alloc, "B")?);
    push(&mut shapes, mismatched.scalar(ScalarType::U64));
    Ok([first, sealed_now(&mut shapes)])
}

#[test]
fn drafts_are_sealed_or_the_first_cause_is_named(rt: HostRuntime) -> Result<(), Fail> {
    let answers = opaque_and_mismatched(rt.alloc())?;
    assert!(rt; answers[0] == (None, 17));
    assert!(rt; answers[1] == (Some((SealCause::Mismatch, 17)), 17));
    Ok(())
}
