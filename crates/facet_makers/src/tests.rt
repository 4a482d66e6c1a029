use crate::{
    array_of, box_of, boxed_slice_of, is_slice, list_of, map_of, option_of, result_of, set_of,
    slice_of, tuple_of,
};
use facet_base::{Layout, ShapeId, ShapeLayout, Text};
use facet_leaf::Scalar;
use facet_registry::{Shapes, ValueKind};
use facet_shape::ShapeBuilder;
use std::alloc::{AllocError, Global};
use std::test::Fail;

#[derive(Clone, Copy)]
enum Maker {
    Option,
    Result,
    List,
    Map,
    Set,
    Array(usize),
    Slice,
    Box,
    BoxedSlice,
}

fn sized(size: usize, align: usize) -> ShapeLayout {
    ShapeLayout::Sized(Layout { size, align })
}

// What each maker makes of the shapes of one or two ids: the identifier, the layout and the kind. The ids begin
// with 16: there are the sixteen scalars, and #16 has 8 bytes of alignment 0.
fn rows() -> [(Maker, u32, u32, &'static str, ShapeLayout, ValueKind); 17] {
    [
        (
            Maker::Slice,
            4,
            4,
            "[T]",
            ShapeLayout::Unsized,
            ValueKind::NoValue,
        ),
        (
            Maker::Option,
            6,
            6,
            "Option",
            sized(8, 4),
            ValueKind::Option,
        ),
        (
            Maker::Option,
            0,
            0,
            "Option",
            sized(1, 1),
            ValueKind::Option,
        ),
        (
            Maker::Option,
            3,
            3,
            "Option",
            sized(32, 8),
            ValueKind::Option,
        ),
        (
            Maker::Option,
            16,
            16,
            "Option",
            sized(9, 1),
            ValueKind::Option,
        ),
        (
            Maker::Option,
            17,
            17,
            "Option",
            sized(1, 1),
            ValueKind::Option,
        ),
        (
            Maker::Result,
            4,
            7,
            "Result",
            sized(16, 8),
            ValueKind::Result,
        ),
        (
            Maker::Result,
            3,
            2,
            "Result",
            sized(32, 8),
            ValueKind::Result,
        ),
        (Maker::List, 17, 17, "Vec", sized(24, 8), ValueKind::List),
        (Maker::Map, 4, 6, "BTreeMap", sized(24, 8), ValueKind::Map),
        (Maker::Set, 3, 3, "BTreeSet", sized(24, 8), ValueKind::Set),
        (
            Maker::Array(3),
            5,
            5,
            "[T; N]",
            sized(6, 2),
            ValueKind::Array,
        ),
        (
            Maker::Array(0),
            3,
            3,
            "[T; N]",
            sized(0, 8),
            ValueKind::Array,
        ),
        (
            Maker::Array(1 << 40),
            6,
            6,
            "[T; N]",
            sized(4_294_967_295, 4),
            ValueKind::Array,
        ),
        (Maker::Box, 3, 3, "Box", sized(8, 8), ValueKind::Box),
        (
            Maker::BoxedSlice,
            17,
            17,
            "Box",
            sized(16, 8),
            ValueKind::BoxedSlice,
        ),
        (
            Maker::Option,
            32,
            32,
            "Option",
            sized(24, 8),
            ValueKind::Option,
        ),
    ]
}

// The registry with #16.
fn registry(alloc: Global) -> Result<Shapes<Scalar>, AllocError> {
    let mut shapes: Shapes<Scalar> = Shapes::prelude(alloc)?;
    let layout = Layout { size: 8, align: 0 };
    let builder = ShapeBuilder::for_sized(alloc, Text::new(alloc, "A")?, layout);
    if let Ok(shape) = builder.build() {
        if shapes.len() < 100 {
            shapes.push(shape)?;
        }
    }
    Ok(shapes)
}

// The id under which a maker drafts, where what it requires holds.
fn make(
    alloc: Global,
    shapes: &mut Shapes<Scalar>,
    maker: Maker,
    a: ShapeId,
    b: ShapeId,
) -> Result<Option<ShapeId>, AllocError> {
    let len = shapes.len();
    if len >= 100 || a.0 as usize >= len || b.0 as usize >= len {
        return Ok(None);
    }
    let id = match maker {
        Maker::Option => option_of(alloc, shapes, a)?,
        Maker::Result => result_of(alloc, shapes, a, b)?,
        Maker::List => list_of(alloc, shapes, a)?,
        Maker::Map => map_of(alloc, shapes, a, b)?,
        Maker::Set => set_of(alloc, shapes, a)?,
        Maker::Array(n) => array_of(alloc, shapes, a, n)?,
        Maker::Slice => slice_of(alloc, shapes, a)?,
        Maker::Box | Maker::BoxedSlice => return make_box(alloc, shapes, a),
    };
    Ok(Some(id))
}

// The same of a box, or of a boxed slice where its content is one.
fn make_box(
    alloc: Global,
    shapes: &mut Shapes<Scalar>,
    t: ShapeId,
) -> Result<Option<ShapeId>, AllocError> {
    let len = shapes.len();
    if len >= 100 || t.0 as usize >= len {
        return Ok(None);
    }
    let id = if is_slice(shapes, t) {
        boxed_slice_of(alloc, shapes, t)?
    } else {
        box_of(alloc, shapes, t)?
    };
    Ok(Some(id))
}

// Whether the shape of an id has this identifier and layout, and its values this kind.
fn is_as_listed(
    shapes: &Shapes<Scalar>,
    id: ShapeId,
    name: &str,
    layout: ShapeLayout,
    kind: ValueKind,
) -> bool {
    if id.0 as usize >= shapes.len() || shapes.kind_of(id) != kind {
        return false;
    }
    match shapes.get(id) {
        Some(shape) => shape.effective_name() == name && shape.layout == layout,
        None => false,
    }
}

// The number of rows before the first one that comes out otherwise, and of all shapes then.
fn rows_made(alloc: Global) -> Result<(u32, usize), AllocError> {
    let mut shapes = registry(alloc)?;
    let mut made = 0u32;
    for (maker, a, b, name, layout, kind) in rows() {
        let Some(id) = make(alloc, &mut shapes, maker, ShapeId(a), ShapeId(b))? else {
            break;
        };
        if !is_as_listed(&shapes, id, name, layout, kind) {
            break;
        }
        made = made.saturating_add(1);
    }
    Ok((made, shapes.len()))
}

#[test]
fn each_maker_drafts_its_row(rt: HostRuntime) -> Result<(), Fail> {
    assert_eq!(rt; rows_made(rt.alloc())?, (17, 34));
    Ok(())
}

// Whether the tuple of the shapes of these ids has this identifier and layout.
fn is_tuple(
    alloc: Global,
    parts: &[ShapeId],
    name: &str,
    layout: ShapeLayout,
) -> Result<bool, AllocError> {
    let mut shapes = registry(alloc)?;
    let len = shapes.len();
    if len >= 100 || parts.is_empty() || parts.len() > 12 {
        return Ok(false);
    }
    if !parts.iter().all(|t| (t.0 as usize) < len) {
        return Ok(false);
    }
    let id = tuple_of(alloc, &mut shapes, parts)?;
    Ok(is_as_listed(&shapes, id, name, layout, ValueKind::Struct))
}

// The same of four tuples: of one part, of three, of the shape with alignment 0, and of twelve.
fn tuples(alloc: Global) -> Result<[bool; 4], AllocError> {
    let twelve = [4, 5, 4, 6, 4, 7, 4, 8, 4, 3, 0, 1].map(ShapeId);
    Ok([
        is_tuple(alloc, &[ShapeId(4)], "(_,)", sized(1, 1))?,
        is_tuple(
            alloc,
            &[ShapeId(4), ShapeId(6), ShapeId(5)],
            "(…)",
            sized(12, 4),
        )?,
        is_tuple(alloc, &[ShapeId(4), ShapeId(16)], "(…)", sized(9, 1))?,
        is_tuple(alloc, &twelve, "(…)", sized(96, 16))?,
    ])
}

#[test]
fn tuples_have_their_parts_in_order_and_aligned(rt: HostRuntime) -> Result<(), Fail> {
    assert_eq!(rt; tuples(rt.alloc())?, [true; 4]);
    Ok(())
}
