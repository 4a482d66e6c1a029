ghost use Rattle.std.specs.Prelude.{◌≡◌, ◌<◌, ◌-◌, ◌^◌, length, IfOk, OnOk, OnErr, IsFalse, IsTrue};
ghost use Rattle.facet_shape.specs.WithoutSpare.{shape_without_spare};
ghost use Rattle.facet_registry.specs.Registry.{all_shapes, with_draft};
ghost use Rattle.facet_makers.specs.Makers.{box_of, box_shape, boxed_slice_shape};
ghost use Rattle.facet_makers.specs.Slices.{is_slice_at};

use crate::drafting::draft;
use crate::generic::{in_module, with_parameter};
use crate::offering::offering;
use crate::operations::{box_operations, boxed_slice_operations};
use facet_base::{Flags, KnownPointer, Layout, NameForm, PointerFlags, ShapeId, ShapeLayout};
use facet_caps::PointerVTable;
use facet_def::{Def, PointerDef};
use facet_desc::{Ty, UserType};
use facet_leaf::Leaf;
use facet_outline::ValueKind;
use facet_registry::Shapes;
use facet_shape::Shape;
use std::alloc::{AllocError, Global};

/// Drafts the shape of a box of the shape `t`, `Box<T>`. A refusal changes nothing.
/// Requires that `t` is below `len()`, that it is no slice, and that there are fewer than 4,294,967,295 shapes.
pub fn box_of<L: Leaf>(
    alloc: Global,
    shapes: &mut Shapes<L>,
    t: ShapeId,
) -> Result<ShapeId, AllocError>
    requires t { t.0 < length (all_shapes shapes.old) }
    requires sized { IsFalse (is_slice_at (all_shapes shapes.old) t.0) }
    requires room { length (all_shapes shapes.old) < 2 ^ 32 - 1 }
    ensures id { IfOk result (λ id. id.0 ≡ length (all_shapes shapes.old)) }
    ensures ok { OnOk result (shapes.new ≡ with_draft shapes.old (box_shape L.model t)) }
    ensures err { OnErr result (shapes.new ≡ shapes.old) }
{
    draft(shapes, box_shape::<L>(alloc, t)?)
}

// The shape of a box.
fn box_shape<L: Leaf>(alloc: Global, t: ShapeId) -> Result<Shape, AllocError>
    ensures { IfOk result (λ shape. shape_without_spare shape ≡ box_shape L.model t) }
{
    let layout = Layout { size: 8, align: 8 };
    let shape = in_module(
        alloc,
        "Box",
        "alloc::boxed",
        Ty::User(UserType::Opaque),
        ShapeLayout::Sized(layout),
    )?;
    let shape = with_parameter(alloc, shape, "T", t)?;
    Ok(Shape {
        def: box_def(box_operations(), t),
        type_name: Some(NameForm::Box),
        ..offering::<L>(shape, ValueKind::Box)
    })
}

/// Drafts the shape of a box of the slice `t`, `Box<[T]>`. A refusal changes nothing.
/// Requires that `t` is below `len()`, that it is a slice, and that there are fewer than 4,294,967,295 shapes.
pub fn boxed_slice_of<L: Leaf>(
    alloc: Global,
    shapes: &mut Shapes<L>,
    t: ShapeId,
) -> Result<ShapeId, AllocError>
    requires t { t.0 < length (all_shapes shapes.old) }
    requires slice { IsTrue (is_slice_at (all_shapes shapes.old) t.0) }
    requires room { length (all_shapes shapes.old) < 2 ^ 32 - 1 }
    ensures id { IfOk result (λ id. id.0 ≡ length (all_shapes shapes.old)) }
    ensures ok { OnOk result (shapes.new ≡ with_draft shapes.old (boxed_slice_shape L.model t)) }
    ensures err { OnErr result (shapes.new ≡ shapes.old) }
{
    draft(shapes, boxed_slice_shape::<L>(alloc, t)?)
}

// The shape of a boxed slice.
fn boxed_slice_shape<L: Leaf>(alloc: Global, t: ShapeId) -> Result<Shape, AllocError>
    ensures { IfOk result (λ shape. shape_without_spare shape ≡ boxed_slice_shape L.model t) }
{
    let layout = Layout { size: 16, align: 8 };
    let shape = in_module(
        alloc,
        "Box",
        "alloc::boxed",
        Ty::User(UserType::Opaque),
        ShapeLayout::Sized(layout),
    )?;
    let shape = with_parameter(alloc, shape, "T", t)?;
    Ok(Shape {
        def: box_def(boxed_slice_operations(), t),
        type_name: Some(NameForm::Box),
        ..offering::<L>(shape, ValueKind::BoxedSlice)
    })
}

// The definition of a box of the shape that it points to.
fn box_def(vtable: PointerVTable, t: ShapeId) -> Def
    ensures { result ≡ box_of vtable t }
{
    Def::Pointer(PointerDef {
        vtable,
        pointee: Some(t),
        weak: None,
        strong: None,
        flags: PointerFlags::empty(),
        known: Some(KnownPointer::Box),
    })
}
