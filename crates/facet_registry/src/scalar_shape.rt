ghost use Rattle.std.specs.Prelude.{◌≡◌, IfOk};
ghost use Rattle.facet_shape.specs.WithoutSpare.{shape_without_spare};
ghost use Rattle.facet_registry.specs.Prelude.{whole, scalar_ty, scalar_markers, in_module, scalar_vtable as vtable_of, scalar_ops as ops_of, with_scalar, scalar_shape as shape_of};

use facet_base::{Characteristic, Flags, MarkerTraits, ScalarType, ShapeId, Text};
use facet_caps::{TypeOpsDirect, VTableDirect};
use facet_def::Def;
use facet_desc::{NumericType, PrimitiveType, TextualType, Ty, UserType};
use facet_leaf::{Leaf, LeafHook};
use facet_outline::scalar_layout;
use facet_shape::{Shape, ShapeBuilder};
use std::alloc::{AllocError, Global};

/// The shape of the scalars of a kind, under an id.
pub fn scalar_shape<L: Leaf>(
    alloc: Global,
    id: ShapeId,
    kind: ScalarType,
) -> Result<Shape, AllocError>
    ensures { IfOk result (λ shape. shape_without_spare shape ≡ shape_of L.model id.0 kind) }
{
    let identifier = Text::new(alloc, kind.identifier())?;
    let fresh = ShapeBuilder::for_unsized(alloc, identifier);
    match described::<L>(alloc, fresh, kind)?.build() {
        Ok(shape) => Ok(Shape { id, ..shape }),
        Err(_) => unreachable!(),
    }
}

// The builder with the members of the scalars of a kind.
fn described<L: Leaf>(
    alloc: Global,
    builder: ShapeBuilder,
    kind: ScalarType,
) -> Result<ShapeBuilder, AllocError>
    ensures { IfOk result (λ shape. shape ≡ with_scalar L.model kind builder) }
{
    let builder = builder
        .layout(scalar_layout(kind))
        .vtable_direct(scalar_vtable::<L>(kind))
        .type_ops_direct(scalar_ops::<L>(kind))
        .marker_traits(marker_traits(kind))
        .ty(scalar_type(kind))
        .def(Def::Scalar)
        .scalar(kind);
    with_module(alloc, builder, kind)
}

// The shape in the module of the scalars of a kind, where they aren't built in.
fn with_module(
    alloc: Global,
    builder: ShapeBuilder,
    kind: ScalarType,
) -> Result<ShapeBuilder, AllocError>
    ensures { IfOk result (λ shape. shape ≡ in_module kind builder) }
{
    match kind {
        ScalarType::String => Ok(builder.module_path(Text::new(alloc, "alloc::string")?)),
        _ => Ok(builder),
    }
}

// What can be asked of the scalars of a kind.
fn scalar_vtable<L: Leaf>(kind: ScalarType) -> VTableDirect
    ensures { result ≡ vtable_of L.model kind }
{
    if kind == ScalarType::Unit {
        return VTableDirect {
            debug: true,
            hash: true,
            partial_eq: true,
            partial_cmp: true,
            cmp: true,
            ..VTableDirect::empty()
        };
    }
    VTableDirect {
        display: L::can(kind, Characteristic::Display),
        debug: L::can(kind, Characteristic::Debug),
        hash: L::can(kind, Characteristic::Hash),
        invariants: L::hook(kind, LeafHook::Invariants),
        parse: L::can(kind, Characteristic::FromStr),
        parse_bytes: L::hook(kind, LeafHook::ParseBytes),
        try_from: L::hook(kind, LeafHook::TryFrom),
        partial_eq: L::can(kind, Characteristic::PartialEq),
        partial_cmp: L::can(kind, Characteristic::PartialOrd),
        cmp: L::can(kind, Characteristic::Ord),
        ..VTableDirect::empty()
    }
}

// Whether they have a default and clones, and count as true or not.
fn scalar_ops<L: Leaf>(kind: ScalarType) -> TypeOpsDirect
    ensures { result ≡ ops_of L.model kind }
{
    let is_unit = kind == ScalarType::Unit;
    TypeOpsDirect {
        drop_in_place: false,
        default_in_place: is_unit || L::can(kind, Characteristic::Default),
        clone_into: is_unit || L::can(kind, Characteristic::Clone),
        is_truthy: !is_unit && L::hook(kind, LeafHook::Truthy),
    }
}

// All markers, for a String without COPY.
fn marker_traits(kind: ScalarType) -> MarkerTraits
    ensures { result.bits ≡ scalar_markers kind }
{
    let markers = MarkerTraits::SEND
        | MarkerTraits::SYNC
        | MarkerTraits::EQ
        | MarkerTraits::UNPIN
        | MarkerTraits::UNWIND_SAFE
        | MarkerTraits::REF_UNWIND_SAFE;
    match kind {
        ScalarType::String => markers,
        _ => markers | MarkerTraits::COPY,
    }
}

// The type of the scalars of a kind.
fn scalar_type(kind: ScalarType) -> Ty
    ensures { result ≡ scalar_ty kind }
{
    match kind {
        ScalarType::Unit | ScalarType::String => Ty::User(UserType::Opaque),
        ScalarType::Bool => Ty::Primitive(PrimitiveType::Boolean),
        ScalarType::Char => Ty::Primitive(PrimitiveType::Textual(TextualType::Char)),
        ScalarType::Str => Ty::Primitive(PrimitiveType::Textual(TextualType::Str)),
        ScalarType::I8
        | ScalarType::I16
        | ScalarType::I32
        | ScalarType::I64
        | ScalarType::I128
        | ScalarType::ISize => whole_number(true),
        ScalarType::U8
        | ScalarType::U16
        | ScalarType::U32
        | ScalarType::U64
        | ScalarType::U128
        | ScalarType::USize => whole_number(false),
    }
}

// The type of whole numbers with a sign or without.
fn whole_number(signed: bool) -> Ty
    ensures { result ≡ whole signed }
{
    Ty::Primitive(PrimitiveType::Numeric(NumericType::Integer { signed }))
}
