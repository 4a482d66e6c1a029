ghost use Rattle.std.specs.Prelude.{◌≡◌, IfOk};
ghost use Rattle.facet_declare.specs.Described.{capabilities as capabilities_of, enum_described, opaque_described, operations as operations_of, scalar_described, struct_described, type_described};
ghost use Rattle.facet_desc.specs.WithoutSpare.{ty_without_spare};
ghost use Rattle.facet_outline.specs.Layout.{sized as sized_layout};
ghost use Rattle.facet_shape.specs.WithoutSpare.{shape_without_spare};

use crate::options::{Options, begin};
use crate::parts::{declared_struct, declared_variants};
use facet_base::{Layout, ScalarType, ShapeLayout, Text};
use facet_caps::{TypeOpsDirect, VTableDirect};
use facet_declaration::{FieldDecl, VariantDecl};
use facet_def::Def;
use facet_desc::{EnumRepr, EnumType, StructKind, Ty, UserType};
use facet_shape::ShapeBuilder;
use facet_words::Caps;
use std::alloc::{AllocError, Global};

/// The size and the alignment of a declared type in bytes, and what its values can do.
#[derive(Clone, Copy)]
pub struct Head {
    pub size: u32,
    pub align: u32,
    pub caps: Caps,
}

// The capabilities that the letters name.
fn capabilities(caps: Caps) -> VTableDirect
    ensures { result ≡ capabilities_of caps }
{
    VTableDirect {
        display: caps.display,
        debug: caps.debug,
        hash: caps.hash,
        parse: caps.parse,
        partial_eq: caps.partial_eq,
        partial_cmp: caps.partial_cmp,
        cmp: caps.cmp,
        ..VTableDirect::empty()
    }
}

// The operations that they name.
fn operations(caps: Caps) -> TypeOpsDirect
    ensures { result ≡ operations_of caps }
{
    TypeOpsDirect {
        drop_in_place: false,
        default_in_place: caps.default_in_place,
        clone_into: caps.clone_into,
        is_truthy: false,
    }
}

/// A size and an alignment, in bytes.
pub fn sized(size: u32, align: u32) -> ShapeLayout
    ensures { result ≡ sized_layout size align }
{
    ShapeLayout::Sized(Layout {
        size: size as usize,
        align: align as usize,
    })
}

/// The shape of an opaque type of this name and layout.
pub fn opaque(
    alloc: Global,
    name: &Text,
    layout: ShapeLayout,
    options: Options,
) -> Result<ShapeBuilder, AllocError>
    ensures { IfOk result (λ builder. shape_without_spare builder ≡ opaque_described name.now layout options) }
{
    Ok(begin(alloc, name, layout, options)?.ty(Ty::User(UserType::Opaque)))
}

// The shape of a type of this name, size and alignment whose values can do what the letters name.
fn described(
    alloc: Global,
    name: &Text,
    head: Head,
    options: Options,
    ty: Ty,
) -> Result<ShapeBuilder, AllocError>
    ensures { IfOk result (λ builder. shape_without_spare builder ≡ type_described name.now head.size head.align head.caps options (ty_without_spare ty)) }
{
    let builder = begin(alloc, name, sized(head.size, head.align), options)?
        .vtable_direct(capabilities(head.caps))
        .type_ops_direct(operations(head.caps))
        .ty(ty);
    Ok(builder)
}

/// The shape of a struct of a kind.
pub fn struct_type(
    alloc: Global,
    kind: StructKind,
    name: &Text,
    head: Head,
    options: Options,
    fields: &[FieldDecl],
) -> Result<ShapeBuilder, AllocError>
    ensures { IfOk result (λ builder. shape_without_spare builder ≡ struct_described kind name.now head.size head.align head.caps options fields.now) }
{
    let made = declared_struct(alloc, options.repr, kind, fields)?;
    let ty = Ty::User(UserType::Struct(made));
    described(alloc, name, head, options, ty)
}

/// The shape of an enum.
pub fn enum_type(
    alloc: Global,
    name: &Text,
    head: Head,
    enum_repr: EnumRepr,
    options: Options,
    variants: &[VariantDecl],
) -> Result<ShapeBuilder, AllocError>
    ensures { IfOk result (λ builder. shape_without_spare builder ≡ enum_described name.now head.size head.align enum_repr head.caps options variants.now) }
{
    let made = EnumType {
        repr: options.repr,
        enum_repr,
        variants: declared_variants(alloc, variants)?,
        is_cow: false,
    };
    let ty = Ty::User(UserType::Enum(made));
    described(alloc, name, head, options, ty)
}

/// The shape of a scalar of a kind.
pub fn scalar(
    alloc: Global,
    name: &Text,
    head: Head,
    kind: ScalarType,
) -> Result<ShapeBuilder, AllocError>
    ensures { IfOk result (λ builder. shape_without_spare builder ≡ scalar_described name.now kind head.size head.align head.caps) }
{
    let builder = ShapeBuilder::for_unsized(alloc, name.try_clone(alloc)?)
        .layout(sized(head.size, head.align))
        .vtable_direct(capabilities(head.caps))
        .type_ops_direct(operations(head.caps))
        .ty(Ty::User(UserType::Opaque))
        .def(Def::Scalar)
        .scalar(kind);
    Ok(builder)
}
