ghost use Rattle.facet_base.specs.declared.layout.ShapeLayout.TheVariants.{Sized, Unsized};
ghost use Rattle.std.specs.Prelude.{◌≡◌};
ghost use Rattle.facet_shape.specs.ShapeBuilder.{fresh_shape};
ghost use Rattle.facet_shape.specs.WithoutSpare.{shape_without_spare};

use crate::shape_builder::ShapeBuilder;
use facet_base::{
    DeclId, Layout, Many, MarkerTraits, NameForm, ScalarType, ShapeFlags, ShapeId, ShapeLayout,
    Text, VarianceDesc,
};
use facet_caps::{TypeOps, VTableErased};
use facet_def::Def;
use facet_desc::{Attr, ConstParam, FormatProxy, OpaqueAdapterDef, ProxyDef, Ty, TypeParam};
use std::alloc::Global;

/// The layout of a type whose values share none.
pub const UNSIZED_LAYOUT: ShapeLayout = ShapeLayout::Unsized;

/// What is known of a type. Sizes and offsets are in bytes. The id is 0 until a registry assigns one.
#[derive(Drop)]
pub struct Shape {
    pub id: ShapeId,
    pub decl_id: DeclId,
    pub layout: ShapeLayout,
    pub vtable: VTableErased,
    pub type_ops: Option<TypeOps>,
    pub marker_traits: MarkerTraits,
    pub ty: Ty,
    pub def: Def,
    pub type_identifier: Text,
    pub module_path: Option<Text>,
    pub source_file: Option<Text>,
    pub source_line: Option<u32>,
    pub source_column: Option<u32>,
    pub type_params: Many<TypeParam>,
    pub const_params: Many<ConstParam>,
    pub doc: Many<Text>,
    pub attributes: Many<Attr>,
    pub type_tag: Option<Text>,
    pub inner: Option<ShapeId>,
    pub builder_shape: Option<ShapeId>,
    pub type_name: Option<NameForm>,
    pub proxy: Option<ProxyDef>,
    pub format_proxies: Many<FormatProxy>,
    pub opaque_adapter: Option<OpaqueAdapterDef>,
    pub variance: VarianceDesc,
    pub flags: ShapeFlags,
    pub tag: Option<Text>,
    pub content: Option<Text>,
    pub rename: Option<Text>,
    pub scalar: Option<ScalarType>,
}

impl Shape {
    /// Begins the shape of a type of this identifier whose values have this layout, with nothing else set.
    /// It takes no memory.
    pub fn builder_for_sized(alloc: Global, type_identifier: Text, layout: Layout) -> ShapeBuilder
        ensures { shape_without_spare result ≡ fresh_shape type_identifier (Sized layout) }
    {
        ShapeBuilder::for_sized(alloc, type_identifier, layout)
    }

    /// Begins the shape of a type of this identifier whose values share no layout, with nothing else set.
    /// It takes no memory.
    pub fn builder_for_unsized(alloc: Global, type_identifier: Text) -> ShapeBuilder
        ensures { shape_without_spare result ≡ fresh_shape type_identifier Unsized }
    {
        ShapeBuilder::for_unsized(alloc, type_identifier)
    }
}
