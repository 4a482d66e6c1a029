ghost use Rattle.std.specs.Prelude.{◌≡◌, option_map};
ghost use Rattle.std.specs.Result.{result_ok};
ghost use Rattle.facet_base.specs.declared.layout.ShapeLayout.TheVariants.{Sized, Unsized};
ghost use Rattle.facet_shape.specs.ShapeBuilder.{built, declared_id, fresh_shape as fresh, has_parameters, hashed_id, with_resolved_type};
ghost use Rattle.facet_shape.specs.WithoutSpare.{shape_without_spare};

mod flags;
mod members;

use crate::errors::MissingDeclId;
use crate::shape::{Shape, UNSIZED_LAYOUT};
use facet_base::{
    DeclId, Flags, Layout, Many, MarkerTraits, ShapeFlags, ShapeId, ShapeLayout, Text,
    VarianceDesc, decl_id_hash, decl_id_hash_extern,
};
use facet_caps::{VTableDirect, VTableErased};
use facet_def::Def;
use facet_desc::Ty;
use std::alloc::Global;
use std::marker::Model;

/// Builds a shape. Contracts see the shape so far.
#[derive(Drop)]
pub struct ShapeBuilder {
    shape: Shape,
}

impl Model for ShapeBuilder {
    ghost use Rattle.facet_shape.specs.declared.shape.Shape.{Shape};

    ghost Value = { Shape };

    ghost view = { λ b. b.shape };
}

impl ShapeBuilder {
    /// The shape of a type of this identifier whose values have this layout, with nothing else set. It takes
    /// no memory.
    pub fn for_sized(alloc: Global, type_identifier: Text, layout: Layout) -> ShapeBuilder
        ensures { shape_without_spare result ≡ fresh type_identifier (Sized layout) }
    {
        ShapeBuilder {
            shape: fresh_shape(alloc, type_identifier, ShapeLayout::Sized(layout)),
        }
    }

    /// The shape of a type of this identifier whose values share no layout, with nothing else set. It takes no
    /// memory.
    pub fn for_unsized(alloc: Global, type_identifier: Text) -> ShapeBuilder
        ensures { shape_without_spare result ≡ fresh type_identifier Unsized }
    {
        ShapeBuilder {
            shape: fresh_shape(alloc, type_identifier, UNSIZED_LAYOUT),
        }
    }

    /// The shape as it was built, with the definition's default type in place of an undefined one, and with its
    /// declaration id. It is refused exactly where that id is 0, there are parameters, and the module path is
    /// missing.
    pub fn build(self) -> Result<Shape, MissingDeclId>
        ensures { result_ok result ≡ built self }
    {
        let mut shape = resolve_type(self.shape);
        match find_decl_id(&shape) {
            Some(decl_id) => {
                shape.decl_id = decl_id;
                Ok(shape)
            }
            None => Err(MissingDeclId),
        }
    }
}

// The shape of this identifier and layout, with nothing else set.
#[tactic(auto, unfolding(crate::specs::ShapeBuilder::fresh_shape))]
fn fresh_shape(alloc: Global, type_identifier: Text, layout: ShapeLayout) -> Shape
    ensures { shape_without_spare result ≡ fresh type_identifier layout }
{
    Shape {
        id: ShapeId(0),
        decl_id: DeclId(0),
        layout,
        vtable: VTableErased::Direct(VTableDirect::empty()),
        type_ops: None,
        marker_traits: MarkerTraits::empty(),
        ty: Ty::Undefined,
        def: Def::Undefined,
        type_identifier,
        module_path: None,
        source_file: None,
        source_line: None,
        source_column: None,
        type_params: Many::new(alloc),
        const_params: Many::new(alloc),
        doc: Many::new(alloc),
        attributes: Many::new(alloc),
        type_tag: None,
        inner: None,
        builder_shape: None,
        type_name: None,
        proxy: None,
        format_proxies: Many::new(alloc),
        opaque_adapter: None,
        variance: VarianceDesc::bivariant(alloc),
        flags: ShapeFlags::empty(),
        tag: None,
        content: None,
        rename: None,
        scalar: None,
    }
}

// The shape with the definition's default type in place of an undefined one.
fn resolve_type(mut shape: Shape) -> Shape
    ensures { result ≡ with_resolved_type shape }
{
    if matches!(shape.ty, Ty::Undefined) {
        shape.ty = shape.def.default_type();
    }
    shape
}

// The declaration id of a shape whose type is resolved.
fn find_decl_id(shape: &Shape) -> Option<DeclId>
    ensures { option_map (λ id. id.0) result ≡ declared_id shape.now }
{
    if shape.decl_id.0 == 0 {
        hash_decl_id(shape).map(DeclId::new)
    } else {
        Some(shape.decl_id)
    }
}

// The hash that is the declaration id where none is given.
fn hash_decl_id(shape: &Shape) -> Option<u128>
    ensures { result ≡ hashed_id shape.now }
{
    let identifier = shape.type_identifier.as_str();
    if !is_generic(shape) {
        return Some(decl_id_hash(identifier));
    }
    let module_path = shape.module_path.as_ref()?;
    let kind = shape.ty.kind_str();
    Some(decl_id_hash_extern(module_path.as_str(), kind, identifier))
}

// Whether it has a type or a const parameter.
fn is_generic(shape: &Shape) -> bool
    ensures { result ≡ has_parameters shape.now }
{
    !shape.type_params.as_slice().is_empty() || !shape.const_params.as_slice().is_empty()
}
