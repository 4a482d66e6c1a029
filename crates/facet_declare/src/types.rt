ghost use Rattle.std.specs.Prelude.{◌≡◌, ◌<◌, ◌^◌, ◌-◌, length, IfOk, OnErr, OnOk};
ghost use Rattle.facet_declare.specs.Described.{enum_described, opaque_described, scalar_described, struct_described};
ghost use Rattle.facet_declare.specs.Options.{options_of as all_options};
ghost use Rattle.facet_declare.specs.Outcome.{answer_to, declared_type, with_declared};
ghost use Rattle.facet_shape.specs.ShapeBuilder.{built};
ghost use Rattle.facet_shape.specs.WithoutSpare.{shape_without_spare};
ghost use Rattle.facet_registry.specs.Registry.{all_shapes};

use crate::described::{Head, enum_type, opaque, scalar, struct_type};
use crate::options::options_of;
use crate::refusal::DeclarationRefusal;
use facet_base::{ScalarType, ShapeId, ShapeLayout, Text};
use facet_declaration::{FieldDecl, VariantDecl};
use facet_desc::{EnumRepr, StructKind};
use facet_leaf::Leaf;
use facet_makers::draft;
use facet_registry::Shapes;
use facet_shape::ShapeBuilder;
use facet_words::Opt;
use std::alloc::{AllocError, Global};

// Drafts what a builder builds.
fn finish<L: Leaf>(
    shapes: &mut Shapes<L>,
    builder: ShapeBuilder,
) -> Result<Result<ShapeId, DeclarationRefusal>, AllocError>
    requires { length (all_shapes shapes.old) < 2 ^ 32 - 1 }
    ensures answer { IfOk result (λ answer. answer ≡ answer_to shapes.old (declared_type (built (shape_without_spare builder)))) }
    ensures ok { OnOk result (shapes.new ≡ with_declared shapes.old (declared_type (built (shape_without_spare builder)))) }
    ensures err { OnErr result (shapes.new ≡ shapes.old) }
{
    match builder.build() {
        Ok(shape) => Ok(Ok(draft(shapes, shape)?)),
        Err(_) => Ok(Err(DeclarationRefusal::MissingDeclId)),
    }
}

/// Declares a struct of a kind.
pub fn declare_struct<L: Leaf>(
    alloc: Global,
    shapes: &mut Shapes<L>,
    kind: StructKind,
    name: &Text,
    head: Head,
    options: &[Opt],
    fields: &[FieldDecl],
) -> Result<Result<ShapeId, DeclarationRefusal>, AllocError>
    requires { length (all_shapes shapes.old) < 2 ^ 32 - 1 }
    ensures answer { IfOk result (λ answer. answer ≡ answer_to shapes.old (declared_type (built
        (struct_described kind name.now head.size head.align head.caps (all_options options.now) fields.now)))) }
    ensures ok { OnOk result (shapes.new ≡ with_declared shapes.old (declared_type (built
        (struct_described kind name.now head.size head.align head.caps (all_options options.now) fields.now)))) }
    ensures err { OnErr result (shapes.new ≡ shapes.old) }
{
    let options = options_of(alloc, options)?;
    let builder = struct_type(alloc, kind, name, head, options, fields)?;
    finish(shapes, builder)
}

/// Declares an enum.
pub fn declare_enum<L: Leaf>(
    alloc: Global,
    shapes: &mut Shapes<L>,
    name: &Text,
    head: Head,
    enum_repr: EnumRepr,
    options: &[Opt],
    variants: &[VariantDecl],
) -> Result<Result<ShapeId, DeclarationRefusal>, AllocError>
    requires { length (all_shapes shapes.old) < 2 ^ 32 - 1 }
    ensures answer { IfOk result (λ answer. answer ≡ answer_to shapes.old (declared_type (built
        (enum_described name.now head.size head.align enum_repr head.caps (all_options options.now) variants.now)))) }
    ensures ok { OnOk result (shapes.new ≡ with_declared shapes.old (declared_type (built
        (enum_described name.now head.size head.align enum_repr head.caps (all_options options.now) variants.now)))) }
    ensures err { OnErr result (shapes.new ≡ shapes.old) }
{
    let options = options_of(alloc, options)?;
    let builder = enum_type(alloc, name, head, enum_repr, options, variants)?;
    finish(shapes, builder)
}

/// Declares an opaque type of a layout.
pub fn declare_opaque<L: Leaf>(
    alloc: Global,
    shapes: &mut Shapes<L>,
    name: &Text,
    layout: ShapeLayout,
    options: &[Opt],
) -> Result<Result<ShapeId, DeclarationRefusal>, AllocError>
    requires { length (all_shapes shapes.old) < 2 ^ 32 - 1 }
    ensures answer { IfOk result (λ answer. answer ≡ answer_to shapes.old (declared_type (built
        (opaque_described name.now layout (all_options options.now))))) }
    ensures ok { OnOk result (shapes.new ≡ with_declared shapes.old (declared_type (built
        (opaque_described name.now layout (all_options options.now))))) }
    ensures err { OnErr result (shapes.new ≡ shapes.old) }
{
    let options = options_of(alloc, options)?;
    let builder = opaque(alloc, name, layout, options)?;
    finish(shapes, builder)
}

/// Declares a scalar of a kind.
pub fn declare_scalar<L: Leaf>(
    alloc: Global,
    shapes: &mut Shapes<L>,
    name: &Text,
    head: Head,
    kind: ScalarType,
) -> Result<Result<ShapeId, DeclarationRefusal>, AllocError>
    requires { length (all_shapes shapes.old) < 2 ^ 32 - 1 }
    ensures answer { IfOk result (λ answer. answer ≡ answer_to shapes.old (declared_type (built
        (scalar_described name.now kind head.size head.align head.caps)))) }
    ensures ok { OnOk result (shapes.new ≡ with_declared shapes.old (declared_type (built
        (scalar_described name.now kind head.size head.align head.caps)))) }
    ensures err { OnErr result (shapes.new ≡ shapes.old) }
{
    let builder = scalar(alloc, name, head, kind)?;
    finish(shapes, builder)
}
