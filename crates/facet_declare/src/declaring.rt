ghost use Rattle.std.specs.Prelude.{◌≡◌, ◌<◌, ◌^◌, ◌-◌, length, IfOk, OnErr, OnOk};
ghost use Rattle.facet_declare.specs.Outcome.{HasPartsOfTuple, answer_to, declared_by, with_declared};
ghost use Rattle.facet_registry.specs.Registry.{all_shapes};

use crate::described::{Head, sized};
use crate::makers::{
    declare_array, declare_box, declare_boxed_slice, declare_list, declare_map, declare_option,
    declare_result, declare_set, declare_slice, declare_tuple,
};
use crate::refusal::DeclarationRefusal;
use crate::types::{declare_enum, declare_opaque, declare_scalar, declare_struct};
use facet_base::ShapeId;
use facet_declaration::Decl;
use facet_desc::StructKind;
use facet_leaf::Leaf;
use facet_registry::Shapes;
use facet_shape::UNSIZED_LAYOUT;
use std::alloc::{AllocError, Global};

/// Drafts the shape that a declaration describes, and returns its id. A refusal changes nothing, as does out of memory.
/// Requires that there are fewer than 4,294,967,295 shapes, and that a tuple has 1 to 12 parts.
pub fn declare<L: Leaf>(
    alloc: Global,
    shapes: &mut Shapes<L>,
    decl: &Decl,
) -> Result<Result<ShapeId, DeclarationRefusal>, AllocError>
    requires room { length (all_shapes shapes.old) < 2 ^ 32 - 1 }
    requires parts { HasPartsOfTuple decl.now }
    ensures answer { IfOk result (λ answer. answer ≡ answer_to shapes.old (declared_by L.model (all_shapes shapes.old) decl.now)) }
    ensures ok { OnOk result (shapes.new ≡ with_declared shapes.old (declared_by L.model (all_shapes shapes.old) decl.now)) }
    ensures err { OnErr result (shapes.new ≡ shapes.old) }
{
    match decl {
        Decl::OptionOf(t) => declare_option(alloc, shapes, *t),
        Decl::ListOf(t) => declare_list(alloc, shapes, *t),
        Decl::SetOf(t) => declare_set(alloc, shapes, *t),
        Decl::SliceOf(t) => declare_slice(alloc, shapes, *t),
        Decl::BoxOf(t) => declare_box(alloc, shapes, *t),
        Decl::BoxedSliceOf(t) => declare_boxed_slice(alloc, shapes, *t),
        Decl::ArrayOf(t, n) => declare_array(alloc, shapes, *t, *n),
        Decl::MapOf(k, v) => declare_map(alloc, shapes, *k, *v),
        Decl::ResultOf(t, e) => declare_result(alloc, shapes, *t, *e),
        Decl::TupleOf(parts) => declare_tuple(alloc, shapes, parts.as_slice()),
        Decl::Struct(name, size, align, caps, options, fields) => declare_struct(
            alloc,
            shapes,
            StructKind::Struct,
            name,
            Head {
                size: *size,
                align: *align,
                caps: *caps,
            },
            options.as_slice(),
            fields.as_slice(),
        ),
        Decl::TupleStruct(name, size, align, caps, options, fields) => declare_struct(
            alloc,
            shapes,
            StructKind::TupleStruct,
            name,
            Head {
                size: *size,
                align: *align,
                caps: *caps,
            },
            options.as_slice(),
            fields.as_slice(),
        ),
        Decl::Enum(name, size, align, repr, caps, options, variants) => declare_enum(
            alloc,
            shapes,
            name,
            Head {
                size: *size,
                align: *align,
                caps: *caps,
            },
            *repr,
            options.as_slice(),
            variants.as_slice(),
        ),
        Decl::Opaque(name, size, align, options) => {
            declare_opaque(
                alloc,
                shapes,
                name,
                sized(*size, *align),
                options.as_slice(),
            )
        }
        Decl::OpaqueUnsized(name, options) => {
            declare_opaque(alloc, shapes, name, UNSIZED_LAYOUT, options.as_slice())
        }
        Decl::Scalar(name, kind, size, align, caps) => {
            declare_scalar(
                alloc,
                shapes,
                name,
                Head {
                    size: *size,
                    align: *align,
                    caps: *caps,
                },
                *kind,
            )
        }
    }
}
