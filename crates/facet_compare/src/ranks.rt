ghost use Rattle.std.specs.Prelude.{◌≡◌, ◌<◌, length, pos, slice_get, unwrap_or};
ghost use Rattle.facet_outline.specs.Discriminant.{discriminants, discriminants_of_kind};
ghost use Rattle.facet_trees.specs.Answered.{rank_at};
ghost use Rattle.facet_trees.specs.Structure.{tag_of_form};

use facet_base::ShapeId;
use facet_desc::{Ty, UserType, Variant};
use facet_leaf::Leaf;
use facet_registry::{Shapes, ValueKind};
use facet_trees::Form;
use facet_walk::sealed_shape;

/// By what the forms of the values of a sealed shape are compared: of a variant its discriminant, else the tag.
pub(crate) fn rank_of<L: Leaf>(shapes: &Shapes<L>, id: ShapeId, form: Form) -> i64
    requires { id.0 < length shapes.now.sealed }
    ensures { result ≡ rank_at shapes.now.sealed id.0 form }
{
    rank_by_kind(
        shapes.kind_of(id),
        &sealed_shape(shapes, id).ty,
        tag_of(form),
    )
}

// The same by the kind and the type of the shape, and by the tag of the form.
fn rank_by_kind(kind: ValueKind, ty: &Ty, tag: u32) -> i64
    ensures { result ≡ unwrap_or (slice_get (discriminants_of_kind kind ty.now) tag) (pos tag) }
{
    match (kind, ty) {
        (ValueKind::Enum, Ty::User(UserType::Enum(enum_type))) => {
            discriminant_at(enum_type.variants.as_slice(), tag)
        }
        _ => tag as i64,
    }
}

// The tag of the values of a form; without one it is 0.
fn tag_of(form: Form) -> u32
    ensures { result ≡ tag_of_form form }
{
    match form {
        Form::Variant(tag) => tag,
        Form::Present | Form::Err => 1,
        _ => 0,
    }
}

// The discriminant of the variant at an index, or else the index.
fn discriminant_at(variants: &[Variant], index: u32) -> i64
    ensures { result ≡ unwrap_or (slice_get (discriminants variants.now) index) (pos index) }
{
    match variants.get(index as usize) {
        Some(variant) => variant.discriminant.unwrap_or(index as i64),
        None => index as i64,
    }
}
