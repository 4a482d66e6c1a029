ghost use Rattle.std.specs.Prelude.{◌≡◌, ◌<◌, ◌≤◌, ◌^◌, ◌-◌, length, IfOk, OnErr, OnOk};
ghost use Rattle.std.specs.List.{list_any};
ghost use Rattle.facet_declaration.specs.declared.declaration.Decl.TheVariants as decl;
ghost use Rattle.facet_declare.specs.Outcome.{answer_to, declared_by, is_missing as has_no_shape, with_declared};
ghost use Rattle.facet_registry.specs.Registry.{all_shapes};

use crate::refusal::DeclarationRefusal;
use facet_base::ShapeId;
use facet_leaf::Leaf;
use facet_makers::{
    array_of, box_of, boxed_slice_of, is_slice, list_of, map_of, option_of, result_of, set_of,
    slice_of, tuple_of,
};
use facet_registry::Shapes;
use std::alloc::{AllocError, Global};

// Whether no shape has the id, drafts included.
fn is_missing<L: Leaf>(shapes: &Shapes<L>, id: ShapeId) -> bool
    ensures { result ≡ has_no_shape (all_shapes shapes.now) id }
{
    id.0 as usize >= shapes.len()
}

// Whether one of the ids is missing.
fn one_is_missing<L: Leaf>(shapes: &Shapes<L>, ids: &[ShapeId]) -> bool
    ensures { result ≡ list_any (has_no_shape (all_shapes shapes.now)) ids.now }
{
    ids.iter().any(|id| is_missing(shapes, *id))
}

/// Declares an option of the shape `t`.
pub fn declare_option<L: Leaf>(
    alloc: Global,
    shapes: &mut Shapes<L>,
    t: ShapeId,
) -> Result<Result<ShapeId, DeclarationRefusal>, AllocError>
    requires { length (all_shapes shapes.old) < 2 ^ 32 - 1 }
    ensures answer { IfOk result (λ answer. answer ≡ answer_to shapes.old (declared_by L.model (all_shapes shapes.old) (decl.OptionOf t))) }
    ensures ok { OnOk result (shapes.new ≡ with_declared shapes.old (declared_by L.model (all_shapes shapes.old) (decl.OptionOf t))) }
    ensures err { OnErr result (shapes.new ≡ shapes.old) }
{
    if is_missing(shapes, t) {
        return Ok(Err(DeclarationRefusal::NoSuchShape));
    }
    Ok(Ok(option_of(alloc, shapes, t)?))
}

/// Declares a list of the shape `t`.
pub fn declare_list<L: Leaf>(
    alloc: Global,
    shapes: &mut Shapes<L>,
    t: ShapeId,
) -> Result<Result<ShapeId, DeclarationRefusal>, AllocError>
    requires { length (all_shapes shapes.old) < 2 ^ 32 - 1 }
    ensures answer { IfOk result (λ answer. answer ≡ answer_to shapes.old (declared_by L.model (all_shapes shapes.old) (decl.ListOf t))) }
    ensures ok { OnOk result (shapes.new ≡ with_declared shapes.old (declared_by L.model (all_shapes shapes.old) (decl.ListOf t))) }
    ensures err { OnErr result (shapes.new ≡ shapes.old) }
{
    if is_missing(shapes, t) {
        return Ok(Err(DeclarationRefusal::NoSuchShape));
    }
    Ok(Ok(list_of(alloc, shapes, t)?))
}

/// Declares a set of the shape `t`.
pub fn declare_set<L: Leaf>(
    alloc: Global,
    shapes: &mut Shapes<L>,
    t: ShapeId,
) -> Result<Result<ShapeId, DeclarationRefusal>, AllocError>
    requires { length (all_shapes shapes.old) < 2 ^ 32 - 1 }
    ensures answer { IfOk result (λ answer. answer ≡ answer_to shapes.old (declared_by L.model (all_shapes shapes.old) (decl.SetOf t))) }
    ensures ok { OnOk result (shapes.new ≡ with_declared shapes.old (declared_by L.model (all_shapes shapes.old) (decl.SetOf t))) }
    ensures err { OnErr result (shapes.new ≡ shapes.old) }
{
    if is_missing(shapes, t) {
        return Ok(Err(DeclarationRefusal::NoSuchShape));
    }
    Ok(Ok(set_of(alloc, shapes, t)?))
}

/// Declares a slice of the shape `t`.
pub fn declare_slice<L: Leaf>(
    alloc: Global,
    shapes: &mut Shapes<L>,
    t: ShapeId,
) -> Result<Result<ShapeId, DeclarationRefusal>, AllocError>
    requires { length (all_shapes shapes.old) < 2 ^ 32 - 1 }
    ensures answer { IfOk result (λ answer. answer ≡ answer_to shapes.old (declared_by L.model (all_shapes shapes.old) (decl.SliceOf t))) }
    ensures ok { OnOk result (shapes.new ≡ with_declared shapes.old (declared_by L.model (all_shapes shapes.old) (decl.SliceOf t))) }
    ensures err { OnErr result (shapes.new ≡ shapes.old) }
{
    if is_missing(shapes, t) {
        return Ok(Err(DeclarationRefusal::NoSuchShape));
    }
    Ok(Ok(slice_of(alloc, shapes, t)?))
}

/// Declares a box of the shape `t`.
pub fn declare_box<L: Leaf>(
    alloc: Global,
    shapes: &mut Shapes<L>,
    t: ShapeId,
) -> Result<Result<ShapeId, DeclarationRefusal>, AllocError>
    requires { length (all_shapes shapes.old) < 2 ^ 32 - 1 }
    ensures answer { IfOk result (λ answer. answer ≡ answer_to shapes.old (declared_by L.model (all_shapes shapes.old) (decl.BoxOf t))) }
    ensures ok { OnOk result (shapes.new ≡ with_declared shapes.old (declared_by L.model (all_shapes shapes.old) (decl.BoxOf t))) }
    ensures err { OnErr result (shapes.new ≡ shapes.old) }
{
    if is_missing(shapes, t) {
        return Ok(Err(DeclarationRefusal::NoSuchShape));
    }
    if is_slice(shapes, t) {
        return Ok(Err(DeclarationRefusal::WrongShape));
    }
    Ok(Ok(box_of(alloc, shapes, t)?))
}

/// Declares a box of the slice `t`.
pub fn declare_boxed_slice<L: Leaf>(
    alloc: Global,
    shapes: &mut Shapes<L>,
    t: ShapeId,
) -> Result<Result<ShapeId, DeclarationRefusal>, AllocError>
    requires { length (all_shapes shapes.old) < 2 ^ 32 - 1 }
    ensures answer { IfOk result (λ answer. answer ≡ answer_to shapes.old (declared_by L.model (all_shapes shapes.old) (decl.BoxedSliceOf t))) }
    ensures ok { OnOk result (shapes.new ≡ with_declared shapes.old (declared_by L.model (all_shapes shapes.old) (decl.BoxedSliceOf t))) }
    ensures err { OnErr result (shapes.new ≡ shapes.old) }
{
    if is_missing(shapes, t) {
        return Ok(Err(DeclarationRefusal::NoSuchShape));
    }
    if !is_slice(shapes, t) {
        return Ok(Err(DeclarationRefusal::WrongShape));
    }
    Ok(Ok(boxed_slice_of(alloc, shapes, t)?))
}

/// Declares an array of `n` elements of the shape `t`.
pub fn declare_array<L: Leaf>(
    alloc: Global,
    shapes: &mut Shapes<L>,
    t: ShapeId,
    n: u32,
) -> Result<Result<ShapeId, DeclarationRefusal>, AllocError>
    requires { length (all_shapes shapes.old) < 2 ^ 32 - 1 }
    ensures answer { IfOk result (λ answer. answer ≡ answer_to shapes.old (declared_by L.model (all_shapes shapes.old) (decl.ArrayOf t n))) }
    ensures ok { OnOk result (shapes.new ≡ with_declared shapes.old (declared_by L.model (all_shapes shapes.old) (decl.ArrayOf t n))) }
    ensures err { OnErr result (shapes.new ≡ shapes.old) }
{
    if is_missing(shapes, t) {
        return Ok(Err(DeclarationRefusal::NoSuchShape));
    }
    Ok(Ok(array_of(alloc, shapes, t, n as usize)?))
}

/// Declares a map from the shape `k` to the shape `v`.
pub fn declare_map<L: Leaf>(
    alloc: Global,
    shapes: &mut Shapes<L>,
    k: ShapeId,
    v: ShapeId,
) -> Result<Result<ShapeId, DeclarationRefusal>, AllocError>
    requires { length (all_shapes shapes.old) < 2 ^ 32 - 1 }
    ensures answer { IfOk result (λ answer. answer ≡ answer_to shapes.old (declared_by L.model (all_shapes shapes.old) (decl.MapOf k v))) }
    ensures ok { OnOk result (shapes.new ≡ with_declared shapes.old (declared_by L.model (all_shapes shapes.old) (decl.MapOf k v))) }
    ensures err { OnErr result (shapes.new ≡ shapes.old) }
{
    if is_missing(shapes, k) || is_missing(shapes, v) {
        return Ok(Err(DeclarationRefusal::NoSuchShape));
    }
    Ok(Ok(map_of(alloc, shapes, k, v)?))
}

/// Declares a result of the shapes `t` and `e`.
pub fn declare_result<L: Leaf>(
    alloc: Global,
    shapes: &mut Shapes<L>,
    t: ShapeId,
    e: ShapeId,
) -> Result<Result<ShapeId, DeclarationRefusal>, AllocError>
    requires { length (all_shapes shapes.old) < 2 ^ 32 - 1 }
    ensures answer { IfOk result (λ answer. answer ≡ answer_to shapes.old (declared_by L.model (all_shapes shapes.old) (decl.ResultOf t e))) }
    ensures ok { OnOk result (shapes.new ≡ with_declared shapes.old (declared_by L.model (all_shapes shapes.old) (decl.ResultOf t e))) }
    ensures err { OnErr result (shapes.new ≡ shapes.old) }
{
    if is_missing(shapes, t) || is_missing(shapes, e) {
        return Ok(Err(DeclarationRefusal::NoSuchShape));
    }
    Ok(Ok(result_of(alloc, shapes, t, e)?))
}

/// Declares a tuple of these shapes.
pub fn declare_tuple<L: Leaf>(
    alloc: Global,
    shapes: &mut Shapes<L>,
    parts: &[ShapeId],
) -> Result<Result<ShapeId, DeclarationRefusal>, AllocError>
    requires room { length (all_shapes shapes.old) < 2 ^ 32 - 1 }
    requires some { 0 < length parts.now }
    requires few { length parts.now ≤ 12 }
    ensures answer { IfOk result (λ answer. answer ≡ answer_to shapes.old (declared_by L.model (all_shapes shapes.old) (decl.TupleOf parts.now))) }
    ensures ok { OnOk result (shapes.new ≡ with_declared shapes.old (declared_by L.model (all_shapes shapes.old) (decl.TupleOf parts.now))) }
    ensures err { OnErr result (shapes.new ≡ shapes.old) }
{
    if one_is_missing(shapes, parts) {
        return Ok(Err(DeclarationRefusal::NoSuchShape));
    }
    Ok(Ok(tuple_of(alloc, shapes, parts)?))
}
