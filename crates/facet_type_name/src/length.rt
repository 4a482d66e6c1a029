ghost use Rattle.std.specs.Prelude.{◌≡◌, ◌*◌, ◌-◌, ◌<◌, ◌^◌, length, map, true};
ghost use Rattle.std.specs.List.{sum_by};
ghost use Rattle.facet_type_name.specs.Name.{array_name, bracketed, generic_name, own_bytes, own_name_bytes, slice_name, tuple_name};

use facet_base::NameForm;
use facet_def::Def;
use facet_desc::{Field, StructKind, Ty, TypeParam, UserType};
use facet_shape::Shape;
use itoa::Buffer;

/// How many bytes of the full name of a shape aren't those of a child.
#[tactic(auto, unfolding(crate::specs::Name::own_name_bytes, crate::specs::Name::name_pieces))]
pub fn own_name_bytes(shape: &Shape) -> usize
    ensures { result ≡ own_name_bytes shape.now }
{
    let parameters = shape.type_params.as_slice();
    match &shape.type_name {
        None => shape.type_identifier.as_str().len(),
        Some(NameForm::Vec) => generic_bytes("Vec", 1, parameters),
        Some(NameForm::Option) => generic_bytes("Option", 1, parameters),
        Some(NameForm::Result) => generic_bytes("Result", 2, parameters),
        Some(NameForm::Map) => generic_bytes("BTreeMap", 2, parameters),
        Some(NameForm::Set) => generic_bytes("BTreeSet", 1, parameters),
        Some(NameForm::Box) => generic_bytes("Box", 1, parameters),
        Some(NameForm::Array) => array_bytes(&shape.def),
        Some(NameForm::Slice) => slice_bytes(&shape.def),
        Some(NameForm::Tuple) => tuple_bytes(&shape.ty),
    }
}

// The word, the brackets and what stands between the first n parameters.
fn generic_bytes(word: &str, n: usize, parameters: &[TypeParam]) -> usize
    requires short_word { length word.now < 2 ^ 8 }
    requires few { n < 2 ^ 8 }
    ensures { result ≡ sum_by own_bytes (generic_name word.now n true (map (λ p. p.shape) parameters.now)) }
{
    word.len() + 2 + between(n.min(parameters.len()))
}

// The bytes of commas and spaces between so many children.
fn between(children: usize) -> usize
    requires { children < 2 ^ 63 }
    ensures { result ≡ 2 * (children - 1) }
{
    2 * children.saturating_sub(1)
}

// The brackets of an array and its number.
fn array_bytes(def: &Def) -> usize
    ensures { result ≡ sum_by own_bytes (array_name true def.now) }
{
    match def {
        Def::Array(array) => Buffer::new().format(array.n).len() + 4,
        _ => 6,
    }
}

// The brackets of a slice.
fn slice_bytes(def: &Def) -> usize
    ensures { result ≡ sum_by own_bytes (slice_name true def.now) }
{
    match def {
        Def::Slice(_) => 2,
        _ => 3,
    }
}

// The brackets of a tuple, with its fields or without.
fn tuple_bytes(ty: &Ty) -> usize
    ensures { result ≡ sum_by own_bytes (tuple_name true ty.now) }
{
    match ty {
        Ty::User(UserType::Struct(tuple)) if tuple.kind == StructKind::Tuple => {
            bracketed_bytes(tuple.fields.as_slice())
        }
        _ => 3,
    }
}

// The brackets, and what stands between the fields or behind a single one.
fn bracketed_bytes(fields: &[Field]) -> usize
    ensures { result ≡ sum_by own_bytes (bracketed true (map (λ f. f.shape) fields.now)) }
{
    let count = fields.len();
    if count == 1 { 3 } else { 2 + between(count) }
}
