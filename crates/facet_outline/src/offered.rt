ghost use Rattle.std.specs.Prelude.{◌≡◌, false};
ghost use Rattle.facet_caps.specs.TypeOps.{operations_of};
ghost use Rattle.facet_caps.specs.VTableErased.{capabilities_of};
ghost use Rattle.facet_outline.specs.Offered.{comparing as comparing_record, has_unoffered_of_kind, has_no_more, has_no_more_comparisons, has_no_more_conversions, has_no_more_operations, has_no_more_texts, implies, hashing as hashing_record, has_unoffered_member, leaf_capabilities, offered_capabilities, offered_operations, wraps_a_field};

use crate::value_kind::{ValueKind, kind_of};
use facet_base::{Characteristic, ScalarType, ShapeId};
use facet_caps::{TypeOps, TypeOpsDirect, VTableDirect, VTableErased};
use facet_desc::{BaseRepr, Ty, UserType};
use facet_leaf::{Leaf, LeafHook};
use facet_shape::Shape;

/// What may be asked of the values of a kind. A struct's type says whether it is its one field.
pub fn offered_capabilities<L: Leaf>(kind: ValueKind, ty: &Ty) -> VTableDirect
    ensures { result ≡ offered_capabilities L.model kind ty.now }
{
    match kind {
        ValueKind::Leaf(kind) => leaf_capabilities::<L>(kind),
        ValueKind::Struct => VTableDirect {
            invariants: true,
            try_borrow_inner: wraps_a_field(ty),
            ..hashing()
        },
        ValueKind::Option | ValueKind::Box => VTableDirect {
            display: true,
            ..hashing()
        },
        ValueKind::Unit | ValueKind::Enum | ValueKind::Result | ValueKind::Array => hashing(),
        ValueKind::List | ValueKind::BoxedSlice => comparing(),
        ValueKind::Map | ValueKind::Set | ValueKind::NoValue => VTableDirect::empty(),
    }
}

/// Whether values of a kind may have a default, a clone and a truth value.
pub fn offered_operations<L: Leaf>(kind: ValueKind) -> TypeOpsDirect
    ensures { result ≡ offered_operations L.model kind }
{
    match kind {
        ValueKind::Leaf(kind) => TypeOpsDirect {
            drop_in_place: false,
            default_in_place: L::can(kind, Characteristic::Default),
            clone_into: L::can(kind, Characteristic::Clone),
            is_truthy: L::hook(kind, LeafHook::Truthy),
        },
        ValueKind::Unit | ValueKind::Struct => operations(true, true, false),
        ValueKind::Enum => operations(false, true, false),
        ValueKind::Option | ValueKind::List => operations(true, false, true),
        ValueKind::Array => operations(true, true, true),
        ValueKind::Map | ValueKind::Set => operations(true, false, false),
        ValueKind::Result | ValueKind::BoxedSlice | ValueKind::Box | ValueKind::NoValue => {
            operations(false, false, false)
        }
    }
}

/// Whether the record of a shape has a member that isn't offered for the kind of its values. Where it points to a
/// slice, `element` is the shape of that slice's elements, and else it is None.
#[tactic(auto, unfolding(crate::specs::Offered::has_unoffered_member))]
pub fn has_unoffered_member<L: Leaf>(element: Option<ShapeId>, shape: &Shape) -> bool
    ensures { result ≡ has_unoffered_member L.model element shape.now }
{
    let kind = kind_of(shape, element);
    has_unoffered_of_kind::<L>(kind, &shape.ty, &shape.vtable, shape.type_ops)
}

// Whether values have a capability or an operation that isn't offered for their kind.
fn has_unoffered_of_kind<L: Leaf>(
    kind: ValueKind,
    ty: &Ty,
    vtable: &VTableErased,
    operations: Option<TypeOps>,
) -> bool
    ensures { result ≡ has_unoffered_of_kind L.model kind ty.now (capabilities_of vtable.now) operations }
{
    if kind == ValueKind::NoValue {
        return false;
    }
    if !has_no_more(vtable, offered_capabilities::<L>(kind, ty)) {
        return true;
    }
    match operations {
        Some(operations) => !has_no_more_operations(operations, offered_operations::<L>(kind)),
        None => false,
    }
}

// Whether a record has no member beyond those offered.
fn has_no_more(vtable: &VTableErased, offered: VTableDirect) -> bool
    ensures { result ≡ has_no_more (capabilities_of vtable.now) offered }
{
    has_no_more_texts(vtable, offered)
        && has_no_more_comparisons(vtable, offered)
        && has_no_more_conversions(vtable, offered)
}

// Whether it has no text beyond those offered.
fn has_no_more_texts(vtable: &VTableErased, offered: VTableDirect) -> bool
    ensures { result ≡ has_no_more_texts (capabilities_of vtable.now) offered }
{
    implies(vtable.has_display(), offered.display)
        && implies(vtable.has_debug(), offered.debug)
        && implies(vtable.has_parse(), offered.parse)
        && implies(vtable.has_parse_bytes(), offered.parse_bytes)
}

// No comparison or hash.
fn has_no_more_comparisons(vtable: &VTableErased, offered: VTableDirect) -> bool
    ensures { result ≡ has_no_more_comparisons (capabilities_of vtable.now) offered }
{
    implies(vtable.has_partial_eq(), offered.partial_eq)
        && implies(vtable.has_partial_ord(), offered.partial_cmp)
        && implies(vtable.has_ord(), offered.cmp)
        && implies(vtable.has_hash(), offered.hash)
}

// No conversion or test; but the conversion into what it wraps may stand in each.
fn has_no_more_conversions(vtable: &VTableErased, offered: VTableDirect) -> bool
    ensures { result ≡ has_no_more_conversions (capabilities_of vtable.now) offered }
{
    implies(vtable.has_invariants(), offered.invariants)
        && implies(vtable.has_try_from(), offered.try_from)
        && implies(vtable.has_try_borrow_inner(), offered.try_borrow_inner)
}

// The same of operations, where that of dropping may stand in each.
fn has_no_more_operations(operations: TypeOps, offered: TypeOpsDirect) -> bool
    ensures { result ≡ has_no_more_operations (operations_of operations) offered }
{
    implies(operations.has_default_in_place(), offered.default_in_place)
        && implies(operations.has_clone_into(), offered.clone_into)
        && implies(operations.truthiness_fn(), offered.is_truthy)
}

// Whether the second holds where the first does.
fn implies(one: bool, other: bool) -> bool
    ensures { result ≡ implies one other }
{
    !one || other
}

// What leaves of a kind can.
fn leaf_capabilities<L: Leaf>(kind: ScalarType) -> VTableDirect
    ensures { result ≡ leaf_capabilities L.model kind }
{
    VTableDirect {
        display: L::can(kind, Characteristic::Display),
        debug: L::can(kind, Characteristic::Debug),
        hash: L::can(kind, Characteristic::Hash),
        invariants: L::hook(kind, LeafHook::Invariants),
        parse: L::can(kind, Characteristic::FromStr),
        parse_bytes: L::hook(kind, LeafHook::ParseBytes),
        try_from: L::hook(kind, LeafHook::TryFrom),
        partial_eq: L::can(kind, Characteristic::PartialEq),
        partial_cmp: L::can(kind, Characteristic::PartialOrd),
        cmp: L::can(kind, Characteristic::Ord),
        ..VTableDirect::empty()
    }
}

// Equality, both orders and the debug text.
fn comparing() -> VTableDirect
    ensures { result ≡ comparing_record }
{
    VTableDirect {
        debug: true,
        partial_eq: true,
        partial_cmp: true,
        cmp: true,
        ..VTableDirect::empty()
    }
}

// These and the hash.
fn hashing() -> VTableDirect
    ensures { result ≡ hashing_record }
{
    VTableDirect {
        hash: true,
        ..comparing()
    }
}

// A default, a clone, a truth value.
fn operations(default: bool, clone: bool, truth: bool) -> TypeOpsDirect
    ensures { result ≡ record { drop_in_place = false; default_in_place = default; clone_into = clone; is_truthy = truth } }
{
    TypeOpsDirect {
        drop_in_place: false,
        default_in_place: default,
        clone_into: clone,
        is_truthy: truth,
    }
}

// Whether it is a struct that lies in memory as its one field does.
fn wraps_a_field(ty: &Ty) -> bool
    ensures { result ≡ wraps_a_field ty.now }
{
    match ty {
        Ty::User(UserType::Struct(struct_type)) => {
            struct_type.repr.base == BaseRepr::Transparent && struct_type.fields.len() == 1
        }
        _ => false,
    }
}
