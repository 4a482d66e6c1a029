ghost use Rattle.std.specs.Prelude.{◌≡◌};
ghost use Rattle.facet_makers.specs.Offering.{indirect, indirect_operations, offering, with_record};

use facet_caps::{
    TypeOps, TypeOpsDirect, TypeOpsIndirect, VTableDirect, VTableErased, VTableIndirect,
};
use facet_desc::{Ty, UserType};
use facet_leaf::Leaf;
use facet_outline::{ValueKind, offered_capabilities, offered_operations};
use facet_shape::Shape;

/// The shape that offers all that may be asked of values of a kind, which is not that of structs.
pub fn offering<L: Leaf>(shape: Shape, kind: ValueKind) -> Shape
    ensures { result ≡ offering L.model kind shape }
{
    let opaque = Ty::User(UserType::Opaque);
    let capabilities = offered_capabilities::<L>(kind, &opaque);
    with_record(shape, capabilities, offered_operations::<L>(kind))
}

// The shape with these capabilities and operations, as those of a generic type.
#[tactic(auto, unfolding(crate::specs::Offering::with_record))]
fn with_record(shape: Shape, capabilities: VTableDirect, operations: TypeOpsDirect) -> Shape
    ensures { result ≡ with_record capabilities operations shape }
{
    Shape {
        vtable: VTableErased::Indirect(indirect(capabilities)),
        type_ops: Some(TypeOps::Indirect(indirect_operations(operations))),
        ..shape
    }
}

// The same capabilities of a generic type.
fn indirect(capabilities: VTableDirect) -> VTableIndirect
    ensures { result ≡ indirect capabilities }
{
    VTableIndirect {
        display: capabilities.display,
        debug: capabilities.debug,
        hash: capabilities.hash,
        invariants: capabilities.invariants,
        parse: capabilities.parse,
        parse_bytes: capabilities.parse_bytes,
        try_from: capabilities.try_from,
        try_into_inner: capabilities.try_into_inner,
        try_borrow_inner: capabilities.try_borrow_inner,
        partial_eq: capabilities.partial_eq,
        partial_cmp: capabilities.partial_cmp,
        cmp: capabilities.cmp,
    }
}

// The same operations of a generic type.
fn indirect_operations(operations: TypeOpsDirect) -> TypeOpsIndirect
    ensures { result ≡ indirect_operations operations }
{
    TypeOpsIndirect {
        drop_in_place: operations.drop_in_place,
        default_in_place: operations.default_in_place,
        clone_into: operations.clone_into,
        is_truthy: operations.is_truthy,
    }
}
