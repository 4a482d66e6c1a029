ghost use Rattle.std.specs.Prelude.{◌≡◌};
ghost use Rattle.facet_leaf.specs.scalars.Scalar.{is_whole, scalar_can, scalar_hook, scalar_kind};

use crate::hook::LeafHook;
use crate::scalars::scalar::Scalar;
use facet_base::{Characteristic, ScalarType};

// The kind of a scalar.
pub(crate) fn scalar_kind_of(leaf: &Scalar) -> ScalarType
    ensures { result ≡ scalar_kind leaf.now }
{
    match leaf {
        Scalar::Bool(_) => ScalarType::Bool,
        Scalar::Char(_) => ScalarType::Char,
        Scalar::String(_) => ScalarType::String,
        Scalar::U8(_) => ScalarType::U8,
        Scalar::U16(_) => ScalarType::U16,
        Scalar::U32(_) => ScalarType::U32,
        Scalar::U64(_) => ScalarType::U64,
        Scalar::U128(_) => ScalarType::U128,
        Scalar::USize(_) => ScalarType::USize,
        Scalar::I8(_) => ScalarType::I8,
        Scalar::I16(_) => ScalarType::I16,
        Scalar::I32(_) => ScalarType::I32,
        Scalar::I64(_) => ScalarType::I64,
        Scalar::I128(_) => ScalarType::I128,
        Scalar::ISize(_) => ScalarType::ISize,
    }
}

// Whether scalars of a kind have a capability.
pub(crate) fn scalar_has(kind: ScalarType, c: Characteristic) -> bool
    ensures { result ≡ scalar_can kind c }
{
    match (kind, c) {
        (_, Characteristic::Debug) => true,
        (ScalarType::Unit, _) | (ScalarType::Str, _) => false,
        _ => true,
    }
}

// Whether scalars of a kind have a hook.
pub(crate) fn scalar_hooks(kind: ScalarType, h: LeafHook) -> bool
    ensures { result ≡ scalar_hook kind h }
{
    match h {
        LeafHook::ParseBytes => matches!(kind, ScalarType::String),
        LeafHook::TryFrom => is_whole_kind(kind),
        LeafHook::Invariants => false,
        LeafHook::Truthy => !matches!(kind, ScalarType::Unit | ScalarType::Str),
    }
}

// Whether scalars of a kind are whole numbers.
pub(crate) fn is_whole_kind(kind: ScalarType) -> bool
    ensures { result ≡ is_whole kind }
{
    match kind {
        ScalarType::Unit | ScalarType::Bool | ScalarType::Char => false,
        ScalarType::Str | ScalarType::String => false,
        _ => true,
    }
}
