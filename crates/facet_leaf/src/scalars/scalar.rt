use crate::conversion::{Conversion, NoRoom};
use crate::hashing::hash_sink::HashSink;
use crate::hook::LeafHook;
use crate::leaf::Leaf;
use crate::scalars::convert::convert_scalar;
use crate::scalars::hash::hash_scalar;
use crate::scalars::kinds::{scalar_has, scalar_hooks, scalar_kind_of};
use crate::scalars::number::is_truthy;
use crate::scalars::order::{order_scalars, same_scalars};
use crate::scalars::parse::{clone_scalar, default_scalar, parse_scalar, parse_scalar_bytes};
use crate::scalars::texts::{write_debug_of, write_display_of};
use facet_base::{Characteristic, ParseError, ScalarType, Text, Write};
use std::alloc::{AllocError, Global};
use std::cmp::Ordering;

/// The leaf type of this crate: a scalar of one of the fifteen kinds that are stored.
#[derive(Drop)]
pub enum Scalar {
    Bool(bool),
    Char(char),
    String(Text),
    U8(u8),
    U16(u16),
    U32(u32),
    U64(u64),
    U128(u128),
    USize(usize),
    I8(i8),
    I16(i16),
    I32(i32),
    I64(i64),
    I128(i128),
    ISize(isize),
}

impl Leaf for Scalar {
    ghost use Rattle.std.specs.Prelude.{◌≡◌, IfOk, IsTrue, Ok, OnErr, Some, ok_or, true};
    ghost use Rattle.facet_leaf.specs.scalars.Scalar.{scalar_can, scalar_converted, scalar_default, scalar_kind};
    ghost use Rattle.facet_leaf.specs.scalars.ScalarTexts.{scalar_parsed, scalar_parsed_bytes};
    ghost use Rattle.facet_leaf.specs.scalars.ScalarLaws.{scalar_laws};
    ghost use Rattle.facet_leaf.specs.scalars.ScalarModel.{scalar_model};

    ghost model = { scalar_model };

    ghost laws = { scalar_laws };

    fn can(kind: ScalarType, c: Characteristic) -> bool {
        scalar_has(kind, c)
    }

    fn hook(kind: ScalarType, h: LeafHook) -> bool {
        scalar_hooks(kind, h)
    }

    fn kind(&self) -> ScalarType {
        scalar_kind_of(self)
    }

    fn same(&self, other: &Self) -> bool {
        same_scalars(self, other)
    }

    fn partial_order(&self, other: &Self) -> Option<Ordering> {
        Some(order_scalars(self, other))
    }

    fn order(&self, other: &Self) -> Ordering {
        order_scalars(self, other)
    }

    fn hash_into<H: HashSink>(&self, sink: &mut H) {
        hash_scalar(self, sink);
    }

    fn write_debug<W: Write>(&self, out: &mut W) -> Result<(), AllocError> {
        write_debug_of(self, out)
    }

    fn write_display<W: Write>(&self, out: &mut W) -> Result<(), AllocError> {
        write_display_of(self, out)
    }

    // Only a String takes memory.
    fn parse(
        alloc: Global,
        kind: ScalarType,
        text: &str,
    ) -> Result<Result<Self, ParseError>, AllocError>
        ensures memory { OnErr result (kind ≡ ScalarType.String) }
        ensures parsed { IfOk result (λ parsed. parsed ≡ ok_or (scalar_parsed kind text.now) (record { kind = kind })) }
    {
        parse_scalar(alloc, kind, text)
    }

    fn parse_bytes(
        alloc: Global,
        kind: ScalarType,
        bytes: &[u8],
    ) -> Result<Result<Self, ParseError>, AllocError>
        ensures memory { OnErr result (kind ≡ ScalarType.String) }
        ensures parsed { IfOk result (λ parsed. parsed ≡ ok_or (scalar_parsed_bytes kind bytes.now) (record { kind = kind })) }
    {
        parse_scalar_bytes(alloc, kind, bytes)
    }

    fn default_of(alloc: Global, kind: ScalarType) -> Result<Self, AllocError>
        requires { IsTrue (scalar_can kind Characteristic.Default) }
        ensures memory { OnErr result (kind ≡ ScalarType.String) }
        ensures made { IfOk result (λ leaf. scalar_default kind ≡ Some leaf) }
    {
        default_scalar(alloc, kind)
    }

    fn clone_leaf(&self, alloc: Global) -> Result<Self, AllocError>
        ensures memory { OnErr result (scalar_kind self.now ≡ ScalarType.String) }
        ensures copied { IfOk result (λ copy. copy ≡ self.now) }
    {
        clone_scalar(self, alloc)
    }

    fn truthy(&self) -> bool {
        is_truthy(self)
    }

    // No kind has invariants, so each leaf meets them.
    fn invariants(&self) -> bool
        ensures { result ≡ true }
    {
        true
    }

    // Numbers are converted without memory.
    fn convert(
        _alloc: Global,
        kind: ScalarType,
        from: Self,
    ) -> Result<Conversion<Self>, NoRoom<Self>>
        ensures { result ≡ Ok (scalar_converted kind from) }
    {
        Ok(convert_scalar(kind, from))
    }
}
