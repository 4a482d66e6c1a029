ghost use Rattle.std.specs.Prelude.{◌≡◌};
ghost use Rattle.facet_leaf.specs.hashing.HashWrite.{fed_all};
ghost use Rattle.facet_leaf.specs.scalars.Scalar.{scalar_writes};

use crate::hashing::hash_sink::HashSink;
use crate::scalars::scalar::Scalar;

// Feeds a sink with the writes of a scalar.
pub(crate) fn hash_scalar<H: HashSink>(leaf: &Scalar, sink: &mut H)
    ensures { sink.new ≡ fed_all H.fed sink.old (scalar_writes leaf.now) }
{
    match leaf {
        Scalar::Bool(b) => sink.write_u8(u8::from(*b)),
        Scalar::Char(c) => sink.write_u32(u32::from(*c)),
        Scalar::String(text) => {
            sink.write(text.as_str().as_bytes());
            sink.write_u8(255);
        }
        Scalar::U8(x) => sink.write_u8(*x),
        Scalar::U16(x) => sink.write_u16(*x),
        Scalar::U32(x) => sink.write_u32(*x),
        Scalar::U64(x) => sink.write_u64(*x),
        Scalar::U128(x) => sink.write_u128(*x),
        Scalar::USize(x) => sink.write_usize(*x),
        Scalar::I8(x) => sink.write_i8(*x),
        Scalar::I16(x) => sink.write_i16(*x),
        Scalar::I32(x) => sink.write_i32(*x),
        Scalar::I64(x) => sink.write_i64(*x),
        Scalar::I128(x) => sink.write_i128(*x),
        Scalar::ISize(x) => sink.write_isize(*x),
    }
}
