ghost use Rattle.std.specs.Prelude.{◌≡◌, true};

use facet_base::{Characteristic, ParseError, ScalarType, Write};
use facet_leaf::{Conversion, HashSink, Leaf, LeafHook, NoRoom, Scalar};
use std::alloc::{AllocError, Global};
use std::cmp::Ordering;

/// A leaf type whose orders are those of `Scalar` reversed, save for two kinds: `u8` has no order at all, and two
/// different `u16` are unordered.
#[derive(Drop)]
pub struct OddlyOrdered {
    pub scalar: Scalar,
}

impl Leaf for OddlyOrdered {
    ghost use Rattle.facet_test_leaves.specs.OddlyOrdered.{oddly_ordered_laws, oddly_ordered_model};

    ghost model = { oddly_ordered_model };

    ghost laws = { oddly_ordered_laws };

    fn can(kind: ScalarType, c: Characteristic) -> bool {
        match (kind, c) {
            (ScalarType::U8, Characteristic::PartialOrd) => false,
            (ScalarType::U8 | ScalarType::U16, Characteristic::Ord) => false,
            _ => Scalar::can(kind, c),
        }
    }

    fn hook(kind: ScalarType, h: LeafHook) -> bool {
        Scalar::hook(kind, h)
    }

    fn kind(&self) -> ScalarType {
        self.scalar.kind()
    }

    fn same(&self, other: &Self) -> bool {
        self.scalar.same(&other.scalar)
    }

    fn partial_order(&self, other: &Self) -> Option<Ordering> {
        match self.scalar.kind() {
            ScalarType::U16 => {
                if self.scalar.same(&other.scalar) {
                    Some(Ordering::Equal)
                } else {
                    None
                }
            }
            _ => Some(other.scalar.order(&self.scalar)),
        }
    }

    fn order(&self, other: &Self) -> Ordering {
        other.scalar.order(&self.scalar)
    }

    fn hash_into<H: HashSink>(&self, sink: &mut H) {
        self.scalar.hash_into(sink);
    }

    fn write_debug<W: Write>(&self, out: &mut W) -> Result<(), AllocError> {
        self.scalar.write_debug(out)
    }

    fn write_display<W: Write>(&self, out: &mut W) -> Result<(), AllocError> {
        self.scalar.write_display(out)
    }

    fn parse(
        alloc: Global,
        kind: ScalarType,
        text: &str,
    ) -> Result<Result<Self, ParseError>, AllocError> {
        match Scalar::parse(alloc, kind, text)? {
            Ok(scalar) => Ok(Ok(OddlyOrdered { scalar })),
            Err(error) => Ok(Err(error)),
        }
    }

    fn parse_bytes(
        alloc: Global,
        kind: ScalarType,
        bytes: &[u8],
    ) -> Result<Result<Self, ParseError>, AllocError> {
        match Scalar::parse_bytes(alloc, kind, bytes)? {
            Ok(scalar) => Ok(Ok(OddlyOrdered { scalar })),
            Err(error) => Ok(Err(error)),
        }
    }

    fn default_of(alloc: Global, kind: ScalarType) -> Result<Self, AllocError> {
        Ok(OddlyOrdered {
            scalar: Scalar::default_of(alloc, kind)?,
        })
    }

    fn clone_leaf(&self, alloc: Global) -> Result<Self, AllocError> {
        Ok(OddlyOrdered {
            scalar: self.scalar.clone_leaf(alloc)?,
        })
    }

    fn truthy(&self) -> bool {
        self.scalar.truthy()
    }

    // No kind has invariants, so each leaf meets them.
    fn invariants(&self) -> bool
        ensures { result ≡ true }
    {
        true
    }

    fn convert(
        alloc: Global,
        kind: ScalarType,
        from: Self,
    ) -> Result<Conversion<Self>, NoRoom<Self>> {
        match Scalar::convert(alloc, kind, from.scalar) {
            Ok(Conversion::Converted(scalar)) => Ok(Conversion::Converted(OddlyOrdered { scalar })),
            Ok(Conversion::Unsupported(scalar)) => Ok(Conversion::Unsupported(OddlyOrdered {
                scalar,
            })),
            Ok(Conversion::Failed(scalar)) => Ok(Conversion::Failed(OddlyOrdered { scalar })),
            Err(no_room) => Err(NoRoom {
                from: OddlyOrdered {
                    scalar: no_room.from,
                },
            }),
        }
    }
}
