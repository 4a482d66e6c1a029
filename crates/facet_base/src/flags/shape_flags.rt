ghost use Rattle.std.specs.Prelude.{◌≡◌, ⊤, Some};
ghost use Rattle.std.specs.Int.{bit_not, w16};
ghost use Rattle.std.specs.Int.RustNames.{bit_and, bit_or, bit_xor};
ghost use Rattle.facet_base.specs.Flags.{debug_text};
ghost use Rattle.facet_base.specs.FlagTables.{shape_flags};

use crate::flags::names::write_names;
use bitflags::{Flag, Flags};
use std::fmt;
use std::ops::{BitAnd, BitAndAssign, BitOr, BitOrAssign, BitXor, BitXorAssign, Not};

/// The properties of a shape.
#[derive(Clone, Copy, PartialEq, Eq, Hash, Default)]
pub struct ShapeFlags {
    pub bits: u16,
}

impl ShapeFlags {
    /// A serialized enum has no tag.
    pub const UNTAGGED: ShapeFlags = ShapeFlags { bits: 1 };
    /// An enum is serialized as its discriminant.
    pub const NUMERIC: ShapeFlags = ShapeFlags { bits: 2 };
    /// Any values of the fields make a value of the shape.
    pub const POD: ShapeFlags = ShapeFlags { bits: 4 };
    /// The shape is serialized as its one field that is no metadata.
    pub const METADATA_CONTAINER: ShapeFlags = ShapeFlags { bits: 8 };

    // Each flag with its name, in the order of their bits.
    const FLAGS: &'static [Flag<ShapeFlags>] = &[
        Flag {
            name: "UNTAGGED",
            value: ShapeFlags::UNTAGGED,
        },
        Flag {
            name: "NUMERIC",
            value: ShapeFlags::NUMERIC,
        },
        Flag {
            name: "POD",
            value: ShapeFlags::POD,
        },
        Flag {
            name: "METADATA_CONTAINER",
            value: ShapeFlags::METADATA_CONTAINER,
        },
    ];
}

impl Flags for ShapeFlags {
    type Bits = u16;

    ghost exact = { ⊤ };

    ghost table = { shape_flags };

    ghost set_of = { λ set. set.bits };

    fn flags<'a>() -> &'a [Flag<ShapeFlags>] {
        ShapeFlags::FLAGS
    }

    fn bits(&self) -> u16 {
        self.bits
    }

    fn from_bits_retain(bits: u16) -> ShapeFlags {
        ShapeFlags { bits }
    }
}

impl BitOr for ShapeFlags {
    type Output = ShapeFlags;

    ghost bitor_gives = { λ set other result. result.bits ≡ bit_or set.bits other.bits };

    fn bitor(self, other: ShapeFlags) -> ShapeFlags {
        ShapeFlags {
            bits: self.bits | other.bits,
        }
    }
}

impl BitOrAssign for ShapeFlags {
    ghost bitor_assign_gives = { λ old other new. new.bits ≡ bit_or old.bits other.bits };

    fn bitor_assign(&mut self, other: ShapeFlags) {
        self.bits |= other.bits;
    }
}

impl BitAnd for ShapeFlags {
    type Output = ShapeFlags;

    ghost bitand_gives = { λ set other result. result.bits ≡ bit_and set.bits other.bits };

    fn bitand(self, other: ShapeFlags) -> ShapeFlags {
        ShapeFlags {
            bits: self.bits & other.bits,
        }
    }
}

impl BitAndAssign for ShapeFlags {
    ghost bitand_assign_gives = { λ old other new. new.bits ≡ bit_and old.bits other.bits };

    fn bitand_assign(&mut self, other: ShapeFlags) {
        self.bits &= other.bits;
    }
}

impl BitXor for ShapeFlags {
    type Output = ShapeFlags;

    ghost bitxor_gives = { λ set other result. result.bits ≡ bit_xor set.bits other.bits };

    fn bitxor(self, other: ShapeFlags) -> ShapeFlags {
        ShapeFlags {
            bits: self.bits ^ other.bits,
        }
    }
}

impl BitXorAssign for ShapeFlags {
    ghost bitxor_assign_gives = { λ old other new. new.bits ≡ bit_xor old.bits other.bits };

    fn bitxor_assign(&mut self, other: ShapeFlags) {
        self.bits ^= other.bits;
    }
}

impl Not for ShapeFlags {
    type Output = ShapeFlags;

    ghost not_gives = { λ set result. result.bits ≡ bit_not w16 set.bits };

    fn not(self) -> ShapeFlags {
        ShapeFlags { bits: !self.bits }
    }
}

impl fmt::Debug for ShapeFlags {
    ghost debug_output = { λ set. Some (debug_text shape_flags set.bits) };

    fn fmt<W: fmt::Write>(&self, f: &mut fmt::Formatter<W>) -> fmt::Result {
        write_names(self, f)
    }
}
