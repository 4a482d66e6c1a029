ghost use Rattle.std.specs.Prelude.{◌≡◌, ⊤, Some};
ghost use Rattle.std.specs.Int.{bit_not, w8};
ghost use Rattle.std.specs.Int.RustNames.{bit_and, bit_or, bit_xor};
ghost use Rattle.facet_base.specs.Flags.{debug_text};
ghost use Rattle.facet_base.specs.FlagTables.{pointer_flags};

use crate::flags::names::write_names;
use bitflags::{Flag, Flags};
use std::fmt;
use std::ops::{BitAnd, BitAndAssign, BitOr, BitOrAssign, BitXor, BitXorAssign, Not};

/// The properties of a smart pointer.
#[derive(Clone, Copy, PartialEq, Eq, Hash, Default)]
pub struct PointerFlags {
    pub bits: u8,
}

impl PointerFlags {
    /// No flag. Each set contains it.
    pub const EMPTY: PointerFlags = PointerFlags { bits: 0 };
    /// The pointer doesn't own its pointee.
    pub const WEAK: PointerFlags = PointerFlags { bits: 1 };
    /// The pointer is atomically reference counted.
    pub const ATOMIC: PointerFlags = PointerFlags { bits: 2 };
    /// The pointer locks its pointee.
    pub const LOCK: PointerFlags = PointerFlags { bits: 4 };

    // Each flag with its name, in the order of their bits.
    const FLAGS: &'static [Flag<PointerFlags>] = &[
        Flag {
            name: "EMPTY",
            value: PointerFlags::EMPTY,
        },
        Flag {
            name: "WEAK",
            value: PointerFlags::WEAK,
        },
        Flag {
            name: "ATOMIC",
            value: PointerFlags::ATOMIC,
        },
        Flag {
            name: "LOCK",
            value: PointerFlags::LOCK,
        },
    ];
}

impl Flags for PointerFlags {
    type Bits = u8;

    ghost exact = { ⊤ };

    ghost table = { pointer_flags };

    ghost set_of = { λ set. set.bits };

    fn flags<'a>() -> &'a [Flag<PointerFlags>] {
        PointerFlags::FLAGS
    }

    fn bits(&self) -> u8 {
        self.bits
    }

    fn from_bits_retain(bits: u8) -> PointerFlags {
        PointerFlags { bits }
    }
}

impl BitOr for PointerFlags {
    type Output = PointerFlags;

    ghost bitor_gives = { λ set other result. result.bits ≡ bit_or set.bits other.bits };

    fn bitor(self, other: PointerFlags) -> PointerFlags {
        PointerFlags {
            bits: self.bits | other.bits,
        }
    }
}

impl BitOrAssign for PointerFlags {
    ghost bitor_assign_gives = { λ old other new. new.bits ≡ bit_or old.bits other.bits };

    fn bitor_assign(&mut self, other: PointerFlags) {
        self.bits |= other.bits;
    }
}

impl BitAnd for PointerFlags {
    type Output = PointerFlags;

    ghost bitand_gives = { λ set other result. result.bits ≡ bit_and set.bits other.bits };

    fn bitand(self, other: PointerFlags) -> PointerFlags {
        PointerFlags {
            bits: self.bits & other.bits,
        }
    }
}

impl BitAndAssign for PointerFlags {
    ghost bitand_assign_gives = { λ old other new. new.bits ≡ bit_and old.bits other.bits };

    fn bitand_assign(&mut self, other: PointerFlags) {
        self.bits &= other.bits;
    }
}

impl BitXor for PointerFlags {
    type Output = PointerFlags;

    ghost bitxor_gives = { λ set other result. result.bits ≡ bit_xor set.bits other.bits };

    fn bitxor(self, other: PointerFlags) -> PointerFlags {
        PointerFlags {
            bits: self.bits ^ other.bits,
        }
    }
}

impl BitXorAssign for PointerFlags {
    ghost bitxor_assign_gives = { λ old other new. new.bits ≡ bit_xor old.bits other.bits };

    fn bitxor_assign(&mut self, other: PointerFlags) {
        self.bits ^= other.bits;
    }
}

impl Not for PointerFlags {
    type Output = PointerFlags;

    ghost not_gives = { λ set result. result.bits ≡ bit_not w8 set.bits };

    fn not(self) -> PointerFlags {
        PointerFlags { bits: !self.bits }
    }
}

impl fmt::Debug for PointerFlags {
    ghost debug_output = { λ set. Some (debug_text pointer_flags set.bits) };

    fn fmt<W: fmt::Write>(&self, f: &mut fmt::Formatter<W>) -> fmt::Result {
        write_names(self, f)
    }
}
