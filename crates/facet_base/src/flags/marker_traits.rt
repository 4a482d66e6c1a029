ghost use Rattle.std.specs.Prelude.{◌≡◌, ⊤, Some};
ghost use Rattle.std.specs.Int.{bit_not, w8};
ghost use Rattle.std.specs.Int.RustNames.{bit_and, bit_or, bit_xor};
ghost use Rattle.facet_base.specs.Flags.{debug_text};
ghost use Rattle.facet_base.specs.FlagTables.{marker_traits};

use crate::flags::names::write_names;
use bitflags::{Flag, Flags};
use std::fmt;
use std::ops::{BitAnd, BitAndAssign, BitOr, BitOrAssign, BitXor, BitXorAssign, Not};

/// The marker traits of Rust that a type has.
#[derive(Clone, Copy, PartialEq, Eq, Hash, Default)]
pub struct MarkerTraits {
    pub bits: u8,
}

impl MarkerTraits {
    /// The type is `Copy`.
    pub const COPY: MarkerTraits = MarkerTraits { bits: 1 };
    /// The type is `Send`.
    pub const SEND: MarkerTraits = MarkerTraits { bits: 2 };
    /// The type is `Sync`.
    pub const SYNC: MarkerTraits = MarkerTraits { bits: 4 };
    /// The type is `Eq`.
    pub const EQ: MarkerTraits = MarkerTraits { bits: 8 };
    /// The type is `Unpin`.
    pub const UNPIN: MarkerTraits = MarkerTraits { bits: 16 };
    /// The type is `UnwindSafe`.
    pub const UNWIND_SAFE: MarkerTraits = MarkerTraits { bits: 32 };
    /// The type is `RefUnwindSafe`.
    pub const REF_UNWIND_SAFE: MarkerTraits = MarkerTraits { bits: 64 };

    // Each flag with its name, in the order of their bits.
    const FLAGS: &'static [Flag<MarkerTraits>] = &[
        Flag {
            name: "COPY",
            value: MarkerTraits::COPY,
        },
        Flag {
            name: "SEND",
            value: MarkerTraits::SEND,
        },
        Flag {
            name: "SYNC",
            value: MarkerTraits::SYNC,
        },
        Flag {
            name: "EQ",
            value: MarkerTraits::EQ,
        },
        Flag {
            name: "UNPIN",
            value: MarkerTraits::UNPIN,
        },
        Flag {
            name: "UNWIND_SAFE",
            value: MarkerTraits::UNWIND_SAFE,
        },
        Flag {
            name: "REF_UNWIND_SAFE",
            value: MarkerTraits::REF_UNWIND_SAFE,
        },
    ];
}

impl Flags for MarkerTraits {
    type Bits = u8;

    ghost exact = { ⊤ };

    ghost table = { marker_traits };

    ghost set_of = { λ set. set.bits };

    fn flags<'a>() -> &'a [Flag<MarkerTraits>] {
        MarkerTraits::FLAGS
    }

    fn bits(&self) -> u8 {
        self.bits
    }

    fn from_bits_retain(bits: u8) -> MarkerTraits {
        MarkerTraits { bits }
    }
}

impl BitOr for MarkerTraits {
    type Output = MarkerTraits;

    ghost bitor_gives = { λ set other result. result.bits ≡ bit_or set.bits other.bits };

    fn bitor(self, other: MarkerTraits) -> MarkerTraits {
        MarkerTraits {
            bits: self.bits | other.bits,
        }
    }
}

impl BitOrAssign for MarkerTraits {
    ghost bitor_assign_gives = { λ old other new. new.bits ≡ bit_or old.bits other.bits };

    fn bitor_assign(&mut self, other: MarkerTraits) {
        self.bits |= other.bits;
    }
}

impl BitAnd for MarkerTraits {
    type Output = MarkerTraits;

    ghost bitand_gives = { λ set other result. result.bits ≡ bit_and set.bits other.bits };

    fn bitand(self, other: MarkerTraits) -> MarkerTraits {
        MarkerTraits {
            bits: self.bits & other.bits,
        }
    }
}

impl BitAndAssign for MarkerTraits {
    ghost bitand_assign_gives = { λ old other new. new.bits ≡ bit_and old.bits other.bits };

    fn bitand_assign(&mut self, other: MarkerTraits) {
        self.bits &= other.bits;
    }
}

impl BitXor for MarkerTraits {
    type Output = MarkerTraits;

    ghost bitxor_gives = { λ set other result. result.bits ≡ bit_xor set.bits other.bits };

    fn bitxor(self, other: MarkerTraits) -> MarkerTraits {
        MarkerTraits {
            bits: self.bits ^ other.bits,
        }
    }
}

impl BitXorAssign for MarkerTraits {
    ghost bitxor_assign_gives = { λ old other new. new.bits ≡ bit_xor old.bits other.bits };

    fn bitxor_assign(&mut self, other: MarkerTraits) {
        self.bits ^= other.bits;
    }
}

impl Not for MarkerTraits {
    type Output = MarkerTraits;

    ghost not_gives = { λ set result. result.bits ≡ bit_not w8 set.bits };

    fn not(self) -> MarkerTraits {
        MarkerTraits { bits: !self.bits }
    }
}

impl fmt::Debug for MarkerTraits {
    ghost debug_output = { λ set. Some (debug_text marker_traits set.bits) };

    fn fmt<W: fmt::Write>(&self, f: &mut fmt::Formatter<W>) -> fmt::Result {
        write_names(self, f)
    }
}
