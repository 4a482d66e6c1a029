ghost use Rattle.std.specs.Prelude.{◌≡◌, ⊤, Some};
ghost use Rattle.std.specs.Int.{bit_not, w16};
ghost use Rattle.std.specs.Int.RustNames.{bit_and, bit_or, bit_xor};
ghost use Rattle.facet_base.specs.Flags.{debug_text};
ghost use Rattle.facet_base.specs.FlagTables.{field_flags};

use crate::flags::names::write_names;
use bitflags::{Flag, Flags};
use std::fmt;
use std::ops::{BitAnd, BitAndAssign, BitOr, BitOrAssign, BitXor, BitXorAssign, Not};

/// The properties of a field.
#[derive(Clone, Copy, PartialEq, Eq, Hash, Default)]
pub struct FieldFlags {
    pub bits: u16,
}

impl FieldFlags {
    /// The field's value is kept out of debug texts.
    pub const SENSITIVE: FieldFlags = FieldFlags { bits: 1 };
    /// The members of the field's value stand beside the field.
    pub const FLATTEN: FieldFlags = FieldFlags { bits: 2 };
    /// The field is neither serialized nor deserialized.
    pub const SKIP: FieldFlags = FieldFlags { bits: 4 };
    /// The field is not serialized.
    pub const SKIP_SERIALIZING: FieldFlags = FieldFlags { bits: 8 };
    /// The field is not deserialized.
    pub const SKIP_DESERIALIZING: FieldFlags = FieldFlags { bits: 16 };
    /// The field is a child node.
    pub const CHILD: FieldFlags = FieldFlags { bits: 32 };
    /// The field's type leads back to the type that has the field.
    pub const RECURSIVE_TYPE: FieldFlags = FieldFlags { bits: 64 };

    // Each flag with its name, in the order of their bits.
    const FLAGS: &'static [Flag<FieldFlags>] = &[
        Flag {
            name: "SENSITIVE",
            value: FieldFlags::SENSITIVE,
        },
        Flag {
            name: "FLATTEN",
            value: FieldFlags::FLATTEN,
        },
        Flag {
            name: "SKIP",
            value: FieldFlags::SKIP,
        },
        Flag {
            name: "SKIP_SERIALIZING",
            value: FieldFlags::SKIP_SERIALIZING,
        },
        Flag {
            name: "SKIP_DESERIALIZING",
            value: FieldFlags::SKIP_DESERIALIZING,
        },
        Flag {
            name: "CHILD",
            value: FieldFlags::CHILD,
        },
        Flag {
            name: "RECURSIVE_TYPE",
            value: FieldFlags::RECURSIVE_TYPE,
        },
    ];
}

impl Flags for FieldFlags {
    type Bits = u16;

    ghost exact = { ⊤ };

    ghost table = { field_flags };

    ghost set_of = { λ set. set.bits };

    fn flags<'a>() -> &'a [Flag<FieldFlags>] {
        FieldFlags::FLAGS
    }

    fn bits(&self) -> u16 {
        self.bits
    }

    fn from_bits_retain(bits: u16) -> FieldFlags {
        FieldFlags { bits }
    }
}

impl BitOr for FieldFlags {
    type Output = FieldFlags;

    ghost bitor_gives = { λ set other result. result.bits ≡ bit_or set.bits other.bits };

    fn bitor(self, other: FieldFlags) -> FieldFlags {
        FieldFlags {
            bits: self.bits | other.bits,
        }
    }
}

impl BitOrAssign for FieldFlags {
    ghost bitor_assign_gives = { λ old other new. new.bits ≡ bit_or old.bits other.bits };

    fn bitor_assign(&mut self, other: FieldFlags) {
        self.bits |= other.bits;
    }
}

impl BitAnd for FieldFlags {
    type Output = FieldFlags;

    ghost bitand_gives = { λ set other result. result.bits ≡ bit_and set.bits other.bits };

    fn bitand(self, other: FieldFlags) -> FieldFlags {
        FieldFlags {
            bits: self.bits & other.bits,
        }
    }
}

impl BitAndAssign for FieldFlags {
    ghost bitand_assign_gives = { λ old other new. new.bits ≡ bit_and old.bits other.bits };

    fn bitand_assign(&mut self, other: FieldFlags) {
        self.bits &= other.bits;
    }
}

impl BitXor for FieldFlags {
    type Output = FieldFlags;

    ghost bitxor_gives = { λ set other result. result.bits ≡ bit_xor set.bits other.bits };

    fn bitxor(self, other: FieldFlags) -> FieldFlags {
        FieldFlags {
            bits: self.bits ^ other.bits,
        }
    }
}

impl BitXorAssign for FieldFlags {
    ghost bitxor_assign_gives = { λ old other new. new.bits ≡ bit_xor old.bits other.bits };

    fn bitxor_assign(&mut self, other: FieldFlags) {
        self.bits ^= other.bits;
    }
}

impl Not for FieldFlags {
    type Output = FieldFlags;

    ghost not_gives = { λ set result. result.bits ≡ bit_not w16 set.bits };

    fn not(self) -> FieldFlags {
        FieldFlags { bits: !self.bits }
    }
}

impl fmt::Debug for FieldFlags {
    ghost debug_output = { λ set. Some (debug_text field_flags set.bits) };

    fn fmt<W: fmt::Write>(&self, f: &mut fmt::Formatter<W>) -> fmt::Result {
        write_names(self, f)
    }
}
