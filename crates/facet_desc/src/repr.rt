ghost use Rattle.std.specs.Prelude.{◌≡◌, false};
ghost use Rattle.std.specs.Result.{result_ok};
ghost use Rattle.facet_desc.specs.Repr.{unsigned_repr};

use facet_base::BadSize;

/// The representation of a struct or an enum in memory.
#[derive(Clone, Copy, PartialEq, Eq, Hash, Debug)]
pub struct Repr {
    pub base: BaseRepr,
    pub packed: bool,
}

/// Whose layout a type has: the one that C or Rust chooses, or that of its only field with a size.
#[derive(Clone, Copy, PartialEq, Eq, Hash, Debug)]
pub enum BaseRepr {
    C,
    Rust,
    Transparent,
}

impl Default for BaseRepr {
    ghost use Rattle.facet_desc.specs.declared.repr.BaseRepr.TheVariants as base;

    ghost is_default = { λ b. b ≡ base.Rust };

    fn default() -> BaseRepr {
        BaseRepr::Rust
    }
}

impl Repr {
    /// C's representation, not packed.
    pub const C: Repr = Repr {
        base: BaseRepr::C,
        packed: false,
    };

    /// That of the only field with a size, not packed.
    pub const TRANSPARENT: Repr = Repr {
        base: BaseRepr::Transparent,
        packed: false,
    };

    /// Rust's representation, not packed.
    pub const RUST: Repr = Repr {
        base: BaseRepr::Rust,
        packed: false,
    };

    /// The constant `C`.
    pub fn c() -> Repr
        ensures { result ≡ record { base = BaseRepr.C; packed = false } }
    {
        Repr::C
    }

    /// The constant `TRANSPARENT`.
    pub fn transparent() -> Repr
        ensures { result ≡ record { base = BaseRepr.Transparent; packed = false } }
    {
        Repr::TRANSPARENT
    }
}

// The default is the constant `RUST`.
impl Default for Repr {
    ghost use Rattle.std.specs.Prelude.{◌≡◌, false};
    ghost use Rattle.facet_desc.specs.declared.repr.BaseRepr.TheVariants as base;

    ghost is_default = { λ r. r ≡ record { base = base.Rust; packed = false } };

    fn default() -> Repr {
        Repr::RUST
    }
}

/// How an enum stores which of its variants a value is: as Rust chooses, by values that a pointer can't have
/// (`RustNPO`), or as a discriminant of this type.
#[derive(Clone, Copy, PartialEq, Eq, Hash, Debug)]
pub enum EnumRepr {
    Rust,
    RustNPO,
    U8,
    U16,
    U32,
    U64,
    USize,
    I8,
    I16,
    I32,
    I64,
    ISize,
}

impl EnumRepr {
    /// The unsigned discriminant of that many bytes, which are 1, 2, 4 or 8; any other size is refused.
    pub fn from_discriminant_size(size: usize) -> Result<EnumRepr, BadSize>
        ensures { result_ok result ≡ unsigned_repr size }
    {
        match size {
            1 => Ok(EnumRepr::U8),
            2 => Ok(EnumRepr::U16),
            4 => Ok(EnumRepr::U32),
            8 => Ok(EnumRepr::U64),
            _ => Err(BadSize),
        }
    }
}
