ghost use Rattle.std.specs.Prelude.{◌≡◌};
ghost use Rattle.facet_base.specs.ScalarType.{identifier_of};

/// The kinds of scalars. A leaf is of one of them, but of neither `Unit`, whose one value takes no memory,
/// nor `Str`, which has no values.
#[derive(Clone, Copy, PartialEq, Eq, PartialOrd, Ord, Hash, Debug)]
pub enum ScalarType {
    Unit,
    Bool,
    Char,
    Str,
    String,
    U8,
    U16,
    U32,
    U64,
    U128,
    USize,
    I8,
    I16,
    I32,
    I64,
    I128,
    ISize,
}

impl ScalarType {
    /// The identifier of the type whose values are of this kind.
    pub fn identifier(self) -> &'static str
        ensures { result.now ≡ identifier_of self }
    {
        match self {
            ScalarType::Unit => "()",
            ScalarType::Bool => "bool",
            ScalarType::Char => "char",
            ScalarType::Str => "str",
            ScalarType::String => "String",
            ScalarType::U8 => "u8",
            ScalarType::U16 => "u16",
            ScalarType::U32 => "u32",
            ScalarType::U64 => "u64",
            ScalarType::U128 => "u128",
            ScalarType::USize => "usize",
            ScalarType::I8 => "i8",
            ScalarType::I16 => "i16",
            ScalarType::I32 => "i32",
            ScalarType::I64 => "i64",
            ScalarType::I128 => "i128",
            ScalarType::ISize => "isize",
        }
    }
}
