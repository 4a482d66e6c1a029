ghost use Rattle.std.specs.Prelude.{◌≡◌, map};
ghost use Rattle.facet_words.specs.FixedWords.{base_of, entry_of, is_unsized as is_the_word_unsized, kind_of, repr_of, variance_of};

use facet_base::{ScalarType, Variance};
use facet_desc::{BaseRepr, EnumRepr};

/// The representation of an enum that a text is, if it is one.
pub fn read_repr(text: &str) -> Option<EnumRepr>
    ensures { result ≡ repr_of text.now }
{
    find_value(
        &[
            ("rust", EnumRepr::Rust),
            ("u8", EnumRepr::U8),
            ("u16", EnumRepr::U16),
            ("u32", EnumRepr::U32),
            ("u64", EnumRepr::U64),
            ("usize", EnumRepr::USize),
            ("i8", EnumRepr::I8),
            ("i16", EnumRepr::I16),
            ("i32", EnumRepr::I32),
            ("i64", EnumRepr::I64),
            ("isize", EnumRepr::ISize),
        ],
        text,
    )
}

/// The kind of scalars that a text is, if it is one.
pub fn read_kind(text: &str) -> Option<ScalarType>
    ensures { result ≡ kind_of text.now }
{
    find_value(
        &[
            ("unit", ScalarType::Unit),
            ("bool", ScalarType::Bool),
            ("char", ScalarType::Char),
            ("String", ScalarType::String),
            ("u8", ScalarType::U8),
            ("u16", ScalarType::U16),
            ("u32", ScalarType::U32),
            ("u64", ScalarType::U64),
            ("u128", ScalarType::U128),
            ("usize", ScalarType::USize),
            ("i8", ScalarType::I8),
            ("i16", ScalarType::I16),
            ("i32", ScalarType::I32),
            ("i64", ScalarType::I64),
            ("i128", ScalarType::I128),
            ("isize", ScalarType::ISize),
        ],
        text,
    )
}

/// The representation of a struct that a text is, if it is one.
pub fn read_base(text: &str) -> Option<BaseRepr>
    ensures { result ≡ base_of text.now }
{
    find_value(
        &[
            ("c", BaseRepr::C),
            ("rust", BaseRepr::Rust),
            ("transparent", BaseRepr::Transparent),
        ],
        text,
    )
}

/// The variance that a text is, if it is one.
pub fn read_variance(text: &str) -> Option<Variance>
    ensures { result ≡ variance_of text.now }
{
    find_value(
        &[
            ("b", Variance::Bivariant),
            ("c", Variance::Covariant),
            ("v", Variance::Contravariant),
            ("i", Variance::Invariant),
        ],
        text,
    )
}

/// Whether a text is the word that declares a shape without a size.
pub fn is_unsized(text: &str) -> bool
    ensures { result ≡ is_the_word_unsized text.now }
{
    text == "unsized"
}

// The value beside a text in a table, the first of equal ones.
fn find_value<T: Copy>(table: &[(&str, T)], text: &str) -> Option<T>
    ensures { result ≡ entry_of (map (λ entry. (entry.0.now, entry.1)) table.now) text.now }
{
    for entry in table {
        if text == entry.0 {
            return Some(entry.1);
        }
    }
    None
}
