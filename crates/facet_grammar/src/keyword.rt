ghost use Rattle.std.specs.Prelude.{◌≡◌};
ghost use Rattle.facet_grammar.specs.Keywords.{text_of};

/// A fixed word of the grammar.
#[derive(Clone, Copy)]
pub enum Keyword {
    /// `put`
    Put,
    /// `default`
    Default,
    /// `seal`
    Seal,
    /// `shape`
    Shape,
    /// `option`
    Option,
    /// `list`
    List,
    /// `set`
    Set,
    /// `slice`
    Slice,
    /// `box`
    Box,
    /// `boxed_slice`
    BoxedSlice,
    /// `array`
    Array,
    /// `map`
    Map,
    /// `result`
    Result,
    /// `tuple`
    Tuple,
    /// `struct`
    Struct,
    /// `tuple_struct`
    TupleStruct,
    /// `enum`
    Enum,
    /// `opaque`
    Opaque,
    /// `unsized`
    Unsized,
    /// `scalar`
    Scalar,
}

impl Keyword {
    /// The word.
    pub fn text(self) -> &'static str
        ensures { result.now ≡ text_of self }
    {
        match self {
            Keyword::Put => "put",
            Keyword::Default => "default",
            Keyword::Seal => "seal",
            Keyword::Shape => "shape",
            Keyword::Option => "option",
            Keyword::List => "list",
            Keyword::Set => "set",
            Keyword::Slice => "slice",
            Keyword::Box => "box",
            Keyword::BoxedSlice => "boxed_slice",
            Keyword::Array => "array",
            Keyword::Map => "map",
            Keyword::Result => "result",
            Keyword::Tuple => "tuple",
            Keyword::Struct => "struct",
            Keyword::TupleStruct => "tuple_struct",
            Keyword::Enum => "enum",
            Keyword::Opaque => "opaque",
            Keyword::Unsized => "unsized",
            Keyword::Scalar => "scalar",
        }
    }
}
