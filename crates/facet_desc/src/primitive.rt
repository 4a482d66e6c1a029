/// The types that the language has built in.
#[derive(Drop)]
pub enum PrimitiveType {
    Boolean,
    Numeric(NumericType),
    Textual(TextualType),
    Never,
}

/// The types of numbers.
#[derive(Drop)]
pub enum NumericType {
    Integer { signed: bool },
}

/// The types of characters and texts.
#[derive(Drop)]
pub enum TextualType {
    Char,
    Str,
}
