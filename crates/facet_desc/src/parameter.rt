ghost use Rattle.std.specs.Prelude.{◌≡◌};

use facet_base::{ShapeId, Text};

/// A type parameter and the type that stands for it.
#[derive(Drop)]
pub struct TypeParam {
    pub name: Text,
    pub shape: ShapeId,
}

impl TypeParam {
    /// The shape of the type that stands for it.
    pub fn shape(&self) -> ShapeId
        ensures { result ≡ self.now.shape }
    {
        self.shape
    }
}

/// A const parameter and its value.
#[derive(Drop)]
pub struct ConstParam {
    pub name: Text,
    pub value: u64,
    pub kind: ConstParamKind,
}

/// The types of const parameters.
#[derive(Clone, Copy, PartialEq, Eq, Hash, Debug)]
pub enum ConstParamKind {
    Bool,
    Char,
    U8,
    U16,
    U32,
    U64,
    Usize,
    I8,
    I16,
    I32,
    I64,
    Isize,
}
