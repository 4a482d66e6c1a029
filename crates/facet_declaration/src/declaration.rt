use crate::parts::{FieldDecl, VariantDecl};
use facet_base::{ScalarType, ShapeId, Text};
use facet_desc::EnumRepr;
use facet_words::{Caps, Opt};
use sqlite_items::Items;

/// The declaration of a shape, with its parts in the order of the grammar. Two numbers in a row are size and
/// alignment, in bytes.
#[derive(Drop)]
pub enum Decl {
    /// The `Option` of a shape.
    OptionOf(ShapeId),
    /// The `Vec` of a shape.
    ListOf(ShapeId),
    /// The `BTreeSet` of a shape.
    SetOf(ShapeId),
    /// The slice of a shape.
    SliceOf(ShapeId),
    /// The `Box` of a shape.
    BoxOf(ShapeId),
    /// The `Box` of a shape that is a slice.
    BoxedSliceOf(ShapeId),
    /// The array of a shape, with its length.
    ArrayOf(ShapeId, u32),
    /// The `BTreeMap` of a key's and a value's shape.
    MapOf(ShapeId, ShapeId),
    /// The `Result` of two shapes.
    ResultOf(ShapeId, ShapeId),
    /// The tuple of 1 to 12 shapes.
    TupleOf(Items<ShapeId>),
    /// A struct with named fields.
    Struct(Text, u32, u32, Caps, Items<Opt>, Items<FieldDecl>),
    /// A tuple struct.
    TupleStruct(Text, u32, u32, Caps, Items<Opt>, Items<FieldDecl>),
    /// An enum.
    Enum(Text, u32, u32, EnumRepr, Caps, Items<Opt>, Items<VariantDecl>),
    /// A type of which nothing but its layout is known.
    Opaque(Text, u32, u32, Items<Opt>),
    /// An unsized type of which nothing is known.
    OpaqueUnsized(Text, Items<Opt>),
    /// A scalar of a kind.
    Scalar(Text, ScalarType, u32, u32, Caps),
}
