use facet_base::{ShapeId, Text};
use facet_desc::StructKind;
use sqlite_items::Items;

/// A field of a declaration.
#[derive(Drop)]
pub struct FieldDecl {
    pub name: Text,
    /// The shape of its values.
    pub shape: ShapeId,
    /// Where it lies in the struct or the variant, in bytes.
    pub offset: u32,
    /// Whether printed values hide it.
    pub sensitive: bool,
}

/// A variant of a declared enum.
#[derive(Drop)]
pub struct VariantDecl {
    pub name: Text,
    /// The given discriminant. Without one it is the variant's index.
    pub discriminant: Option<i64>,
    /// `Unit` without fields, else `TupleStruct` or `Struct`.
    pub kind: StructKind,
    pub fields: Items<FieldDecl>,
}
