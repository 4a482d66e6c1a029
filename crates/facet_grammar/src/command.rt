use facet_base::{ShapeId, Text};
use facet_declaration::Decl;

/// A command, with its tokens in the order of the grammar.
#[derive(Drop)]
pub enum Command {
    /// `shape DECL`: the declaration of a shape.
    Shape(Decl),
    /// `seal`: the check of the drafts, which are sealed if it passes.
    Seal,
    /// `put NAME REF TEXT`: the new cell's name, its shape, and the text of its value.
    Put(Text, ShapeId, Text),
    /// `default NAME REF`: the new cell's name and its shape.
    Default(Text, ShapeId),
}
