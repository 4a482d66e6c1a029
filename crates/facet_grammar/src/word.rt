ghost use Rattle.std.specs.Prelude.{◌≡◌, ℕ, List, Option, IfOk};
ghost use Rattle.facet_declaration.specs.Fields.{field_of};
ghost use Rattle.facet_declaration.specs.Variants.{variant_of};
ghost use Rattle.facet_grammar.specs.Tokens.{name_of, shape_of};
ghost use Rattle.facet_words.specs.Options.{option_of};

use facet_base::{ShapeId, Text};
use facet_declaration::{FieldDecl, VariantDecl, read_field, read_variant};
use facet_words::{Opt, is_name, read_option, read_reference};
use std::alloc::{AllocError, Global};

/// A word of one piece, of which a line may have several in a row.
pub trait Word: Sized + Drop {
    /// The word that a piece is.
    ghost of: { List ℕ → Option Self };

    /// The word that a piece is, if it is one.
    fn read(alloc: Global, piece: &str) -> Result<Option<Self>, AllocError>
        ensures { IfOk result (λ found. found ≡ of piece.now) };
}

// Texts in a row are names.
impl Word for Text {
    ghost of = { name_of };

    fn read(alloc: Global, piece: &str) -> Result<Option<Text>, AllocError> {
        if is_name(piece) {
            Ok(Some(Text::new(alloc, piece)?))
        } else {
            Ok(None)
        }
    }
}

impl Word for ShapeId {
    ghost of = { shape_of };

    fn read(_alloc: Global, piece: &str) -> Result<Option<ShapeId>, AllocError> {
        Ok(read_reference(piece).map(|n| ShapeId(n)))
    }
}

impl Word for Opt {
    ghost of = { option_of };

    fn read(alloc: Global, piece: &str) -> Result<Option<Opt>, AllocError> {
        read_option(alloc, piece)
    }
}

impl Word for FieldDecl {
    ghost of = { field_of };

    fn read(alloc: Global, piece: &str) -> Result<Option<FieldDecl>, AllocError> {
        read_field(alloc, piece)
    }
}

impl Word for VariantDecl {
    ghost of = { variant_of };

    fn read(alloc: Global, piece: &str) -> Result<Option<VariantDecl>, AllocError> {
        read_variant(alloc, piece)
    }
}
