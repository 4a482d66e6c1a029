//! Facts about the words that fields and variants are: each is the contract of a function.

ghost use Rattle.std.specs.Prelude.{◌≡◌, ◌↔◌, ℕ, List, Some};
ghost use Rattle.facet_declaration.specs.declared.parts.FieldDecl.{FieldDecl};
ghost use Rattle.facet_declaration.specs.declared.parts.VariantDecl.{VariantDecl};
ghost use Rattle.facet_declaration.specs.Fields.{field_of, spell_field, IsField};
ghost use Rattle.facet_declaration.specs.Variants.{variant_of, spell_variant, IsVariant};

/// A text is a field exactly where this field can be written and is written as this text.
pub fn fields_are_inverse()
    ensures { (text : List ℕ) (field : FieldDecl) → (field_of text ≡ Some field) ↔ (IsField field × (spell_field field ≡ text)) }
{}

/// A text is a variant exactly where this variant can be written and is written as this text.
pub fn variants_are_inverse()
    ensures { (text : List ℕ) (variant : VariantDecl) → (variant_of text ≡ Some variant) ↔ (IsVariant variant × (spell_variant variant ≡ text)) }
{}
