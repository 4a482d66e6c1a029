ghost use Rattle.std.specs.Prelude.{◌≡◌, IfOk, codes};
ghost use Rattle.facet_desc.specs.Field.{fresh_field};
ghost use Rattle.facet_desc.specs.WithoutSpare.{field_without_spare, ty_without_spare, variant_without_spare};
ghost use Rattle.facet_makers.specs.Types.{none_variant, option_type, some_variant};

use facet_base::{Layout, Many, ShapeId, Text};
use facet_desc::{
    EnumRepr, EnumType, Field, FieldBuilder, Repr, Ty, UserType, Variant, VariantBuilder,
};
use facet_outline::option_offset;
use std::alloc::{AllocError, Global};

/// The type of an option.
pub fn option_type(alloc: Global, t: ShapeId, part: Layout) -> Result<Ty, AllocError>
    ensures { IfOk result (λ ty. ty_without_spare ty ≡ option_type t part) }
{
    let mut variants = Many::new(alloc);
    variants.push(none_variant(alloc)?)?;
    variants.push(some_variant(alloc, t, part)?)?;
    Ok(Ty::User(UserType::Enum(EnumType {
        repr: Repr::RUST,
        enum_repr: EnumRepr::Rust,
        variants,
        is_cow: false,
    })))
}

// `None`, of discriminant 0.
fn none_variant(alloc: Global) -> Result<Variant, AllocError>
    ensures { IfOk result (λ variant. variant_without_spare variant ≡ none_variant) }
{
    let name = Text::new(alloc, "None")?;
    Ok(VariantBuilder::unit(alloc, name).discriminant(0).build())
}

// `Some`, of discriminant 1, with one field.
fn some_variant(alloc: Global, t: ShapeId, part: Layout) -> Result<Variant, AllocError>
    ensures { IfOk result (λ variant. variant_without_spare variant ≡ some_variant t part) }
{
    let name = Text::new(alloc, "Some")?;
    let mut fields = Many::new(alloc);
    fields.push(only_field(alloc, t, option_offset(part))?)?;
    Ok(
        VariantBuilder::tuple(alloc, name, fields)
            .discriminant(1)
            .build(),
    )
}

// The field `0` of that shape at an offset.
fn only_field(alloc: Global, t: ShapeId, offset: usize) -> Result<Field, AllocError>
    ensures { IfOk result (λ field. field_without_spare field ≡ fresh_field (codes "0") t offset) }
{
    let name = Text::new(alloc, "0")?;
    Ok(FieldBuilder::new(alloc, name, t, offset).build())
}
