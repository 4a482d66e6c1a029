ghost use Rattle.std.specs.Prelude.{◌≡◌, IfOk, map};
ghost use Rattle.facet_declare.specs.Parts.{declared_body, declared_field as field_of, declared_struct as struct_of, declared_variant as variant_of};
ghost use Rattle.facet_desc.specs.WithoutSpare.{field_without_spare, struct_without_spare, variant_without_spare};

use facet_base::{FieldFlags, Flags, Many};
use facet_declaration::{FieldDecl, VariantDecl};
use facet_desc::{Field, FieldBuilder, Repr, StructKind, StructType, Variant, VariantBuilder};
use std::alloc::{AllocError, Global};

// A field.
fn declared_field(alloc: Global, field: &FieldDecl) -> Result<Field, AllocError>
    ensures { IfOk result (λ made. field_without_spare made ≡ field_of field.now) }
{
    let name = field.name.try_clone(alloc)?;
    let flags = if field.sensitive {
        FieldFlags::SENSITIVE
    } else {
        FieldFlags::empty()
    };
    let builder = FieldBuilder::new(alloc, name, field.shape, field.offset as usize);
    Ok(builder.flags(flags).build())
}

// The fields, in order.
fn declared_fields(alloc: Global, fields: &[FieldDecl]) -> Result<Many<Field>, AllocError>
    ensures { IfOk result (λ made. map field_without_spare made.items ≡ map field_of fields.now) }
{
    let mut made = Many::new(alloc);
    for field in fields {
        made.push(declared_field(alloc, field)?)?;
    }
    Ok(made)
}

/// A struct of these fields.
pub fn declared_struct(
    alloc: Global,
    repr: Repr,
    kind: StructKind,
    fields: &[FieldDecl],
) -> Result<StructType, AllocError>
    ensures { IfOk result (λ made. struct_without_spare made ≡ struct_of repr kind fields.now) }
{
    Ok(StructType {
        repr,
        kind,
        fields: declared_fields(alloc, fields)?,
    })
}

// What a variant of a kind holds.
fn body_of(alloc: Global, kind: StructKind, fields: &[FieldDecl]) -> Result<StructType, AllocError>
    ensures { IfOk result (λ made. struct_without_spare made ≡ declared_body kind fields.now) }
{
    match kind {
        StructKind::Unit => Ok(StructType::unit(alloc)),
        _ => declared_struct(alloc, Repr::RUST, kind, fields),
    }
}

// A variant.
fn declared_variant(alloc: Global, variant: &VariantDecl) -> Result<Variant, AllocError>
    ensures { IfOk result (λ made. variant_without_spare made ≡ variant_of variant.now) }
{
    let name = variant.name.try_clone(alloc)?;
    let body = body_of(alloc, variant.kind, variant.fields.as_slice())?;
    let made = VariantBuilder::new(alloc, name, body).build();
    Ok(Variant {
        discriminant: variant.discriminant,
        ..made
    })
}

/// The variants, in order.
pub fn declared_variants(
    alloc: Global,
    variants: &[VariantDecl],
) -> Result<Many<Variant>, AllocError>
    ensures { IfOk result (λ made. map variant_without_spare made.items ≡ map variant_of variants.now) }
{
    let mut made = Many::new(alloc);
    for variant in variants {
        made.push(declared_variant(alloc, variant)?)?;
    }
    Ok(made)
}
