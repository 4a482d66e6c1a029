use facet_base::{Many, ShapeId, Text};
use facet_desc::{
    ArrayType, EnumRepr, Field, FieldBuilder, PrimitiveType, SequenceType, SliceType, StructKind,
    Ty, UserType, Variant, VariantBuilder,
};
use std::alloc::{AllocError, Global};

// Fields, by their shapes and offsets.
pub type Fields<'a> = &'a [(u32, usize)];

// Variants, by their names, discriminants and fields.
pub type Variants<'a> = &'a [(&'a str, i64, Fields<'a>)];

// A type.
#[derive(Clone, Copy)]
pub enum Type<'a> {
    Untyped,
    Opaque,
    Boolean,
    Array(u32, usize),
    Slice(u32),
    Struct(Fields<'a>),
    Enum(EnumRepr, Variants<'a>),
}

fn fields(alloc: Global, listed: Fields) -> Result<Many<Field>, AllocError> {
    let mut fields = Many::new(alloc);
    for (shape, offset) in listed {
        let name = Text::new(alloc, "x")?;
        fields.push(FieldBuilder::new(alloc, name, ShapeId(*shape), *offset).build())?;
    }
    Ok(fields)
}

fn variant(
    alloc: Global,
    name: &str,
    discriminant: i64,
    listed: Fields,
) -> Result<Variant, AllocError> {
    let fields = fields(alloc, listed)?;
    let builder = VariantBuilder::tuple(alloc, Text::new(alloc, name)?, fields);
    Ok(builder.discriminant(discriminant).build())
}

fn variants(alloc: Global, listed: Variants) -> Result<Many<Variant>, AllocError> {
    let mut variants = Many::new(alloc);
    for (name, discriminant, fields) in listed {
        variants.push(variant(alloc, name, *discriminant, fields)?)?;
    }
    Ok(variants)
}

// The type with its parts.
pub fn ty(alloc: Global, listed: Type) -> Result<Ty, AllocError> {
    let ty = match listed {
        Type::Untyped => Ty::Undefined,
        Type::Opaque => Ty::User(UserType::Opaque),
        Type::Boolean => Ty::Primitive(PrimitiveType::Boolean),
        Type::Array(t, n) => Ty::Sequence(SequenceType::Array(ArrayType { t: ShapeId(t), n })),
        Type::Slice(t) => Ty::Sequence(SequenceType::Slice(SliceType { t: ShapeId(t) })),
        Type::Struct(listed) => {
            Ty::struct_builder(StructKind::Struct, fields(alloc, listed)?).build()
        }
        Type::Enum(repr, listed) => Ty::enum_builder(repr, variants(alloc, listed)?).build(),
    };
    Ok(ty)
}
