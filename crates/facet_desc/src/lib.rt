//! Descriptions of types: attributes, the kinds of types with their parts, fields, variants and proxies.
#![tactic(auto)]

mod attribute;
mod enum_type;
mod field;
mod field_attributes;
mod field_builder;
mod function;
mod name;
mod parameter;
mod pointer;
mod primitive;
mod proxy;
mod repr;
mod sequence;
mod struct_type;
mod ty;
mod variant;
mod variant_attributes;
mod variant_builder;

pub use attribute::{
    Attr, AttrData, AttrKind, FieldAttribute, ShapeAttribute, VariantAttribute, find_attr,
    has_attr, has_markup_attr,
};
pub use enum_type::{EnumType, EnumTypeBuilder};
pub use field::{DefaultSource, Field};
pub use field_builder::FieldBuilder;
pub use function::{FunctionAbi, FunctionPointerDef};
pub use name::effective_name;
pub use parameter::{ConstParam, ConstParamKind, TypeParam};
pub use pointer::{PointerType, ValuePointerType};
pub use primitive::{NumericType, PrimitiveType, TextualType};
pub use proxy::{
    FormatProxy, OpaqueAdapterDef, ProxyDef, effective_proxy, first_proxy, has_any_proxy,
};
pub use repr::{BaseRepr, EnumRepr, Repr};
pub use sequence::{ArrayType, SequenceType, SliceType};
pub use struct_type::{StructKind, StructType, StructTypeBuilder};
pub use ty::{Ty, TypeEnumBuilder, TypeStructBuilder, UserType};
pub use variant::Variant;
pub use variant_builder::VariantBuilder;
