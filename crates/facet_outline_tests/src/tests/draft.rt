use facet_base::{
    DeclId, Flags, HookId, KnownPointer, Layout, Many, NameForm, PointerFlags, ShapeId, Text,
    Variance, VarianceDep, VarianceDesc,
};
use facet_caps::{ArrayVTable, PointerVTable, VTableDirect};
use facet_def::{ArrayDef, Def, PointerDef};
use facet_desc::{
    Attr, EnumRepr, Field, FieldBuilder, FormatProxy, ProxyDef, StructKind, Ty, TypeParam, Variant,
    VariantBuilder,
};
use facet_shape::{Shape, ShapeBuilder};
use std::alloc::{AllocError, Global};

// What the drafts vary. Each has twelve bytes, aligned to 4, and refers to the shapes of `with_others`.
#[derive(Clone, Copy)]
pub struct Draft {
    pub ty: Type,
    pub def: Definition,
    pub form: Form,
    // Its values are parsed.
    pub parses: bool,
}

#[derive(Clone, Copy)]
pub enum Type {
    Undefined,
    // A struct with the fields #6 at 0 and #5 at this offset.
    Struct(usize),
    // A tuple of #5.
    Tuple,
    // An enum with a tag of one byte, and the variants #6 at 4 with this discriminant, and #5 at 8 without one.
    Enum(i64),
}

#[derive(Clone, Copy)]
pub enum Definition {
    Undefined,
    // An array of 1,024 of #6.
    Array,
    // A pointer to #3, with a strong pointer #4 and a weak one #11.
    Pointer(Option<KnownPointer>),
}

#[derive(Clone, Copy)]
pub enum Form {
    Identifier,
    Vec,
    Map,
    Array,
    Slice,
    Tuple,
}

pub const EMPTY: Draft = Draft {
    ty: Type::Undefined,
    def: Definition::Undefined,
    form: Form::Identifier,
    parses: false,
};

fn fields(alloc: Global, rows: &[(u32, usize)]) -> Result<Many<Field>, AllocError> {
    let mut fields = Many::new(alloc);
    for (shape, offset) in rows {
        let name = Text::new(alloc, "x")?;
        fields.push(FieldBuilder::new(alloc, name, ShapeId(*shape), *offset).build())?;
    }
    Ok(fields)
}

fn variant(alloc: Global, shape: u32, offset: usize) -> Result<Variant, AllocError> {
    let fields = fields(alloc, &[(shape, offset)])?;
    let name = Text::new(alloc, "A")?;
    Ok(VariantBuilder::tuple(alloc, name, fields).build())
}

fn variants(alloc: Global, discriminant: i64) -> Result<Many<Variant>, AllocError> {
    let mut first = variant(alloc, 6, 4)?;
    first.discriminant = Some(discriminant);
    let mut variants = Many::new(alloc);
    variants.push(first)?;
    variants.push(variant(alloc, 5, 8)?)?;
    Ok(variants)
}

fn ty(alloc: Global, ty: Type) -> Result<Ty, AllocError> {
    match ty {
        Type::Undefined => Ok(Ty::Undefined),
        Type::Struct(offset) => {
            let fields = fields(alloc, &[(6, 0), (5, offset)])?;
            Ok(Ty::struct_builder(StructKind::Struct, fields).build())
        }
        Type::Tuple => {
            let fields = fields(alloc, &[(5, 0)])?;
            Ok(Ty::struct_builder(StructKind::Tuple, fields).build())
        }
        Type::Enum(discriminant) => {
            let variants = variants(alloc, discriminant)?;
            Ok(Ty::enum_builder(EnumRepr::U8, variants).build())
        }
    }
}

fn array() -> Def {
    match ArrayVTable::builder().as_ptr(true).as_mut_ptr(true).build() {
        Ok(vtable) => Def::Array(ArrayDef::new(vtable, ShapeId(6), 1024)),
        Err(_) => Def::Undefined,
    }
}

fn def(def: Definition) -> Def {
    match def {
        Definition::Undefined => Def::Undefined,
        Definition::Array => array(),
        Definition::Pointer(known) => {
            Def::Pointer(PointerDef {
                vtable: PointerVTable::new(),
                pointee: Some(ShapeId(3)),
                weak: Some(ShapeId(11)),
                strong: Some(ShapeId(4)),
                flags: PointerFlags::empty(),
                known,
            })
        }
    }
}

fn named(builder: ShapeBuilder, form: Form) -> ShapeBuilder {
    match form {
        Form::Identifier => builder,
        Form::Vec => builder.type_name(NameForm::Vec),
        Form::Map => builder.type_name(NameForm::Map),
        Form::Array => builder.type_name(NameForm::Array),
        Form::Slice => builder.type_name(NameForm::Slice),
        Form::Tuple => builder.type_name(NameForm::Tuple),
    }
}

fn proxy(shape: u32) -> ProxyDef {
    ProxyDef {
        shape: ShapeId(shape),
        convert_in: HookId(0),
        convert_out: HookId(0),
    }
}

// The parameters #1 and #2.
fn parameters(alloc: Global) -> Result<Many<TypeParam>, AllocError> {
    let mut parameters = Many::new(alloc);
    for shape in [1, 2] {
        let name = Text::new(alloc, "T")?;
        parameters.push(TypeParam {
            name,
            shape: ShapeId(shape),
        })?;
    }
    Ok(parameters)
}

// The proxy #9 of a format.
fn format_proxies(alloc: Global) -> Result<Many<FormatProxy>, AllocError> {
    let format = Text::new(alloc, "json")?;
    let mut proxies = Many::new(alloc);
    proxies.push(FormatProxy {
        format,
        proxy: proxy(9),
    })?;
    Ok(proxies)
}

// An attribute that holds #12.
fn attributes(alloc: Global) -> Result<Many<Attr>, AllocError> {
    let key = Text::new(alloc, "a")?;
    let mut attributes = Many::new(alloc);
    attributes.push(Attr::new_shape(None, key, ShapeId(12)))?;
    Ok(attributes)
}

// The dependency #10.
fn variance(alloc: Global) -> Result<VarianceDesc, AllocError> {
    let mut dependencies = Many::new(alloc);
    dependencies.push(VarianceDep::covariant(ShapeId(10)))?;
    Ok(VarianceDesc::new(Variance::Bivariant, dependencies))
}

// With the parameters #1 and #2, #6 inside, #7 as its builder, the proxies #8 and #9, the dependency #10 and an
// attribute that holds #12.
fn with_others(alloc: Global) -> Result<ShapeBuilder, AllocError> {
    let parameters = parameters(alloc)?;
    let proxies = format_proxies(alloc)?;
    let variance = variance(alloc)?;
    let attributes = attributes(alloc)?;
    let name = Text::new(alloc, "T")?;
    Ok(
        ShapeBuilder::for_sized(alloc, name, Layout { size: 12, align: 4 })
            .decl_id(DeclId::new(1))
            .type_params(parameters)
            .inner(ShapeId(6))
            .builder_shape(ShapeId(7))
            .proxy(proxy(8))
            .format_proxies(proxies)
            .variance(variance)
            .attributes(attributes),
    )
}

// The shape of the draft. It has a declaration id, so it is built.
pub fn shape(alloc: Global, draft: Draft) -> Result<Option<Shape>, AllocError> {
    let ty = ty(alloc, draft.ty)?;
    let capabilities = VTableDirect {
        parse: draft.parses,
        ..VTableDirect::empty()
    };
    let builder = named(with_others(alloc)?, draft.form)
        .ty(ty)
        .def(def(draft.def))
        .vtable_direct(capabilities);
    match builder.build() {
        Ok(shape) => Ok(Some(shape)),
        Err(_) => Ok(None),
    }
}
