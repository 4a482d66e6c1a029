ghost use Rattle.std.specs.Prelude.{◌≡◌, Some};

use crate::shape_builder::ShapeBuilder;
use facet_base::{
    DeclId, Many, MarkerTraits, NameForm, ScalarType, ShapeFlags, ShapeId, ShapeLayout, Text,
    VarianceDesc,
};
use facet_caps::{
    TypeOps, TypeOpsDirect, TypeOpsIndirect, VTableDirect, VTableErased, VTableIndirect,
};
use facet_def::Def;
use facet_desc::{Attr, ConstParam, FormatProxy, OpaqueAdapterDef, ProxyDef, Ty, TypeParam};

impl ShapeBuilder {
    /// Sets the id of the type's declaration.
    pub fn decl_id(mut self, value: DeclId) -> Self
        ensures { result ≡ record self { decl_id = value } }
    {
        self.shape.decl_id = value;
        self
    }

    /// Sets the layout of its values.
    pub fn layout(mut self, value: ShapeLayout) -> Self
        ensures { result ≡ record self { layout = value } }
    {
        self.shape.layout = value;
        self
    }

    /// Sets what can be done with its values.
    pub fn vtable(mut self, value: VTableErased) -> Self
        ensures { result ≡ record self { vtable = value } }
    {
        self.shape.vtable = value;
        self
    }

    /// Sets what can be done with its values, of a concrete type.
    pub fn vtable_direct(self, value: VTableDirect) -> Self
        ensures { result ≡ record self { vtable = VTableErased.Direct value } }
    {
        self.vtable(VTableErased::Direct(value))
    }

    /// Sets what can be done with its values, of a generic type.
    pub fn vtable_indirect(self, value: VTableIndirect) -> Self
        ensures { result ≡ record self { vtable = VTableErased.Indirect value } }
    {
        self.vtable(VTableErased::Indirect(value))
    }

    /// Sets the operations of the type.
    pub fn type_ops(mut self, value: TypeOps) -> Self
        ensures { result ≡ record self { type_ops = Some value } }
    {
        self.shape.type_ops = Some(value);
        self
    }

    /// Sets the operations of the type, a concrete one.
    pub fn type_ops_direct(self, value: TypeOpsDirect) -> Self
        ensures { result ≡ record self { type_ops = Some (TypeOps.Direct value) } }
    {
        self.type_ops(TypeOps::Direct(value))
    }

    /// Sets the operations of the type, a generic one.
    pub fn type_ops_indirect(self, value: TypeOpsIndirect) -> Self
        ensures { result ≡ record self { type_ops = Some (TypeOps.Indirect value) } }
    {
        self.type_ops(TypeOps::Indirect(value))
    }

    /// Sets the marker traits that the type has.
    pub fn marker_traits(mut self, value: MarkerTraits) -> Self
        ensures { result ≡ record self { marker_traits = value } }
    {
        self.shape.marker_traits = value;
        self
    }

    /// Sets what kind of type it is.
    pub fn ty(mut self, value: Ty) -> Self
        ensures { result ≡ record self { ty = value } }
    {
        self.shape.ty = value;
        self
    }

    /// Sets the definition of its values.
    pub fn def(mut self, value: Def) -> Self
        ensures { result ≡ record self { def = value } }
    {
        self.shape.def = value;
        self
    }

    /// Sets the identifier of the type.
    pub fn type_identifier(mut self, value: Text) -> Self
        ensures { result ≡ record self { type_identifier = value } }
    {
        self.shape.type_identifier = value;
        self
    }

    /// Sets the path of the module that declares the type.
    pub fn module_path(mut self, value: Text) -> Self
        ensures { result ≡ record self { module_path = Some value } }
    {
        self.shape.module_path = Some(value);
        self
    }

    /// Sets the file that declares the type.
    pub fn source_file(mut self, value: Text) -> Self
        ensures { result ≡ record self { source_file = Some value } }
    {
        self.shape.source_file = Some(value);
        self
    }

    /// Sets the line of that file.
    pub fn source_line(mut self, value: u32) -> Self
        ensures { result ≡ record self { source_line = Some value } }
    {
        self.shape.source_line = Some(value);
        self
    }

    /// Sets the column of that line.
    pub fn source_column(mut self, value: u32) -> Self
        ensures { result ≡ record self { source_column = Some value } }
    {
        self.shape.source_column = Some(value);
        self
    }

    /// Sets the type parameters, with the types that stand for them.
    pub fn type_params(mut self, value: Many<TypeParam>) -> Self
        ensures { result ≡ record self { type_params = value } }
    {
        self.shape.type_params = value;
        self
    }

    /// Sets the const parameters, with their values.
    pub fn const_params(mut self, value: Many<ConstParam>) -> Self
        ensures { result ≡ record self { const_params = value } }
    {
        self.shape.const_params = value;
        self
    }

    /// Sets the lines of its description.
    pub fn doc(mut self, value: Many<Text>) -> Self
        ensures { result ≡ record self { doc = value } }
    {
        self.shape.doc = value;
        self
    }

    /// Sets the attributes.
    pub fn attributes(mut self, value: Many<Attr>) -> Self
        ensures { result ≡ record self { attributes = value } }
    {
        self.shape.attributes = value;
        self
    }

    /// Sets the tag by which self-describing formats identify the type.
    pub fn type_tag(mut self, value: Text) -> Self
        ensures { result ≡ record self { type_tag = Some value } }
    {
        self.shape.type_tag = Some(value);
        self
    }

    /// Sets the shape of the value that it wraps.
    pub fn inner(mut self, value: ShapeId) -> Self
        ensures { result ≡ record self { inner = Some value } }
    {
        self.shape.inner = Some(value);
        self
    }

    /// Sets the shape that is built first, and then converted into a value of it.
    pub fn builder_shape(mut self, value: ShapeId) -> Self
        ensures { result ≡ record self { builder_shape = Some value } }
    {
        self.shape.builder_shape = Some(value);
        self
    }

    /// Sets the form in which its name is written.
    pub fn type_name(mut self, value: NameForm) -> Self
        ensures { result ≡ record self { type_name = Some value } }
    {
        self.shape.type_name = Some(value);
        self
    }

    /// Sets the general proxy.
    pub fn proxy(mut self, value: ProxyDef) -> Self
        ensures { result ≡ record self { proxy = Some value } }
    {
        self.shape.proxy = Some(value);
        self
    }

    /// Sets the proxies for formats.
    pub fn format_proxies(mut self, value: Many<FormatProxy>) -> Self
        ensures { result ≡ record self { format_proxies = value } }
    {
        self.shape.format_proxies = value;
        self
    }

    /// Sets the hooks that write and read its values.
    pub fn opaque_adapter(mut self, value: OpaqueAdapterDef) -> Self
        ensures { result ≡ record self { opaque_adapter = Some value } }
    {
        self.shape.opaque_adapter = Some(value);
        self
    }

    /// Sets how the lifetimes in the type may change.
    pub fn variance(mut self, value: VarianceDesc) -> Self
        ensures { result ≡ record self { variance = value } }
    {
        self.shape.variance = value;
        self
    }

    /// Sets the flags.
    pub fn flags(mut self, value: ShapeFlags) -> Self
        ensures { result ≡ record self { flags = value } }
    {
        self.shape.flags = value;
        self
    }

    /// Sets the name of the field that holds the tag of an enum.
    pub fn tag(mut self, value: Text) -> Self
        ensures { result ≡ record self { tag = Some value } }
    {
        self.shape.tag = Some(value);
        self
    }

    /// Sets the name of the field that holds the content of an enum beside its tag.
    pub fn content(mut self, value: Text) -> Self
        ensures { result ≡ record self { content = Some value } }
    {
        self.shape.content = Some(value);
        self
    }

    /// Sets the name that stands in place of its identifier.
    pub fn rename(mut self, value: Text) -> Self
        ensures { result ≡ record self { rename = Some value } }
    {
        self.shape.rename = Some(value);
        self
    }

    /// Sets the kind of scalar that its values are.
    pub fn scalar(mut self, value: ScalarType) -> Self
        ensures { result ≡ record self { scalar = Some value } }
    {
        self.shape.scalar = Some(value);
        self
    }
}
