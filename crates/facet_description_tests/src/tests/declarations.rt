use super::begin;
use facet_base::{DeclId, Many, ShapeId, Text};
use facet_caps::ArrayVTable;
use facet_def::{ArrayDef, Def};
use facet_desc::{ConstParam, ConstParamKind, TypeParam};
use facet_shape::ShapeBuilder;
use std::alloc::{AllocError, Global};
use std::test::Fail;

fn type_param(alloc: Global) -> Result<Many<TypeParam>, AllocError> {
    let mut params = Many::new(alloc);
    params.push(TypeParam {
        name: Text::new(alloc, "T")?,
        shape: ShapeId(6),
    })?;
    Ok(params)
}

fn const_param(alloc: Global) -> Result<Many<ConstParam>, AllocError> {
    let mut params = Many::new(alloc);
    params.push(ConstParam {
        name: Text::new(alloc, "N")?,
        value: 3,
        kind: ConstParamKind::Usize,
    })?;
    Ok(params)
}

fn array(n: usize) -> Def {
    let vtable = ArrayVTable {
        as_ptr: true,
        as_mut_ptr: true,
    };
    Def::Array(ArrayDef::new(vtable, ShapeId(6), n))
}

// Whether the type that is built is an array, and its declaration id.
fn built(builder: ShapeBuilder) -> Option<(bool, u128)> {
    match builder.build() {
        Ok(shape) => Some((shape.ty.kind_str() == "array", shape.decl_id.0)),
        Err(_) => None,
    }
}

// What is built of a type with a type parameter, this declaration id and no module path; 0 is no id.
fn without_path(alloc: Global, decl_id: u128) -> Result<Option<(bool, u128)>, AllocError> {
    let identifier = Text::new(alloc, "Grid")?;
    let params = type_param(alloc)?;
    let builder = begin(alloc, identifier).type_params(params);
    Ok(built(builder.decl_id(DeclId(decl_id))))
}

// What is built of a type with a module path and no parameters.
fn without_parameters(alloc: Global) -> Result<Option<(bool, u128)>, AllocError> {
    let identifier = Text::new(alloc, "Grid")?;
    let path = Text::new(alloc, "geometry")?;
    Ok(built(begin(alloc, identifier).module_path(path)))
}

// What is built of an array with a const parameter and a module path.
fn generic(alloc: Global) -> Result<Option<(bool, u128)>, AllocError> {
    let identifier = Text::new(alloc, "Grid")?;
    let params = const_param(alloc)?;
    let path = Text::new(alloc, "geometry")?;
    let builder = begin(alloc, identifier).const_params(params);
    Ok(built(builder.module_path(path).def(array(3))))
}

// The hashes are those of `Grid` and of `@geometry#array#Grid`.
const HASH: u128 = 138851089735242672527269273822017239145;

const GENERIC_HASH: u128 = 79999020198012046017194262597885632006;

#[test]
fn a_declaration_id_is_the_given_one_or_a_hash(rt: HostRuntime) -> Result<(), Fail> {
    assert!(rt; without_path(rt.alloc(), 7)? == Some((false, 7)));
    assert!(rt; without_parameters(rt.alloc())? == Some((false, HASH)));
    assert!(rt; generic(rt.alloc())? == Some((true, GENERIC_HASH)));
    Ok(())
}

#[test]
fn a_generic_type_with_neither_id_nor_module_path_is_refused(rt: HostRuntime) -> Result<(), Fail> {
    assert!(rt; without_path(rt.alloc(), 0)? == None);
    Ok(())
}
