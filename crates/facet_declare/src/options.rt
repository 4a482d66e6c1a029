ghost use Rattle.std.specs.Prelude.{◌≡◌, IfOk};
ghost use Rattle.facet_declare.specs.Options.{no_options, options_of as all_options, with_option, with_options};
ghost use Rattle.facet_shape.specs.ShapeBuilder.{fresh_shape};
ghost use Rattle.facet_shape.specs.WithoutSpare.{shape_without_spare};

use facet_base::{DeclId, Many, ShapeLayout, Text, Variance, VarianceDep, VarianceDesc};
use facet_desc::{Repr, TypeParam};
use facet_shape::ShapeBuilder;
use facet_words::Opt;
use std::alloc::{AllocError, Global};
use std::marker::Model;

/// What the options of a declaration say of a type. Contracts see each list by its items.
#[derive(Drop)]
pub struct Options {
    pub repr: Repr,
    decl_id: u32,
    module_path: Option<Text>,
    type_params: Many<TypeParam>,
    base: Variance,
    deps: Many<VarianceDep>,
}

impl Model for Options {
    ghost use Rattle.facet_declare.specs.Options.{Options};

    ghost Value = { Options };

    ghost view = { λ o. record { repr = o.repr; decl_id = o.decl_id; module_path = o.module_path; type_params = o.type_params.items; base = o.base; deps = o.deps.items } };
}

impl Options {
    // What no option says.
    fn new(alloc: Global) -> Options
        ensures { result ≡ no_options }
    {
        Options {
            repr: Repr::C,
            decl_id: 0,
            module_path: None,
            type_params: Many::new(alloc),
            base: Variance::Bivariant,
            deps: Many::new(alloc),
        }
    }

    // What one option more says.
    fn with_option(mut self, alloc: Global, option: &Opt) -> Result<Options, AllocError>
        ensures { IfOk result (λ more. more ≡ with_option self option.now) }
    {
        match option {
            Opt::Repr(base) => self.repr.base = *base,
            Opt::Packed => self.repr.packed = true,
            Opt::Id(id) => self.decl_id = *id,
            Opt::Mod(path) => self.module_path = Some(path.try_clone(alloc)?),
            Opt::Param(name, shape) => {
                let name = name.try_clone(alloc)?;
                self.type_params.push(TypeParam {
                    name,
                    shape: *shape,
                })?;
            }
            Opt::Base(base) => self.base = *base,
            Opt::Dep(position, shape) => self.deps.push(VarianceDep {
                position: *position,
                shape: *shape,
            })?,
        }
        Ok(self)
    }
}

/// What the options of a declaration say.
pub fn options_of(alloc: Global, options: &[Opt]) -> Result<Options, AllocError>
    ensures { IfOk result (λ all. all ≡ all_options options.now) }
{
    let mut all = Options::new(alloc);
    for option in options {
        all = all.with_option(alloc, option)?;
    }
    Ok(all)
}

/// Begins the shape of a type of this name and layout of which the options say that, with nothing else set.
pub fn begin(
    alloc: Global,
    name: &Text,
    layout: ShapeLayout,
    options: Options,
) -> Result<ShapeBuilder, AllocError>
    ensures { IfOk result (λ builder. shape_without_spare builder ≡ with_options options (fresh_shape name.now layout)) }
{
    let builder = ShapeBuilder::for_unsized(alloc, name.try_clone(alloc)?)
        .layout(layout)
        .decl_id(DeclId::new(options.decl_id as u128))
        .type_params(options.type_params)
        .variance(VarianceDesc::new(options.base, options.deps));
    match options.module_path {
        Some(path) => Ok(builder.module_path(path)),
        None => Ok(builder),
    }
}
