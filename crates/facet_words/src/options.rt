ghost use Rattle.std.specs.Prelude.{◌≡◌, IfOk};
ghost use Rattle.std.specs.List.{list_all};
ghost use Rattle.facet_words.specs.declared.option_key.OptionKey.TheVariants as key;
ghost use Rattle.facet_words.specs.Options.{are_ordered as are_in_order, dep_of, is_for_opaque, next_rank as rank_behind, option_behind, option_of, param_of, rank as rank_of};

use crate::fixed::{read_base, read_variance};
use crate::option_key::{OPTION_KEYS, OptionKey, find_key};
use crate::path::read_path;
use crate::word::{is_name, read_number, read_reference};
use facet_base::{ShapeId, Text, Variance, VariancePosition};
use facet_desc::BaseRepr;
use std::alloc::{AllocError, Global};

/// An option of a declaration. Options stand in the order of the variants; `Param` and `Dep` may stand more than once.
#[derive(Drop)]
pub enum Opt {
    /// `.repr=`: whose layout the type has.
    Repr(BaseRepr),
    /// `.packed`: without space between fields.
    Packed,
    /// `.id=`: the declaration's id.
    Id(u32),
    /// `.mod=`: the module path.
    Mod(Text),
    /// `.param=`: a type parameter, by its name.
    Param(Text, ShapeId),
    /// `.base=`: the variance of the type's own.
    Base(Variance),
    /// `.dep=`: a shape on which the variance depends.
    Dep(VariancePosition, ShapeId),
}

/// The option that a text is, if it is one.
pub fn read_option(alloc: Global, text: &str) -> Result<Option<Opt>, AllocError>
    ensures { IfOk result (λ found. found ≡ option_of text.now) }
{
    match find_key(&OPTION_KEYS, text) {
        Some((key, word)) => read_behind(alloc, key, word),
        None => Ok(None),
    }
}

// The option that begins so, with this word behind it.
fn read_behind(alloc: Global, key: OptionKey, word: &str) -> Result<Option<Opt>, AllocError>
    ensures { IfOk result (λ found. found ≡ option_behind key word.now) }
{
    match key {
        OptionKey::Repr => Ok(read_base(word).map(|base| Opt::Repr(base))),
        OptionKey::Packed => Ok(read_packed(word)),
        OptionKey::Id => Ok(read_number(word).map(|id| Opt::Id(id))),
        OptionKey::Mod => match read_path(alloc, word)? {
            Some(path) => Ok(Some(Opt::Mod(path))),
            None => Ok(None),
        },
        OptionKey::Param => read_param(alloc, word),
        OptionKey::Base => Ok(read_variance(word).map(|base| Opt::Base(base))),
        OptionKey::Covariant => Ok(read_dep(VariancePosition::Covariant, word)),
        OptionKey::Contravariant => Ok(read_dep(VariancePosition::Contravariant, word)),
        OptionKey::Invariant => Ok(read_dep(VariancePosition::Invariant, word)),
    }
}

// Nothing stands behind `.packed`.
fn read_packed(word: &str) -> Option<Opt>
    ensures { result ≡ option_behind key.Packed word.now }
{
    if word.is_empty() {
        Some(Opt::Packed)
    } else {
        None
    }
}

// A name, a colon and a reference.
fn read_param(alloc: Global, word: &str) -> Result<Option<Opt>, AllocError>
    ensures { IfOk result (λ found. found ≡ param_of word.now) }
{
    let Some((name, reference)) = word.split_once(':') else {
        return Ok(None);
    };
    if !is_name(name) {
        return Ok(None);
    }
    match read_reference(reference) {
        Some(shape) => Ok(Some(Opt::Param(Text::new(alloc, name)?, ShapeId(shape)))),
        None => Ok(None),
    }
}

// A reference, in a position.
fn read_dep(position: VariancePosition, word: &str) -> Option<Opt>
    ensures { result ≡ dep_of position word.now }
{
    read_reference(word).map(|shape| Opt::Dep(position, ShapeId(shape)))
}

/// Whether options stand in their order, each at most once but parameters and dependencies.
pub fn are_ordered(options: &[Opt]) -> bool
    ensures { result ≡ are_in_order options.now }
{
    let mut least = 0;
    for option in options {
        if option.rank() < least {
            return false;
        }
        least = option.next_rank();
    }
    true
}

/// Whether options may stand on an opaque, which has no representation and isn't packed.
pub fn are_for_opaque(options: &[Opt]) -> bool
    ensures { result ≡ list_all is_for_opaque options.now }
{
    options
        .iter()
        .all(|o| !matches!(o, Opt::Repr(_) | Opt::Packed))
}

impl Opt {
    // The place in the order.
    fn rank(&self) -> u32
        ensures { result ≡ rank_of self.now }
    {
        match self {
            Opt::Repr(_) => 0,
            Opt::Packed => 1,
            Opt::Id(_) => 2,
            Opt::Mod(_) => 3,
            Opt::Param(..) => 4,
            Opt::Base(_) => 5,
            Opt::Dep(..) => 6,
        }
    }

    // The least rank that may follow.
    fn next_rank(&self) -> u32
        ensures { result ≡ rank_behind self.now }
    {
        match self {
            Opt::Repr(_) => 1,
            Opt::Packed => 2,
            Opt::Id(_) => 3,
            Opt::Mod(_) | Opt::Param(..) => 4,
            Opt::Base(_) | Opt::Dep(..) => 6,
        }
    }
}
