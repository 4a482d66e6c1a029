ghost use Rattle.std.specs.Prelude.{◌≡◌};

use crate::array_def::ArrayDef;
use crate::def::Def;
use crate::list_def::ListDef;
use crate::map_def::MapDef;
use crate::option_def::OptionDef;
use crate::result_def::ResultDef;
use crate::set_def::SetDef;

/// Builds the definition of a map.
#[derive(Drop)]
pub struct DefMapBuilder(pub MapDef);

impl DefMapBuilder {
    /// The definition of the record.
    pub fn build(self) -> Def
        ensures { result ≡ Def.Map self.0 }
    {
        Def::Map(self.0)
    }
}

/// Builds the definition of a set.
#[derive(Drop)]
pub struct DefSetBuilder(pub SetDef);

impl DefSetBuilder {
    /// The definition of the record.
    pub fn build(self) -> Def
        ensures { result ≡ Def.Set self.0 }
    {
        Def::Set(self.0)
    }
}

/// Builds the definition of a list.
#[derive(Drop)]
pub struct DefListBuilder(pub ListDef);

impl DefListBuilder {
    /// The definition of the record.
    pub fn build(self) -> Def
        ensures { result ≡ Def.List self.0 }
    {
        Def::List(self.0)
    }
}

/// Builds the definition of an array.
#[derive(Drop)]
pub struct DefArrayBuilder(pub ArrayDef);

impl DefArrayBuilder {
    /// The definition of the record.
    pub fn build(self) -> Def
        ensures { result ≡ Def.Array self.0 }
    {
        Def::Array(self.0)
    }
}

/// Builds the definition of an option.
#[derive(Drop)]
pub struct DefOptionBuilder(pub OptionDef);

impl DefOptionBuilder {
    /// The definition of the record.
    pub fn build(self) -> Def
        ensures { result ≡ Def.Option self.0 }
    {
        Def::Option(self.0)
    }
}

/// Builds the definition of a result.
#[derive(Drop)]
pub struct DefResultBuilder(pub ResultDef);

impl DefResultBuilder {
    /// The definition of the record.
    pub fn build(self) -> Def
        ensures { result ≡ Def.Result self.0 }
    {
        Def::Result(self.0)
    }
}
