ghost use Rattle.std.specs.Prelude.{◌≡◌, ◌↔◌, [], ◌∷◌, ◌++◌, ◌+◌, ◌-◌, ◌<◌, ◌^◌, length, option_map, slice_get, take, IsTrue, IfOk, IfErr, OnOk, OnErr};
ghost use Rattle.std.specs.Option.{option_copied};
ghost use Rattle.facet_shape.specs.WithoutSpare.{shape_without_spare};
ghost use Rattle.facet_registry.specs.Prelude.{prelude, prelude_kinds, scalar_shape as shape_of, scalar_shapes};
ghost use Rattle.facet_causes.specs.Causes.{IsWellFormed};
ghost use Rattle.facet_causes.specs.First.{Explains};
ghost use Rattle.facet_causes.specs.Tables.{AreTables};
ghost use Rattle.facet_registry.specs.Registry.{all_sealed, all_shapes, kind_at, size_at, with_draft, without_drafts};
ghost use Rattle.facet_registry.specs.WellFormed.{IsRegistry};

use crate::reading::{kind_at, size_at};
use crate::scalar_shape::scalar_shape;
use facet_base::{ScalarType, ShapeId};
use facet_causes::{SealFault, ShapeList, Tables, check};
use facet_leaf::Leaf;
use facet_outline::ValueKind;
use facet_shape::Shape;
use std::alloc::{AllocError, Global};
use std::marker::{Model, PhantomData};

/// The number of shapes that every registry begins with.
const PRELUDE_LEN: usize = 16;

/// Shapes under their ids. Those below `sealed()` are sealed: they are well formed and stay as they are. The
/// others are drafts.
#[derive(Drop)]
pub struct Shapes<L: Leaf> {
    shapes: ShapeList,
    sealed: usize,
    tables: Tables,
    leaf: PhantomData<L>,
}

impl<L: Leaf> Model for Shapes<L> {
    ghost use Rattle.facet_registry.specs.Registry.{Registry, sealed_until};
    ghost use Rattle.facet_registry.specs.WellFormed.{IsRegistryBeside};

    ghost Value = { Registry };

    ghost view = { λ s. sealed_until s.sealed s.shapes };

    ghost invariant = { λ s. IsRegistryBeside L.model s.sealed s.shapes s.tables };
}

impl<L: Leaf> Shapes<L> {
    /// The sixteen scalars, sealed.
    pub fn prelude(alloc: Global) -> Result<Shapes<L>, AllocError>
        ensures { IfOk result (λ shapes. shapes ≡ prelude L.model) }
    {
        let shapes = prelude_shapes::<L>(alloc)?;
        let tables = prelude_tables::<L>(alloc, &shapes)?;
        Ok(Shapes {
            shapes,
            sealed: PRELUDE_LEN,
            tables,
            leaf: PhantomData,
        })
    }

    // All shapes, of which no sealed one meets a cause.
    pub(crate) fn all_shapes(&self) -> &ShapeList
        ensures all { result.now ≡ all_shapes self.now }
        ensures sealed { IsWellFormed L.model self.now.sealed }
    {
        &self.shapes
    }

    /// The number of shapes.
    pub fn len(&self) -> usize
        ensures { result ≡ length (all_shapes self.now) }
    {
        self.all_shapes().len()
    }

    /// The number of sealed shapes, which are the first ones.
    pub fn sealed(&self) -> usize
        ensures count { result ≡ length self.now.sealed }
        ensures registry { IsRegistry L.model self.now }
    {
        self.sealed
    }

    /// Whether it has the sixteen scalars alone.
    pub fn is_prelude(&self) -> bool
        ensures { IsTrue result ↔ (self.now ≡ prelude L.model) }
    {
        self.shapes.len() == PRELUDE_LEN
    }

    /// The shape of an id, and none exactly at or above `len()`.
    pub fn get(&self, id: ShapeId) -> Option<&Shape>
        ensures { option_map shape_without_spare (option_copied result) ≡ slice_get (all_shapes self.now) id.0 }
    {
        self.all_shapes().get(id.0 as usize)
    }

    /// The size of a shape's values in bytes, 0 where they share none or there is no shape under the id.
    pub fn size_of(&self, id: ShapeId) -> usize
        ensures size { result ≡ size_at (all_shapes self.now) id.0 }
        ensures sealed { id.0 < length self.now.sealed → result ≡ size_at self.now.sealed id.0 }
    {
        size_at(self.all_shapes(), id)
    }

    /// Adds a shape as a draft, under the next id, whatever id it has. A refusal drops it, and changes nothing.
    /// Requires that there are fewer than 4,294,967,295 shapes.
    pub fn push(&mut self, shape: Shape) -> Result<ShapeId, AllocError>
        requires { length (all_shapes self.old) < 2 ^ 32 - 1 }
        ensures id { IfOk result (λ id. id.0 ≡ length (all_shapes self.old)) }
        ensures ok { OnOk result (self.new ≡ with_draft self.old shape) }
        ensures err { OnErr result (self.new ≡ self.old) }
    {
        let id = ShapeId(self.len() as u32);
        self.shapes.push(Shape { id, ..shape })?;
        Ok(id)
    }

    /// Drops all drafts.
    pub fn cut(&mut self)
        ensures { self.new ≡ without_drafts self.old }
    {
        self.shapes.truncate(self.sealed);
    }

    /// Seals all drafts where no shape meets a cause. A refusal names the first cause, in their order, that some shape
    /// meets, and the least shape that meets it. A refusal changes nothing, as does out of memory.
    pub fn seal(&mut self) -> Result<(), SealFault>
        ensures ok { OnOk result (IsWellFormed L.model (all_shapes self.old)) }
        ensures sealed { OnOk result (self.new ≡ all_sealed self.old) }
        ensures refused { IfErr result (Explains L.model (all_shapes self.old)) }
        ensures registry { IsRegistry L.model self.old }
        ensures err { OnErr result (self.new ≡ self.old) }
    {
        check::<L>(
            self.shapes.allocator(),
            &self.shapes,
            self.sealed,
            &mut self.tables,
        )?;
        self.sealed = self.shapes.len();
        Ok(())
    }

    /// What the values of a shape are. Requires that the id is below `len()`.
    pub fn kind_of(&self, id: ShapeId) -> ValueKind
        requires { id.0 < length (all_shapes self.now) }
        ensures kind { result ≡ kind_at (all_shapes self.now) id.0 }
        ensures sealed { id.0 < length self.now.sealed → result ≡ kind_at self.now.sealed id.0 }
    {
        kind_at(self.all_shapes(), id)
    }
}

// The sixteen scalars.
fn prelude_shapes<L: Leaf>(alloc: Global) -> Result<ShapeList, AllocError>
    ensures { IfOk result (λ shapes. shapes ≡ scalar_shapes L.model 0 prelude_kinds) }
{
    let kinds = [
        ScalarType::Unit,
        ScalarType::Bool,
        ScalarType::Char,
        ScalarType::String,
        ScalarType::U8,
        ScalarType::U16,
        ScalarType::U32,
        ScalarType::U64,
        ScalarType::U128,
        ScalarType::USize,
        ScalarType::I8,
        ScalarType::I16,
        ScalarType::I32,
        ScalarType::I64,
        ScalarType::I128,
        ScalarType::ISize,
    ];
    let mut shapes = ShapeList::new(alloc);
    for kind in kinds {
        add::<L>(alloc, &mut shapes, kind)?;
    }
    Ok(shapes)
}

// The tables of the sixteen scalars, none of which meets a cause.
fn prelude_tables<L: Leaf>(alloc: Global, shapes: &ShapeList) -> Result<Tables, AllocError>
    requires { shapes.now ≡ scalar_shapes L.model 0 prelude_kinds }
    ensures { IfOk result (AreTables shapes.now) }
{
    let mut tables = Tables::new(alloc);
    match check::<L>(alloc, shapes, 0, &mut tables) {
        Ok(()) => Ok(tables),
        Err(SealFault::NoMemory) => Err(AllocError),
        Err(SealFault::Refused(_)) => unreachable!(),
    }
}

// Adds the shape of the scalars of a kind, under the next id.
fn add<L: Leaf>(alloc: Global, shapes: &mut ShapeList, kind: ScalarType) -> Result<(), AllocError>
    requires { length shapes.old < 2 ^ 32 }
    ensures { OnOk result (shapes.new ≡ shapes.old ++ shape_of L.model (length shapes.old) kind ∷ []) }
{
    let id = ShapeId(shapes.len() as u32);
    shapes.push(scalar_shape::<L>(alloc, id, kind)?)
}
