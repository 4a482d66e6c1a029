ghost use Rattle.std.specs.Prelude.{◌≡◌, ◌≤◌, ◌^◌, IfErr, OnErr, OnOk, length, take, vec_len};
ghost use Rattle.facet_causes.specs.Causes.{IsWellFormed};
ghost use Rattle.facet_causes.specs.First.{Explains, NoneBefore, NoneBelow, NoneOfFirst};
ghost use Rattle.facet_causes.specs.Tables.{AreTables, AreTablesOfFirst, BeginWith};

use crate::buffers::Buffers;
use crate::cause::{SealCause, SealFault};
use crate::groups::{refuse_layouts, refuse_references};
use crate::keys::refuse_key;
use crate::refuse::refuse_draft;
use crate::shape_list::ShapeList;
use crate::sizes::{refuse_cycle, refuse_large};
use crate::tables::Tables;
use facet_leaf::Leaf;
use std::alloc::Global;

/// Checks the shapes from `sealed` on, and lengthens the tables to all shapes. Ok comes only where no shape meets a
/// cause; a refusal names the first cause and the least shape that meets it. After any other answer than Ok the tables
/// are those of the sealed shapes.
pub fn check<L: Leaf>(
    alloc: Global,
    shapes: &ShapeList,
    sealed: usize,
    tables: &mut Tables,
) -> Result<(), SealFault>
    requires few { length shapes.now ≤ 2 ^ 32 }
    requires within { sealed ≤ length shapes.now }
    requires well_formed { IsWellFormed L.model (take sealed shapes.now) }
    requires tables { AreTables (take sealed shapes.now) tables.old }
    ensures ok { OnOk result (IsWellFormed L.model shapes.now) }
    ensures tables { OnOk result (AreTables shapes.now tables.new) }
    ensures refused { IfErr result (Explains L.model shapes.now) }
    ensures err { OnErr result (AreTables (take sealed shapes.now) tables.new) }
{
    match examine::<L>(alloc, shapes, sealed, tables) {
        Ok(()) => Ok(()),
        Err(fault) => {
            tables.cut(sealed);
            Err(fault)
        }
    }
}

// The same, where the tables may end up in between.
fn examine<L: Leaf>(
    alloc: Global,
    shapes: &ShapeList,
    sealed: usize,
    tables: &mut Tables,
) -> Result<(), SealFault>
    requires few { length shapes.now ≤ 2 ^ 32 }
    requires within { sealed ≤ length shapes.now }
    requires sealed { NoneOfFirst L.model shapes.now sealed }
    requires tables { AreTablesOfFirst shapes.now sealed tables.old }
    ensures ok { OnOk result (NoneBelow L.model shapes.now 15) }
    ensures tables { OnOk result (AreTables shapes.now tables.new) }
    ensures refused { IfErr result (Explains L.model shapes.now) }
    ensures begins { BeginWith shapes.now tables.old tables.new }
{
    let mut buffers = Buffers::new(alloc);
    refuse_references::<L>(alloc, shapes, sealed, &mut buffers)?;
    refuse_cycle::<L>(alloc, shapes, &mut tables.inline_heights)?;
    refuse_large::<L>(
        alloc,
        shapes,
        &tables.inline_heights,
        &mut tables.heights,
        &mut tables.part_counts,
        &mut tables.name_lengths,
    )?;
    refuse_layouts::<L>(alloc, shapes, sealed, &mut buffers)?;
    refuse_key::<L>(alloc, shapes, sealed, &mut tables.ordered)?;
    refuse_draft::<L>(
        alloc,
        shapes,
        sealed,
        SealCause::CapabilityMissing,
        &mut buffers,
    )
}
