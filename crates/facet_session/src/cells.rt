ghost use Rattle.std.specs.Prelude.{◌≡◌, ◌<◌, ◌≤◌, ◌+◌, ◌++◌, All, OnOk, length, min};
ghost use Rattle.facet_session.specs.Cell.{HoldsValue, stored_in, stored_in_all};

use crate::session::Cell;
use facet_base::Many;
use facet_block::{DropLog, Leaf, PtrConst, PtrMut};
use facet_drop::call_drop_in_place;
use facet_registry::Shapes;
use facet_walk::leaf_count;
use std::alloc::AllocError;

/// Makes room in the log for the leaves of all cells. Its leaves stay, also after an `Err`.
pub fn make_room<L: Leaf>(
    shapes: &Shapes<L>,
    cells: &[Cell<L>],
    log: &mut DropLog<L>,
) -> Result<(), AllocError>
    requires { All (HoldsValue L.model shapes.now.sealed) cells.now }
    ensures leaves { log.new.leaves ≡ log.old.leaves }
    ensures ok { OnOk result (length (stored_in_all shapes.now.sealed cells.now) ≤ log.new.spare) }
{
    let count = leaf_count_of_cells(shapes, cells);
    if count == usize::MAX {
        return Err(AllocError);
    }
    log.make_room(count)
}

// The number of leaves of all cells, or the greatest usize where there are that many or more.
fn leaf_count_of_cells<L: Leaf>(shapes: &Shapes<L>, cells: &[Cell<L>]) -> usize
    requires { All (HoldsValue L.model shapes.now.sealed) cells.now }
    ensures { result ≡ min (length (stored_in_all shapes.now.sealed cells.now)) usize.MAX }
{
    let mut total: usize = 0;
    for cell in cells {
        total = total.saturating_add(leaf_count_of(shapes, cell));
    }
    total
}

/// The number of leaves of a cell's value, or the greatest usize where there are that many or more.
pub fn leaf_count_of<L: Leaf>(shapes: &Shapes<L>, cell: &Cell<L>) -> usize
    requires { HoldsValue L.model shapes.now.sealed cell.now }
    ensures { result ≡ min (length (stored_in shapes.now.sealed cell.now)) usize.MAX }
{
    leaf_count(shapes, cell.shape, PtrConst::new(&cell.block, 0))
}

/// Drops the values of all cells. Their leaves go to the log, which has room for them.
pub fn drop_values<L: Leaf>(shapes: &Shapes<L>, cells: &mut Many<Cell<L>>, log: &mut DropLog<L>)
    requires held { All (HoldsValue L.model shapes.now.sealed) cells.old.items }
    requires room { length (stored_in_all shapes.now.sealed cells.old.items) ≤ log.old.spare }
    ensures { log.new.leaves ≡ log.old.leaves ++ stored_in_all shapes.now.sealed cells.old.items }
{
    for i in 0..cells.len() {
        if let Some(cell) = cells.get_mut(i) {
            drop_cell(shapes, cell, log);
        }
    }
}

// Drops the value of a cell. Its leaves go to the log, which has room for them.
fn drop_cell<L: Leaf>(shapes: &Shapes<L>, cell: &mut Cell<L>, log: &mut DropLog<L>)
    requires held { HoldsValue L.model shapes.now.sealed cell.old }
    requires room { length (stored_in shapes.now.sealed cell.old) ≤ log.old.spare }
    ensures leaves { log.new.leaves ≡ log.old.leaves ++ stored_in shapes.now.sealed cell.old }
    ensures spare { log.old.spare ≤ log.new.spare + length (stored_in shapes.now.sealed cell.old) }
{
    call_drop_in_place(shapes, cell.shape, PtrMut::new(&mut cell.block, 0), log);
}
