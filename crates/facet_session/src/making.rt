//! What commands do that make a whole value, which may be refused.

ghost use Rattle.std.specs.Prelude.{◌≡◌, ◌≤◌, [], ℕ, List, length, IfOk, OnErr, OnOk};
ghost use Rattle.facet_block.specs.Block.{size_of};
ghost use Rattle.facet_make.specs.Made.{made, refused};
ghost use Rattle.facet_registry.specs.Registry.{all_shapes, size_at};
ghost use Rattle.facet_session.specs.Cell.{HoldsValue};
ghost use Rattle.facet_session.specs.Made.{add_made as made_turn};
ghost use Rattle.facet_session.specs.Session.{CarriesOut, IsUnchanged, KeepsCells, Shows};
ghost use Rattle.facet_session.specs.State.{State};
ghost use Rattle.facet_trees.specs.Value.{Value};
ghost use Rattle.facet_values.specs.Place.{start_of};
ghost use Rattle.facet_values.specs.Reading.{Reads};

use crate::cells::leaf_count_of;
use crate::session::{Answer, Cell, Session};
use crate::writing::{text_of_made_value, text_of_taken_back};
use facet_base::Text;
use facet_block::Leaf;
use std::alloc::{AllocError, Global};

/// Adds a cell whose value was made. All that may fail comes before the change.
pub fn add_made<L: Leaf>(
    alloc: Global,
    session: &mut Session<L>,
    cell: Cell<L>,
) -> Result<Answer, AllocError>
    requires empty { session.old.log.leaves ≡ [] }
    requires held { HoldsValue L.model session.old.shapes.sealed cell }
    requires size { size_of cell.block ≡ size_at session.old.shapes.sealed cell.shape.0 }
    ensures turn { IfOk result (λ answer. (state : State L) (v : Value L) → Shows L.model session.old state → Reads L.model session.old.shapes.sealed (start_of cell.shape.0 cell.block) v
        → CarriesOut L.model session.new answer (made_turn state cell.name cell.shape.0 (made v))) }
    ensures few { OnOk result (length (all_shapes session.new.shapes) ≤ length (all_shapes session.old.shapes)) }
    ensures kept { OnOk result (KeepsCells session.old session.new) }
    ensures err { OnErr result (IsUnchanged session.old session.new) }
{
    let text = text_of_made_value(alloc, &session.shapes, &cell)?;
    // proof: the text has more bytes than the value has leaves, so their number is not cut off
    let _bytes = byte_count(&text);
    let made = leaf_count_of(&session.shapes, &cell);
    session.cells.push(cell)?;
    Ok(Answer {
        text,
        made,
        dropped: 0,
    })
}

// The number of bytes of a text.
fn byte_count(text: &Text) -> usize
    ensures { result ≡ length text.now }
{
    text.as_str().len()
}

/// The answer to a value that was refused: it names the leaves that were taken back, which are in the log, as made and
/// as dropped.
pub fn name_taken_back<L: Leaf>(alloc: Global, session: &Session<L>) -> Result<Answer, AllocError>
    ensures { IfOk result (λ answer. (state : State L) (name : List ℕ) (s : ℕ) → Shows L.model session.now state
        → CarriesOut L.model session.now answer (made_turn state name s (refused session.now.log.leaves))) }
{
    let leaves = session.log.leaves();
    let text = text_of_taken_back(alloc, leaves)?;
    let count = leaves.len();
    Ok(Answer {
        text,
        made: count,
        dropped: count,
    })
}
