ghost use Rattle.std.specs.Prelude.{◌≡◌, ◌++◌, ◌∷◌, [], List, All, IfOk, OnOk, codes};
ghost use Rattle.std.specs.Str.{IsUtf8};
ghost use Rattle.facet_drop.specs.LeavesText.{leaves_text};
ghost use Rattle.facet_session.specs.Cell.{HoldsValue, stored_in, stored_in_all};
ghost use Rattle.facet_session.specs.Turn.{listed};

use crate::session::{Answer, Cell};
use facet_base::Text;
use facet_block::{Leaf, PtrConst};
use facet_drop::write_leaves;
use facet_registry::Shapes;
use std::alloc::{AllocError, Global};

/// The answer of words alone.
pub fn answer_without_leaves(text: Text) -> Answer
    ensures { result ≡ record { text = text; made = 0; dropped = 0 } }
{
    Answer {
        text,
        made: 0,
        dropped: 0,
    }
}

/// The text of an answer to a leaf that was made.
pub fn text_of_made<L: Leaf>(alloc: Global, leaf: &L) -> Result<Text, AllocError>
    ensures { IfOk result (λ text. text ≡ codes "ok" ++ listed L.model (codes " made [") (leaf.now ∷ [])) }
{
    let mut bytes = Vec::new(alloc);
    push_leaf(&mut bytes, "ok made [", leaf)?;
    bytes.push(b']')?;
    Ok(Text::from_utf8(bytes))
}

/// The text of the last answer, which names the leaves of all cells.
pub fn text_of_end<L: Leaf>(
    alloc: Global,
    shapes: &Shapes<L>,
    cells: &[Cell<L>],
) -> Result<Text, AllocError>
    requires { All (HoldsValue L.model shapes.now.sealed) cells.now }
    ensures { IfOk result (λ text. text ≡ codes "end" ++ listed L.model (codes " dropped [") (stored_in_all shapes.now.sealed cells.now)) }
{
    let mut list = Vec::new(alloc);
    for cell in cells {
        push_stored(&mut list, shapes, cell)?;
    }
    let mut bytes = Vec::new(alloc);
    bytes.extend_from_slice(b"end")?;
    push_list::<L>(&mut bytes, " dropped [", list.as_slice())?;
    Ok(Text::from_utf8(bytes))
}

/// The text of an answer to a cell whose value was made: it names the leaves.
pub fn text_of_made_value<L: Leaf>(
    alloc: Global,
    shapes: &Shapes<L>,
    cell: &Cell<L>,
) -> Result<Text, AllocError>
    requires { HoldsValue L.model shapes.now.sealed cell.now }
    ensures { IfOk result (λ text. text ≡ codes "ok" ++ listed L.model (codes " made [") (stored_in shapes.now.sealed cell.now)) }
{
    let mut list = Vec::new(alloc);
    push_stored(&mut list, shapes, cell)?;
    let mut bytes = Vec::new(alloc);
    bytes.extend_from_slice(b"ok")?;
    push_list::<L>(&mut bytes, " made [", list.as_slice())?;
    Ok(Text::from_utf8(bytes))
}

/// The text of an answer to leaves that were made and taken back: it names them twice.
pub fn text_of_taken_back<L: Leaf>(alloc: Global, leaves: &[L]) -> Result<Text, AllocError>
    ensures { IfOk result (λ text. text ≡ codes "unsupported" ++ listed L.model (codes " made [") leaves.now ++ listed L.model (codes " dropped [") leaves.now) }
{
    let list = text_of_leaves(alloc, leaves)?;
    let mut bytes = Vec::new(alloc);
    bytes.extend_from_slice(b"unsupported")?;
    push_list::<L>(&mut bytes, " made [", list.as_slice())?;
    push_list::<L>(&mut bytes, " dropped [", list.as_slice())?;
    Ok(Text::from_utf8(bytes))
}

// The debug texts of leaves, each behind a comma and a space.
fn text_of_leaves<L: Leaf>(alloc: Global, leaves: &[L]) -> Result<Vec<u8>, AllocError>
    ensures written { IfOk result (λ bytes. bytes.items ≡ leaves_text L.model leaves.now) }
    ensures utf8 { IfOk result (λ bytes. IsUtf8 bytes.items) }
{
    let mut bytes = Vec::new(alloc);
    for leaf in leaves {
        push_leaf(&mut bytes, ", ", leaf)?;
    }
    Ok(bytes)
}

// Writes the leaves of a cell, each behind a comma and a space.
fn push_stored<L: Leaf>(
    bytes: &mut Vec<u8>,
    shapes: &Shapes<L>,
    cell: &Cell<L>,
) -> Result<(), AllocError>
    requires { HoldsValue L.model shapes.now.sealed cell.now }
    ensures written { OnOk result (bytes.new.items ≡ bytes.old.items ++ leaves_text L.model (stored_in shapes.now.sealed cell.now)) }
    ensures utf8 { OnOk result (IsUtf8 (leaves_text L.model (stored_in shapes.now.sealed cell.now))) }
{
    write_leaves(shapes, cell.shape, PtrConst::new(&cell.block, 0), bytes)?;
    Ok(())
}

// Writes a label, the list without the comma and the space before its first leaf, and a bracket, if there is a leaf.
fn push_list<L: Leaf>(bytes: &mut Vec<u8>, label: &str, list: &[u8]) -> Result<(), AllocError>
    requires { IsUtf8 list.now }
    ensures written { OnOk result ((xs : List L) → list.now ≡ leaves_text L.model xs → bytes.new.items ≡ bytes.old.items ++ listed L.model label.now xs) }
    ensures utf8 { OnOk result ((xs : List L) → list.now ≡ leaves_text L.model xs → IsUtf8 bytes.old.items → IsUtf8 bytes.new.items) }
{
    if list.len() < 2 {
        return Ok(());
    }
    bytes.extend_from_slice(label.as_bytes())?;
    bytes.extend_from_slice(&list[2..])?;
    bytes.push(b']')?;
    Ok(())
}

// Writes a text and the debug text of a leaf.
fn push_leaf<L: Leaf>(bytes: &mut Vec<u8>, label: &str, leaf: &L) -> Result<(), AllocError>
    ensures written { OnOk result (bytes.new.items ≡ bytes.old.items ++ label.now ++ L.model.debug leaf.now) }
    ensures utf8 { OnOk result (IsUtf8 bytes.old.items → IsUtf8 bytes.new.items) }
{
    bytes.extend_from_slice(label.as_bytes())?;
    leaf.write_debug(bytes)?;
    Ok(())
}
