ghost use Rattle.std.specs.Prelude.{◌≡◌, ◌<◌, ◌++◌, codes, length, OnOk};
ghost use Rattle.std.specs.Str.{IsUtf8};
ghost use Rattle.facet_base.specs.Write.{HoldsText};
ghost use Rattle.facet_causes.specs.Causes.{IsWellFormed};
ghost use Rattle.facet_drop.specs.InlineParts.{leaves_at};
ghost use Rattle.facet_drop.specs.LeavesText.{leaves_text};
ghost use Rattle.facet_trees.specs.Value.{Value, leaves};
ghost use Rattle.facet_values.specs.Reading.{IsReadable, IsReadableWithin, Reads, value_at};
ghost use Rattle.facet_walk.specs.Look.{AreReadable, place_of, places_of, pointed};

use facet_base::{ShapeId, Write};
use facet_block::PtrConst;
use facet_leaf::Leaf;
use facet_registry::Shapes;
use facet_walk::{MAX_LEVELS, Parts, Place, Seen, see};
use std::alloc::AllocError;

/// Writes a comma, a space and the debug text of each leaf of the value at a place, in the order in which they are
/// dropped. A refusal leaves the beginning of that. Requires that the shape is sealed and the place holds a value of it.
pub fn write_leaves<L: Leaf, W: Write>(
    shapes: &Shapes<L>,
    s: ShapeId,
    p: PtrConst<L>,
    out: &mut W,
) -> Result<(), AllocError>
    requires sealed { s.0 < length shapes.now.sealed }
    requires readable { IsReadable L.model shapes.now.sealed (pointed s p) }
    ensures written { (v : Value L) → Reads L.model shapes.now.sealed (pointed s p.entry) v
        → HoldsText (W.contents out.old) (W.contents out.new) (leaves_text L.model (leaves v)) result }
    ensures utf8 { OnOk result ((v : Value L) → Reads L.model shapes.now.sealed (pointed s p.entry) v → IsUtf8 (leaves_text L.model (leaves v))) }
{
    // proof: no sealed shape meets a cause
    let _sealed = shapes.sealed();
    write_leaves_at(shapes, Place { shape: s, at: p }, out, MAX_LEVELS)
}

// Writes the leaves of the value at a place.
#[cycle(listing)]
fn write_leaves_at<L: Leaf, W: Write>(
    shapes: &Shapes<L>,
    place: Place<L>,
    out: &mut W,
    levels: u32,
) -> Result<(), AllocError>
    requires well_formed { IsWellFormed L.model shapes.now.sealed }
    requires sealed { place.shape.0 < length shapes.now.sealed }
    requires readable { IsReadableWithin L.model shapes.now.sealed levels (place_of place) }
    ensures written { HoldsText (W.contents out.old) (W.contents out.new)
        (leaves_text L.model (leaves (value_at shapes.now.sealed levels (place_of place.entry)))) result }
    ensures utf8 { OnOk result (IsUtf8 (leaves_text L.model (leaves (value_at shapes.now.sealed levels (place_of place.entry))))) }
{
    match see(shapes, place.shape, place.at) {
        Some(Seen::Leaf(leaf)) => write_leaf(leaf, out),
        Some(Seen::Node(_, parts)) => write_leaves_in(shapes, parts, out, levels - 1),
        None => unreachable!(),
    }
}

// Writes the leaves of the parts, one part after another.
#[cycle(listing)]
fn write_leaves_in<L: Leaf, W: Write>(
    shapes: &Shapes<L>,
    parts: Parts<L>,
    out: &mut W,
    levels: u32,
) -> Result<(), AllocError>
    requires well_formed { IsWellFormed L.model shapes.now.sealed }
    requires readable { AreReadable L.model shapes.now.sealed levels (places_of parts) }
    ensures written { HoldsText (W.contents out.old) (W.contents out.new)
        (leaves_text L.model (leaves_at shapes.now.sealed levels (places_of parts.entry))) result }
    ensures utf8 { OnOk result (IsUtf8 (leaves_text L.model (leaves_at shapes.now.sealed levels (places_of parts.entry)))) }
{
    for i in 0..parts.len() {
        write_leaves_at(shapes, parts.part(i), out, levels)?;
    }
    Ok(())
}

// Writes a comma, a space and the debug text of a leaf.
fn write_leaf<L: Leaf, W: Write>(leaf: &L, out: &mut W) -> Result<(), AllocError>
    ensures written { HoldsText (W.contents out.old) (W.contents out.new) (codes ", " ++ L.model.debug leaf.now) result }
    ensures utf8 { OnOk result (IsUtf8 (codes ", " ++ L.model.debug leaf.now)) }
{
    out.write(b", ")?;
    leaf.write_debug(out)
}
