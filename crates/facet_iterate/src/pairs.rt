ghost use Rattle.std.specs.Prelude.{◌≡◌, ◌<◌, ◌≤◌, All, length};
ghost use Rattle.std.specs.Iterator.{YieldsFirstBy, YieldsLastBy, item_count};
ghost use Rattle.facet_block.specs.Block.{size_of};
ghost use Rattle.facet_block.specs.Seq.{filled_of};
ghost use Rattle.facet_contain.specs.Parts.{part_shape, parts_of};
ghost use Rattle.facet_iterate.specs.Elements.{LeadToPairs, ReadInPairs, pair_of, starts, with_values};
ghost use Rattle.facet_outline.specs.declared.value_kind.ValueKind.TheVariants as ValueKind;
ghost use Rattle.facet_registry.specs.Registry.{kind_at};
ghost use Rattle.facet_trees.specs.Value.{Value};
ghost use Rattle.facet_trees.specs.declared.form.Form.TheVariants as Form;
ghost use Rattle.facet_values.specs.Reading.{IsReadable, Reads};
ghost use Rattle.facet_walk.specs.Look.{pointed};

use crate::elements::{ListIter, elements_of};
use facet_base::ShapeId;
use facet_block::{PtrConst, Seq};
use facet_leaf::Leaf;
use facet_registry::Shapes;
use std::iter::FusedIterator;
use std::marker::Model;

/// The pairs of a map that are still to come, seen as the list of the positions where their keys and values begin.
#[derive(Drop)]
pub struct MapIter<'a, L> {
    keys: ListIter<'a, L>,
    // how many bytes behind its key a value begins
    value_offset: usize,
}

impl<'a, L> Model for MapIter<'a, L> {
    ghost use Rattle.std.specs.Prelude.{◌+◌, ◌≤◌, All, List};
    ghost use Rattle.std.specs.Coded.{coded_list, coded×};
    ghost use Rattle.facet_block.specs.Block.{size_of};
    ghost use Rattle.facet_iterate.specs.Elements.{Position, position_code, with_values};

    ghost Value = { List (Position L × Position L) };

    ghost coded = { coded_list (coded× (position_code L.code) (position_code L.code)) };

    ghost view = { λ it. with_values it.value_offset it.keys };

    ghost invariant = { λ it. All (λ (key : Position L). key.offset + it.value_offset ≤ size_of key.block) it.keys };
}

/// An iterator over the pairs of a map, each a key and its value, by ascending key. Requires that the shape is sealed and a
/// map, and the place holds a value of it.
pub fn map_iter<'a, L: Leaf>(shapes: &Shapes<L>, s: ShapeId, p: PtrConst<'a, L>) -> MapIter<'a, L>
    requires sealed { s.0 < length shapes.now.sealed }
    requires kind { kind_at shapes.now.sealed s.0 ≡ ValueKind.Map }
    requires readable { IsReadable L.model shapes.now.sealed (pointed s p) }
    ensures pairs { (v : Value L) → Reads L.model shapes.now.sealed (pointed s p.entry) v
        → ReadInPairs L.model shapes.now.sealed (part_shape shapes.now.sealed s.0 Form.Map 0) (part_shape shapes.now.sealed s.0 Form.Map 1) result (parts_of v) }
    ensures readable { LeadToPairs L.model shapes.now.sealed (part_shape shapes.now.sealed s.0 Form.Map 0) (part_shape shapes.now.sealed s.0 Form.Map 1) result }
{
    // proof: no sealed shape meets a cause
    let _sealed = shapes.sealed();
    pairs_of(p.seq(), shapes.pair_value_offset(s))
}

// An iterator over the pairs in the filled blocks of a sequence, whose values begin at the offset in bytes.
fn pairs_of<L>(blocks: &Seq<L>, value_offset: usize) -> MapIter<'_, L>
    requires { All (λ block. value_offset ≤ size_of block) (filled_of blocks.now) }
    ensures { result ≡ with_values value_offset (starts (filled_of blocks.now)) }
{
    MapIter {
        keys: elements_of(blocks),
        value_offset,
    }
}

impl<'a, L> Iterator for MapIter<'a, L> {
    type Item = (PtrConst<'a, L>, PtrConst<'a, L>);

    ghost next_gives = { YieldsFirstBy pair_of (λ rest. rest) };

    ghost remaining = { item_count (λ rest. rest) };

    /// The first key that is still to come and its value, which leaves the other pairs; and None where none is left, at each
    /// later call too.
    fn next(&mut self) -> Option<(PtrConst<'a, L>, PtrConst<'a, L>)> {
        match self.keys.next() {
            Some(key) => Some((key, key.field(self.value_offset))),
            None => None,
        }
    }

    fn size_hint(&self) -> (usize, Option<usize>) {
        (self.len(), Some(self.len()))
    }
}

impl<'a, L> DoubleEndedIterator for MapIter<'a, L> {
    ghost next_back_gives = { YieldsLastBy pair_of (λ rest. rest) };

    /// The last key that is still to come and its value, which leaves the other pairs; and None where none is left, at each
    /// later call too.
    fn next_back(&mut self) -> Option<(PtrConst<'a, L>, PtrConst<'a, L>)> {
        match self.keys.next_back() {
            Some(key) => Some((key, key.field(self.value_offset))),
            None => None,
        }
    }
}

impl<'a, L> ExactSizeIterator for MapIter<'a, L> {
    /// The number of pairs that are still to come.
    fn len(&self) -> usize {
        self.keys.len()
    }
}

impl<'a, L> FusedIterator for MapIter<'a, L> {}
