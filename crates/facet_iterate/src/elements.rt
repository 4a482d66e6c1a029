ghost use Rattle.std.specs.Prelude.{◌≡◌, ◌<◌, length};
ghost use Rattle.std.specs.Iterator.{YieldsFirstBy, YieldsLastBy, item_count};
ghost use Rattle.facet_block.specs.Seq.{filled_of};
ghost use Rattle.facet_contain.specs.Parts.{part_shape, parts_of};
ghost use Rattle.facet_iterate.specs.Elements.{LeadToValues, ReadInTurn, position_of, starts};
ghost use Rattle.facet_outline.specs.declared.value_kind.ValueKind.TheVariants as ValueKind;
ghost use Rattle.facet_registry.specs.Registry.{kind_at};
ghost use Rattle.facet_trees.specs.Value.{Value};
ghost use Rattle.facet_trees.specs.declared.form.Form.TheVariants as Form;
ghost use Rattle.facet_values.specs.Reading.{IsReadable, Reads};
ghost use Rattle.facet_walk.specs.Look.{pointed};

use facet_base::ShapeId;
use facet_block::{PtrConst, Seq};
use facet_contain::parts::start_in;
use facet_leaf::Leaf;
use facet_registry::Shapes;
use std::iter::FusedIterator;
use std::marker::Model;

/// The elements of a list or a set that are still to come, seen as the list of the positions where they begin.
#[derive(Drop)]
pub struct ListIter<'a, L> {
    blocks: &'a Seq<L>,
    // the indices of the first block that is still to come, and of the one behind the last
    first: usize,
    end: usize,
}

impl<'a, L> Model for ListIter<'a, L> {
    ghost use Rattle.std.specs.Prelude.{◌≤◌, List, length};
    ghost use Rattle.std.specs.Coded.{coded_list};
    ghost use Rattle.std.specs.List.{between};
    ghost use Rattle.facet_block.specs.Seq.{filled_of};
    ghost use Rattle.facet_iterate.specs.Elements.{Position, position_code, starts};

    ghost Value = { List (Position L) };

    ghost coded = { coded_list (position_code L.code) };

    ghost view = { λ it. starts (between it.first it.end (filled_of it.blocks.now)) };

    ghost invariant = { λ it. (it.first ≤ it.end) × (it.end ≤ length (filled_of it.blocks.now)) };
}

/// An iterator over the elements of a list, in order. Requires that the shape is sealed and a list, and the place holds a
/// value of it.
pub fn list_iter<'a, L: Leaf>(shapes: &Shapes<L>, s: ShapeId, p: PtrConst<'a, L>) -> ListIter<'a, L>
    requires sealed { s.0 < length shapes.now.sealed }
    requires kind { kind_at shapes.now.sealed s.0 ≡ ValueKind.List }
    requires readable { IsReadable L.model shapes.now.sealed (pointed s p) }
    ensures elements { (v : Value L) → Reads L.model shapes.now.sealed (pointed s p.entry) v
        → ReadInTurn L.model shapes.now.sealed (part_shape shapes.now.sealed s.0 Form.List 0) result (parts_of v) }
    ensures readable { LeadToValues L.model shapes.now.sealed (part_shape shapes.now.sealed s.0 Form.List 0) result }
{
    // proof: no sealed shape meets a cause
    let _sealed = shapes.sealed();
    elements_of(p.seq())
}

/// An iterator over the items of a set, in ascending order. Requires that the shape is sealed and a set, and the place
/// holds a value of it.
pub fn set_iter<'a, L: Leaf>(shapes: &Shapes<L>, s: ShapeId, p: PtrConst<'a, L>) -> ListIter<'a, L>
    requires sealed { s.0 < length shapes.now.sealed }
    requires kind { kind_at shapes.now.sealed s.0 ≡ ValueKind.Set }
    requires readable { IsReadable L.model shapes.now.sealed (pointed s p) }
    ensures elements { (v : Value L) → Reads L.model shapes.now.sealed (pointed s p.entry) v
        → ReadInTurn L.model shapes.now.sealed (part_shape shapes.now.sealed s.0 Form.Set 0) result (parts_of v) }
    ensures readable { LeadToValues L.model shapes.now.sealed (part_shape shapes.now.sealed s.0 Form.Set 0) result }
{
    // proof: no sealed shape meets a cause
    let _sealed = shapes.sealed();
    elements_of(p.seq())
}

/// An iterator over what begins the filled blocks of a sequence.
pub(crate) fn elements_of<L>(blocks: &Seq<L>) -> ListIter<'_, L>
    ensures { result ≡ starts (filled_of blocks.now) }
{
    ListIter {
        blocks,
        first: 0,
        end: blocks.len(),
    }
}

impl<'a, L> Iterator for ListIter<'a, L> {
    type Item = PtrConst<'a, L>;

    ghost next_gives = { YieldsFirstBy position_of (λ rest. rest) };

    ghost remaining = { item_count (λ rest. rest) };

    /// The first element that is still to come, which leaves the others; and None where none is left, at each later call too.
    fn next(&mut self) -> Option<PtrConst<'a, L>> {
        if self.first == self.end {
            return None;
        }
        let element = start_in(self.blocks, self.first);
        self.first += 1;
        element
    }

    fn size_hint(&self) -> (usize, Option<usize>) {
        (self.len(), Some(self.len()))
    }
}

impl<'a, L> DoubleEndedIterator for ListIter<'a, L> {
    ghost next_back_gives = { YieldsLastBy position_of (λ rest. rest) };

    /// The last element that is still to come, which leaves the others; and None where none is left, at each later call too.
    fn next_back(&mut self) -> Option<PtrConst<'a, L>> {
        if self.first == self.end {
            return None;
        }
        self.end -= 1;
        start_in(self.blocks, self.end)
    }
}

impl<'a, L> ExactSizeIterator for ListIter<'a, L> {
    /// The number of elements that are still to come.
    fn len(&self) -> usize {
        self.end - self.first
    }
}

impl<'a, L> FusedIterator for ListIter<'a, L> {}
