ghost use Rattle.std.specs.Prelude.{◌≡◌, ◌+◌, ◌-◌, ◌*◌, ◌<◌, ◌≤◌, IsSomeAnd, length, slice_get};
ghost use Rattle.facet_base.specs.declared.characteristic.Characteristic.TheVariants as trait;
ghost use Rattle.facet_block.specs.Seq.{filled_of};
ghost use Rattle.facet_lookup.specs.Find.{AreKeys, RisesByHalving, found_among, keys_at};
ghost use Rattle.facet_trees.specs.Answered.{AllOffer};
ghost use Rattle.facet_trees.specs.Order.{by_total, ordered, ordering};
ghost use Rattle.facet_values.specs.Reading.{IsReadable, value_at};
ghost use Rattle.facet_walk.specs.Look.{pointed};

use facet_base::ShapeId;
use facet_block::{PtrConst, Seq};
use facet_compare::call_cmp;
use facet_contain::parts::start_in;
use facet_leaf::Leaf;
use facet_registry::Shapes;
use facet_steps::Steps;
use std::cmp::Ordering;
use std::sync::ledger::Ledger;

// How the key in block `i` and the given one are ordered, which is one step.
fn compare_at<L: Leaf, G: Ledger>(
    shapes: &Shapes<L>,
    s: ShapeId,
    blocks: &Seq<L>,
    i: usize,
    key: PtrConst<L>,
    steps: &mut Steps<G>,
) -> Ordering
    requires sealed { s.0 < length shapes.now.sealed }
    requires ordered { AllOffer shapes.now.sealed trait.Ord s.0 }
    requires keys { AreKeys L.model shapes.now.sealed s.0 (filled_of blocks.now) }
    requires key { IsReadable L.model shapes.now.sealed (pointed s key) }
    requires below { i < length (filled_of blocks.now) }
    ensures order { IsSomeAnd (slice_get (keys_at shapes.now.sealed s.0 (filled_of blocks.now)) i)
        (λ k. ordering L.model shapes.now.sealed by_total s.0 k (value_at shapes.now.sealed 100 (pointed s key.entry)) ≡ ordered result) }
    ensures steps { steps.new ≡ steps.old + 1 }
{
    // proof: no sealed shape meets a cause
    let _sealed = shapes.sealed();
    steps.tick();
    match start_in(blocks, i) {
        Some(at) => match call_cmp(shapes, s, at, key) {
            Some(order) => order,
            None => unreachable!(),
        },
        None => unreachable!(),
    }
}

// An index between two, with at most half of the indices on either side of it.
fn middle_of(low: usize, high: usize) -> usize
    requires { low < high }
    ensures from { low ≤ result }
    ensures below { result < high }
    ensures before { 2 * (result - low) ≤ high - low }
    ensures behind { 2 * (high - (result + 1)) ≤ high - low }
{
    low + (high - low) / 2
}

/// The index of the block whose key is equal, or else the number of keys that are less.
pub(crate) fn find_among<L: Leaf, G: Ledger>(
    shapes: &Shapes<L>,
    s: ShapeId,
    blocks: &Seq<L>,
    key: PtrConst<L>,
    steps: &mut Steps<G>,
) -> Result<usize, usize>
    requires sealed { s.0 < length shapes.now.sealed }
    requires ordered { AllOffer shapes.now.sealed trait.Ord s.0 }
    requires keys { AreKeys L.model shapes.now.sealed s.0 (filled_of blocks.now) }
    requires key { IsReadable L.model shapes.now.sealed (pointed s key) }
    ensures found { result ≡ found_among L.model shapes.now.sealed s.0 (value_at shapes.now.sealed 100 (pointed s key.entry))
        (keys_at shapes.now.sealed s.0 (filled_of blocks.now)) }
    ensures steps { RisesByHalving (length (filled_of blocks.now)) steps.old steps.new }
{
    // proof: no sealed shape meets a cause
    let _sealed = shapes.sealed();
    let mut low = 0;
    let mut high = blocks.len();
    while low < high {
        let middle = middle_of(low, high);
        match compare_at(shapes, s, blocks, middle, key, steps) {
            Ordering::Less => low = middle + 1,
            Ordering::Equal => return Ok(middle),
            Ordering::Greater => high = middle,
        }
    }
    Err(low)
}
