ghost use Rattle.std.specs.Prelude.{◌≡◌, []};
ghost use Rattle.std.specs.Option.{option_map_or};
ghost use Rattle.facet_causes.specs.Arrangement.{single};
ghost use Rattle.facet_block.specs.Seq.{filled_of};
ghost use Rattle.facet_trees.specs.declared.form.Form.TheVariants as form;
ghost use Rattle.facet_values.specs.Place.{block_places};
ghost use Rattle.facet_walk.specs.Look.{element_in, pair_in, places_of, seen_in_blocks, seen_of};

use crate::items::sequence_at;
use crate::parts::Parts;
use crate::seeing::Seen;
use facet_base::ShapeId;
use facet_block::{PtrConst, Seq};
use facet_def::Def;
use facet_trees::Form;

/// The shape of the elements of a list or of a set, or of what a box holds, by the definition.
pub fn element_in(def: &Def) -> Option<ShapeId>
    ensures { result ≡ element_in def.now }
{
    match def {
        Def::List(list) => Some(list.t),
        Def::Set(set) => Some(set.t),
        Def::Pointer(pointer) => pointer.pointee,
        _ => None,
    }
}

/// What is seen of a sequence whose blocks have one element each, at the start.
pub(crate) fn see_elements<'a, L>(
    form: Form,
    element: Option<ShapeId>,
    at: PtrConst<'a, L>,
) -> Option<Seen<'a, L>>
    ensures { seen_of result ≡ seen_in_blocks form (option_map_or (λ id. single id 0) element []) at.entry }
{
    match (sequence_at(at), element) {
        (Some(blocks), Some(id)) => Some(Seen::Node(form, Parts::Elements(id, blocks))),
        (Some(_), None) => Some(Seen::Node(form, Parts::None)),
        (None, _) => None,
    }
}

/// What is seen of a map by its definition and the offset of the value in a pair, in bytes.
pub(crate) fn see_pairs<'a, L>(def: &Def, offset: usize, at: PtrConst<'a, L>) -> Option<Seen<'a, L>>
    ensures { seen_of result ≡ seen_in_blocks form.Map (pair_in def.now offset) at.entry }
{
    match sequence_at(at) {
        Some(blocks) => Some(Seen::Node(Form::Map, pairs_in(def, offset, blocks))),
        None => None,
    }
}

// The keys and values of a map by its definition.
fn pairs_in<'a, L>(def: &Def, offset: usize, blocks: &'a Seq<L>) -> Parts<'a, L>
    ensures { places_of result ≡ block_places (pair_in def.now offset) (filled_of blocks.now) }
{
    match def {
        Def::Map(map) => Parts::Pairs {
            key: map.k,
            value: map.v,
            offset,
            blocks,
        },
        _ => Parts::None,
    }
}
