ghost use Rattle.std.specs.Prelude.{◌≡◌, ◌+◌, ◌*◌, ◌<◌, ◌≤◌, length, slice_get, IsSomeAnd, IfSome, Some, option_map};
ghost use Rattle.facet_block.specs.Block.{size_of};
ghost use Rattle.facet_block.specs.Seq.{filled_of};
ghost use Rattle.facet_values.specs.Place.{place_in};
ghost use Rattle.facet_walk.specs.Look.{IsInside, place_of, places_of};

use crate::place::Place;
use facet_base::ShapeId;
use facet_block::{PtrConst, Seq};
use facet_desc::Field;

/// The places of the parts of a value, by their numbers. Offsets and sizes are in bytes.
#[derive_where(Clone, Copy)]
pub enum Parts<'a, L> {
    /// No part.
    None,
    /// The part of an option or a result, behind its tag.
    One {
        shape: ShapeId,
        offset: usize,
        at: PtrConst<'a, L>,
    },
    /// The fields of a struct or of a variant.
    Fields(&'a [Field], PtrConst<'a, L>),
    /// The elements of an array, one behind the other.
    Row {
        shape: ShapeId,
        count: usize,
        size: usize,
        at: PtrConst<'a, L>,
    },
    /// What lies at the start of each block of a sequence.
    Elements(ShapeId, &'a Seq<L>),
    /// The keys and the values of a map: the key at the start of a block, and its value at the offset.
    Pairs {
        key: ShapeId,
        value: ShapeId,
        offset: usize,
        blocks: &'a Seq<L>,
    },
}

impl<'a, L> Parts<'a, L> {
    /// The number of parts. A map has two for each pair, and so perhaps more than a `usize` counts.
    pub fn len(&self) -> u128
        ensures { result ≡ length (places_of self.now) }
    {
        match self {
            Parts::None => 0,
            Parts::One { .. } => 1,
            Parts::Fields(fields, _) => fields.len() as u128,
            Parts::Row { count, .. } => *count as u128,
            Parts::Elements(_, blocks) => blocks.len() as u128,
            Parts::Pairs { blocks, .. } => 2 * blocks.len() as u128,
        }
    }

    /// The place of part `i`, and None exactly at or above the length. Requires that a part which is there begins in its
    /// block, or at its end, as those of a value that is there do.
    pub fn get(&self, i: u128) -> Option<Place<'a, L>>
        requires { IfSome (slice_get (places_of self.now) i) IsInside }
        ensures { option_map place_of result ≡ slice_get (places_of self.now) i }
    {
        if i < self.len() {
            return Some(self.part(i));
        }
        None
    }

    /// The place of part `i`. Requires that there is one, which begins in its block, or at its end.
    pub fn part(&self, i: u128) -> Place<'a, L>
        requires { IsSomeAnd (slice_get (places_of self.now) i) IsInside }
        ensures { slice_get (places_of self.now) i ≡ Some (place_of result) }
    {
        match *self {
            Parts::None => unreachable!(),
            Parts::One { shape, offset, at } => Place {
                shape,
                at: at.field(offset),
            },
            Parts::Fields(fields, at) => place_of_field(fields, i, at),
            Parts::Row {
                shape,
                count,
                size,
                at,
            } => place_in_row(shape, i, count, size, at),
            Parts::Elements(shape, blocks) => place_in_block(shape, blocks, i, 0),
            Parts::Pairs {
                key,
                value,
                offset,
                blocks,
            } => {
                if i % 2 == 0 {
                    place_in_block(key, blocks, i / 2, 0)
                } else {
                    place_in_block(value, blocks, i / 2, offset)
                }
            }
        }
    }
}

// The place of field `i`, counted from a place.
fn place_of_field<'a, L>(fields: &[Field], i: u128, at: PtrConst<'a, L>) -> Place<'a, L>
    requires { IsSomeAnd (slice_get fields.now i) (λ field. at.offset + field.offset ≤ size_of at.block.now) }
    ensures { option_map (λ field. place_in field.shape.0 at.entry.block.now (at.entry.offset + field.offset)) (slice_get fields.now i) ≡ Some (place_of result) }
{
    // proof: the number of fields is a usize, and so is what is below it
    let _count = fields.len();
    let field = &fields[i as usize];
    Place {
        shape: field.shape,
        at: at.field(field.offset),
    }
}

// The place of element `i` of a row of so many elements of a size, counted from a place.
fn place_in_row<'a, L>(
    shape: ShapeId,
    i: u128,
    count: usize,
    size: usize,
    at: PtrConst<'a, L>,
) -> Place<'a, L>
    requires below { i < count }
    requires inside { at.offset + i * size ≤ size_of at.block.now }
    ensures { place_of result ≡ place_in shape.0 at.entry.block.now (at.entry.offset + i * size) }
{
    // proof: the block's size is a usize, so the product below can't overflow
    let _size = at.block.size();
    Place {
        shape,
        at: at.field(i as usize * size),
    }
}

// The place at an offset in block `i` of a sequence.
fn place_in_block<'a, L>(shape: ShapeId, blocks: &'a Seq<L>, i: u128, offset: usize) -> Place<'a, L>
    requires { IsSomeAnd (slice_get (filled_of blocks.now) i) (λ block. offset ≤ size_of block) }
    ensures { option_map (λ block. place_in shape.0 block offset) (slice_get (filled_of blocks.now) i) ≡ Some (place_of result) }
{
    // proof: the number of blocks is a usize, and so is what is below it
    let _count = blocks.len();
    match blocks.get(i as usize) {
        Some(block) => Place {
            shape,
            at: PtrConst::new(block, offset),
        },
        None => unreachable!(),
    }
}
