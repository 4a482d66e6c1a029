ghost use Rattle.std.specs.Prelude.{◌≡◌, ◌<◌, ◌≤◌, ◌^◌, IfOk, decimal, fold};
ghost use Rattle.facet_desc.specs.Field.{fresh_field};
ghost use Rattle.facet_desc.specs.WithoutSpare.{field_without_spare};
ghost use Rattle.facet_registry.specs.Offsets.{part_at};
ghost use Rattle.facet_registry.specs.Registry.{all_shapes};
ghost use Rattle.facet_makers.specs.Types.{no_parts, tuple_parts, with_part};

use facet_base::{Layout, Many, ShapeId, Text};
use facet_desc::{Field, FieldBuilder};
use facet_leaf::Leaf;
use facet_outline::next_offset;
use facet_registry::Shapes;
use std::alloc::{AllocError, Global};
use std::marker::Model;

/// The fields of a tuple, where the last one ends in bytes, and the greatest alignment of their shapes. Contracts
/// see each field by the items of its lists.
#[derive(Drop)]
pub struct TupleParts {
    pub fields: Many<Field>,
    pub end: u128,
    pub align: usize,
}

impl Model for TupleParts {
    ghost use Rattle.std.specs.Prelude.{map, ◌<◌, ◌^◌};
    ghost use Rattle.facet_desc.specs.WithoutSpare.{field_without_spare};
    ghost use Rattle.facet_makers.specs.Types.{TupleParts};

    ghost Value = { TupleParts };

    ghost view = { λ tuple. record { fields = map field_without_spare tuple.fields.items; end = tuple.end; align = tuple.align } };

    ghost invariant = { λ tuple. tuple.end < 2 ^ 65 };
}

impl TupleParts {
    // The tuple without fields.
    fn new(alloc: Global) -> TupleParts
        ensures { result ≡ no_parts }
    {
        TupleParts {
            fields: Many::new(alloc),
            end: 0,
            align: 1,
        }
    }

    // One field more, named by its index, at the next offset of its alignment.
    fn with_part(self, alloc: Global, t: ShapeId, part: Layout) -> Result<TupleParts, AllocError>
        ensures { IfOk result (λ more. more ≡ with_part self t part) }
    {
        let offset = next_offset(self.end, part);
        let mut fields = self.fields;
        fields.push(field(alloc, fields.len(), t, offset)?)?;
        Ok(TupleParts {
            fields,
            end: offset as u128 + part.size as u128,
            align: self.align.max(part.align),
        })
    }
}

// The field of that index and shape at an offset.
fn field(alloc: Global, index: usize, t: ShapeId, offset: usize) -> Result<Field, AllocError>
    ensures { IfOk result (λ field. field_without_spare field ≡ fresh_field (decimal index) t offset) }
{
    let name = format!(in alloc; "{index}")?;
    let name = Text::new(alloc, &name)?;
    Ok(FieldBuilder::new(alloc, name, t, offset).build())
}

/// The tuple of the shapes of these ids, in order.
pub fn tuple_parts<L: Leaf>(
    alloc: Global,
    shapes: &Shapes<L>,
    ids: &[ShapeId],
) -> Result<TupleParts, AllocError>
    ensures { IfOk result (λ tuple. tuple ≡ tuple_parts (part_at (all_shapes shapes.now)) ids.now) }
{
    let mut tuple = TupleParts::new(alloc);
    for t in ids {
        tuple = tuple.with_part(alloc, *t, shapes.part_layout(*t))?;
    }
    Ok(tuple)
}
