ghost use Rattle.std.specs.Prelude.{◌≡◌, ◌<◌, ◌≤◌, ◌^◌};
ghost use Rattle.facet_outline.specs.Layout.{array_layout, capped, next_offset, option_layout, option_offset, pair_layout, part_layout, result_layout, result_offset, rounded, scalar_layout, sized as sized_layout, up, value_offset};

use facet_base::{Layout, ScalarType, ShapeLayout};

/// The greatest size or offset that is computed, in bytes.
const GREATEST: u128 = 4_294_967_295;

/// The layout of the scalars of a kind.
pub fn scalar_layout(kind: ScalarType) -> ShapeLayout
    ensures { result ≡ scalar_layout kind }
{
    match kind {
        ScalarType::Unit => sized(0, 1),
        ScalarType::Bool | ScalarType::U8 | ScalarType::I8 => sized(1, 1),
        ScalarType::U16 | ScalarType::I16 => sized(2, 2),
        ScalarType::Char | ScalarType::U32 | ScalarType::I32 => sized(4, 4),
        ScalarType::U64 | ScalarType::USize | ScalarType::I64 | ScalarType::ISize => sized(8, 8),
        ScalarType::U128 | ScalarType::I128 => sized(16, 16),
        ScalarType::String => sized(24, 8),
        ScalarType::Str => ShapeLayout::Unsized,
    }
}

// The layout of this size and alignment in bytes.
fn sized(size: usize, align: usize) -> ShapeLayout
    ensures { result ≡ sized_layout size align }
{
    ShapeLayout::Sized(Layout { size, align })
}

/// What a layout counts as in one that is made of it: an unsized one as no byte, and an alignment of 0 as 1.
pub fn part_layout(layout: ShapeLayout) -> Layout
    ensures { result ≡ part_layout layout }
{
    match layout {
        ShapeLayout::Sized(layout) => Layout {
            size: layout.size,
            align: layout.align.max(1),
        },
        ShapeLayout::Unsized => Layout { size: 0, align: 1 },
    }
}

/// The layout of an option of such a part: the tag at 0, the part at its alignment.
pub fn option_layout(part: Layout) -> Layout
    ensures { result ≡ option_layout part }
{
    rounded(part.align as u128 + part.size as u128, part.align)
}

/// The offset in bytes of the part of an option: its alignment.
pub fn option_offset(part: Layout) -> usize
    ensures { result ≡ option_offset part }
{
    capped(part.align as u128)
}

/// The offset in bytes of either part of a result: the greater alignment.
pub fn result_offset(part: Layout, error: Layout) -> usize
    ensures { result ≡ result_offset part error }
{
    capped(part.align.max(error.align) as u128)
}

/// The layout of a result of such parts: the tag at 0, either part at the greater alignment.
pub fn result_layout(part: Layout, error: Layout) -> Layout
    ensures { result ≡ result_layout part error }
{
    let align = part.align.max(error.align);
    rounded(align as u128 + part.size.max(error.size) as u128, align)
}

/// The layout of an array of `n` such elements.
pub fn array_layout(n: usize, element: Layout) -> Layout
    ensures { result ≡ array_layout n element }
{
    Layout {
        size: capped(n as u128 * element.size as u128),
        align: element.align,
    }
}

/// The offset in bytes of the value in a pair of a map, whose key lies at 0.
pub fn value_offset(key: Layout, value: Layout) -> usize
    ensures { result ≡ value_offset key value }
{
    capped(up(key.size as u128, value.align))
}

/// The layout of a pair of a map: the key and then the value.
pub fn pair_layout(key: Layout, value: Layout) -> Layout
    ensures { result ≡ pair_layout key value }
{
    rounded(
        value_offset(key, value) as u128 + value.size as u128,
        key.align.max(value.align),
    )
}

/// The offset in bytes of a field of a tuple behind so many bytes: the next one of its alignment.
pub fn next_offset(behind: u128, field: Layout) -> usize
    requires { behind < 2 ^ 127 }
    ensures { result ≡ next_offset behind field }
{
    capped(up(behind, field.align))
}

/// So many bytes, rounded up to the alignment.
pub fn rounded(size: u128, align: usize) -> Layout
    requires { size < 2 ^ 127 }
    ensures { result ≡ rounded size align }
{
    Layout {
        size: capped(up(size, align)),
        align,
    }
}

/// A computed size or offset.
pub fn capped(n: u128) -> usize
    ensures { result ≡ capped n }
{
    n.min(GREATEST) as usize
}

/// A number of bytes, rounded up to an alignment.
#[tactic(auto, unfolding(crate::specs::Layout::up), using(crate::proofs::Rounding::up_at_multiple, crate::proofs::Rounding::up_between))]
pub fn up(n: u128, align: usize) -> u128
    requires { n < 2 ^ 127 }
    ensures { result ≡ up n align }
{
    let align = align.max(1) as u128;
    let rest = n % align;
    if rest == 0 { n } else { n + (align - rest) }
}
