ghost use Rattle.std.specs.Prelude.{◌≡◌, ◌≤◌, ◌<◌, ◌+◌, ◌↔◌, ℕ, IfOk, IsTrue, vec_len};
ghost use Rattle.std.specs.List.Sorted.{IsNonDecreasingBy, IsPermutation};
ghost use Rattle.facet_graph.specs.Repeats.{HaveOverlap};

use std::alloc::AllocError;

/// A range of bytes.
#[derive(Clone, Copy)]
pub struct Span {
    /// The first byte.
    pub offset: usize,
    /// The number of bytes.
    pub size: usize,
}

/// Whether two of the spans share a byte, which an empty span does with none. It sorts the spans by their offsets, so
/// its cost doesn't depend on the bytes.
pub fn have_overlap(spans: &mut Vec<Span>) -> Result<bool, AllocError>
    ensures found { IfOk result (λ found. IsTrue found ↔ HaveOverlap spans.old.items) }
    ensures sorted { IsPermutation spans.old.items spans.new.items }
{
    spans.sort_by_key(|span| span.offset)?;
    Ok(neighbours_overlap(spans))
}

// The same of spans in the order of their offsets.
fn neighbours_overlap(spans: &[Span]) -> bool
    requires { IsNonDecreasingBy (λ span. span.offset) spans.now }
    ensures { IsTrue result ↔ HaveOverlap spans.now }
{
    let mut last = Span { offset: 0, size: 0 };
    for span in spans {
        if span.size > 0 {
            if span.offset - last.offset < last.size {
                return true;
            }
            last = *span;
        }
    }
    false
}
