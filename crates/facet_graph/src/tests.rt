mod listed;
mod rows;

use crate::{Span, has_repeat, have_overlap};
use std::test::Fail;

#[test]
fn a_number_is_found_again(rt: HostRuntime) -> Result<(), Fail> {
    let alloc = rt.alloc();
    assert_eq!(rt; has_repeat(alloc, &[3, -1, 7, -1])?, true);
    assert_eq!(rt; has_repeat(alloc, &[3, -1, 7, 1])?, false);
    assert_eq!(rt; has_repeat(alloc, &[i64::MIN, i64::MAX, i64::MIN])?, true);
    assert_eq!(rt; has_repeat(alloc, &[])?, false);
    Ok(())
}

// Two spans as offset and size each, and whether they share a byte.
fn pairs() -> [((usize, usize), (usize, usize), bool); 7] {
    [
        ((0, 4), (4, 4), false),
        ((4, 4), (0, 5), true),
        ((0, 4), (2, 0), false),
        ((2, 0), (2, 1), false),
        ((3, 1), (3, 1), true),
        ((usize::MAX, usize::MAX), (usize::MAX, 1), true),
        ((0, usize::MAX), (usize::MAX, 1), false),
    ]
}

#[test]
fn spans_share_a_byte_whatever_their_order(rt: HostRuntime) -> Result<(), Fail> {
    let alloc = rt.alloc();
    for (one, other, shared) in pairs() {
        let one = Span {
            offset: one.0,
            size: one.1,
        };
        let other = Span {
            offset: other.0,
            size: other.1,
        };
        assert_eq!(rt; have_overlap(&mut vec![in alloc; one, other]?)?, shared);
        assert_eq!(rt; have_overlap(&mut vec![in alloc; other, one]?)?, shared);
    }
    Ok(())
}
