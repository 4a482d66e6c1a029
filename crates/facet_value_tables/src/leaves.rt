use facet_base::Characteristic;
use facet_leaf::Leaf;

/// Whether each leaf stands among some leaves at least as often as among others.
pub fn are_among<L: Leaf>(few: &[L], many: &[L]) -> bool {
    for leaf in few {
        if count(leaf, few) > count(leaf, many) {
            return false;
        }
    }
    true
}

// How often a leaf stands among leaves.
fn count<L: Leaf>(leaf: &L, leaves: &[L]) -> usize {
    let mut count: usize = 0;
    for other in leaves {
        if are_same(leaf, other) {
            count = count.saturating_add(1);
        }
    }
    count
}

// Whether two leaves are of one kind and equal.
fn are_same<L: Leaf>(a: &L, b: &L) -> bool {
    a.kind() == b.kind() && L::can(a.kind(), Characteristic::PartialEq) && a.same(b)
}
