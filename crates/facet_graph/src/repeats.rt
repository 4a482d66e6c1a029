ghost use Rattle.std.specs.Prelude.{◌≡◌, ◌↔◌, ℤ, true, not, IfOk, OnOk, IsTrue, if◌then◌else◌};
ghost use Rattle.std.specs.BTreeSet.{contains};
ghost use Rattle.std.specs.Ordering.{int_cmp, int_eq};
ghost use Rattle.facet_graph.specs.Repeats.{HasRepeat};

use std::alloc::{AllocError, Global};
use std::collections::BTreeSet;

/// Whether a number is listed more than once. It looks at the numbers up to the first that was there before.
pub fn has_repeat(alloc: Global, values: &[i64]) -> Result<bool, AllocError>
    ensures { IfOk result (λ found. IsTrue found ↔ HasRepeat values.now) }
{
    let mut seen = BTreeSet::new(alloc);
    for value in values {
        if !add(&mut seen, value)? {
            return Ok(true);
        }
    }
    Ok(false)
}

// Adds a number, and returns whether it is new.
fn add(seen: &mut BTreeSet<i64>, value: &i64) -> Result<bool, AllocError>
    ensures added { IfOk result (λ added. added ≡ not (contains int_cmp seen.old value.now)) }
    ensures seen { OnOk result ((q : ℤ) → contains int_cmp seen.new q ≡ (if int_eq value.now q then true else contains int_cmp seen.old q)) }
{
    Ok(seen.insert(*value)?)
}
