ghost use Rattle.std.specs.Prelude.{◌≡◌, ◌+◌, ◌≤◌, IfOk};

use facet_block::DropLog;
use std::alloc::AllocError;

/// Makes room in the log for a leaf beyond `held` ones, and returns how many these are together. The log's leaves stay,
/// and its spare never falls. An error comes only when out of memory.
pub(crate) fn room_beyond<L>(held: usize, log: &mut DropLog<L>) -> Result<usize, AllocError>
    ensures leaves { log.new.leaves ≡ log.old.leaves }
    ensures spare { log.old.spare ≤ log.new.spare }
    ensures number { IfOk result (λ together. together ≡ held + 1) }
    ensures room { IfOk result (λ together. together ≤ log.new.spare) }
{
    match held.checked_add(1) {
        Some(together) => {
            log.make_room(together)?;
            Ok(together)
        }
        None => Err(AllocError),
    }
}
