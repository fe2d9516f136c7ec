// Made from crates/boundary_replay by tools/boundary.
// What C and Rust link of it: its functions under their own names. Each takes and says what its function does.
#![tactic(auto)]

ghost use Rattle.verdicts.specs.Run.{finish};
ghost use Rattle.boundary_replay.specs.Replayed.{Replayed};

use words::filter::{Counts, Numbers};

// Replays a log and writes the filter at its end, once a configuration was taken; gives 0, or the
// number of the stop.
#[unsafe(no_mangle)]
pub extern "C" fn track_replay(log: &[u8], numbers: &mut Numbers, counts: &mut Counts) -> u32
    ensures { Replayed (finish log.now) numbers.old counts.old result numbers.new counts.new }
{
    boundary_replay::track_replay(log, numbers, counts)
}
