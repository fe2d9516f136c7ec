// What C and Rust link to replay a log to a filter. It is no part of `boundary_log`, so that in each of
// the archives a record's turn has one caller, into which it is compiled.
#![tactic(auto)]

ghost use Rattle.std.specs.Prelude.{◌≡◌};
ghost use Rattle.verdicts.specs.Run.{finish};
ghost use Rattle.boundary_replay.specs.Replayed.{Replayed};

use words::filter::{Counts, Numbers};
use words::record::Stored;

// Replays a log and writes the filter at its end, once a configuration was taken; gives 0, or the
// number of the stop.
pub fn track_replay(log: &[u8], numbers: &mut Numbers, counts: &mut Counts) -> u32
    ensures { Replayed (finish log.now) numbers.old counts.old result numbers.new counts.new }
{
    let end = verdicts::run(log);
    if end.records != 0 {
        end.left.store(numbers, counts);
    }
    match end.stop {
        Some(refusal) => u32::from(refusal),
        None => 0,
    }
}
