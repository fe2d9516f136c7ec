// Made from crates/boundary_record by tools/boundary.
// What C and Rust link of it: its functions under their own names. Each takes and says what its function does.
#![tactic(auto)]

ghost use Rattle.verdicts.specs.Replay.{turned};
ghost use Rattle.words.specs.Filter.{loaded};
ghost use Rattle.boundary_record.specs.Recorded.{replay_of, Recorded};

use words::filter::{Counts, Numbers};

// Replays the record at the front of `bytes`, whose number is `replay[0]`, by the edition with the
// number `replay[1]`. A line, also that of a refused call, raises the record's number and leaves the
// edition behind the record; the end and a stop leave both.
#[unsafe(no_mangle)]
pub extern "C" fn track_replay_record(
    bytes: &[u8],
    replay: &mut [u32; 2],
    numbers: &mut Numbers,
    counts: &mut Counts,
    values: &mut [f32; 2],
    shown: &mut [u32; 4],
) -> u32
    ensures { Recorded (turned bytes.now (replay_of replay.old (loaded numbers.old counts.old))) replay.old numbers.old counts.old values.old shown.old result replay.new numbers.new counts.new values.new shown.new }
{
    boundary_record::track_replay_record(bytes, replay, numbers, counts, values, shown)
}
