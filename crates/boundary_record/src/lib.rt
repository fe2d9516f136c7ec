// What C and Rust link to replay a log a record at a time. The caller keeps the filter's words, the
// record's number and the edition's, and has no need of the log around the record. It is a crate of
// its own, so that in each of the archives a record's turn has one caller, into which it is compiled.
#![tactic(auto)]

ghost use Rattle.std.specs.Prelude.{◌≡◌};
ghost use Rattle.verdicts.specs.Replay.{turned};
ghost use Rattle.words.specs.Filter.{loaded};
ghost use Rattle.boundary_record.specs.Recorded.{replay_of, Recorded};

use call::Outcome;
use ekf::Ekf;
use float::raise;
use verdicts::{Drive, Replay, advance};
use words::filter::{Counts, Numbers};
use words::record::{Stored, leave};

// A word as a record's number.
fn record_number(word: u32) -> usize
    ensures { result ≡ word }
{
    word as usize
}

// Replays the record at the front of `bytes`, whose number is `replay[0]`, by the edition with the
// number `replay[1]`. A line, also that of a refused call, raises the record's number and leaves the
// edition behind the record; the end and a stop leave both.
pub fn track_replay_record(
    bytes: &[u8],
    replay: &mut [u32; 2],
    numbers: &mut Numbers,
    counts: &mut Counts,
    values: &mut [f32; 2],
    shown: &mut [u32; 4],
) -> u32
    ensures { Recorded (turned bytes.now (replay_of replay.old (loaded numbers.old counts.old))) replay.old numbers.old counts.old values.old shown.old result replay.new numbers.new counts.new values.new shown.new }
{
    let number = replay[0];
    let edition = replay[1];
    let filter = Ekf::load(numbers, counts);
    let place = Replay {
        at: 0,
        number: record_number(number),
        drive: Drive { edition, filter },
    };
    match advance(bytes, place) {
        Ok(Some(line)) => {
            replay[0] = raise(4294967295, number);
            replay[1] = line.drive.edition;
            let out = Outcome {
                answer: line.answer,
                state: line.drive.filter,
            };
            leave(out, numbers, counts, values, shown)
        }
        Ok(None) => {
            shown[0] = 4;
            0
        }
        Err(refusal) => u32::from(refusal),
    }
}
