// What an answer shows in the caller's words: its kind, by the number that C has for it, then its
// counts and flags; and its values.
ghost use Rattle.std.specs.Prelude.{◌≡◌};
ghost use Rattle.call.specs.Said.{answer, said};
ghost use Rattle.words.specs.Words.{Shown};

use call::answer::Answer;
use call::refusal::Refusal;
use channel::{Tallies, Verdict};

pub trait Shows: Answer {
    // Writes what it shows.
    fn write(self, values: &mut [f32; 2], shown: &mut [u32; 4])
        ensures { Shown (answer (Self.reply self)) values.old shown.old 0 values.new shown.new };
}

impl Shows for () {
    fn write(self, _values: &mut [f32; 2], shown: &mut [u32; 4]) {
        shown[0] = 0;
    }
}

impl Shows for f32 {
    fn write(self, values: &mut [f32; 2], shown: &mut [u32; 4]) {
        shown[0] = 3;
        values[0] = self;
    }
}

impl Shows for Option<f32> {
    fn write(self, values: &mut [f32; 2], shown: &mut [u32; 4]) {
        match self {
            Some(value) => value.write(values, shown),
            None => shown[0] = 4,
        }
    }
}

impl Shows for (f32, f32) {
    fn write(self, values: &mut [f32; 2], shown: &mut [u32; 4]) {
        shown[0] = 3;
        values[0] = self.0;
        values[1] = self.1;
    }
}

impl Shows for bool {
    fn write(self, _values: &mut [f32; 2], shown: &mut [u32; 4]) {
        shown[0] = 3;
        shown[1] = self as u32;
    }
}

// Done, or a gate's verdict with its gate value.
impl Shows for Verdict {
    fn write(self, values: &mut [f32; 2], shown: &mut [u32; 4]) {
        match self {
            Verdict::Done => shown[0] = 0,
            Verdict::Accepted(gate_value) => {
                shown[0] = 1;
                values[0] = gate_value;
            }
            Verdict::Rejected(gate_value) => {
                shown[0] = 2;
                values[0] = gate_value;
            }
        }
    }
}

// Both tallies of a gate.
impl Shows for Tallies {
    fn write(self, _values: &mut [f32; 2], shown: &mut [u32; 4]) {
        shown[0] = 3;
        shown[1] = self.accepted;
        shown[2] = self.rejected;
    }
}

// Writes what an answer shows and gives 0, or the refusal's number.
pub fn show<A: Shows>(
    answer: Result<A, Refusal>,
    values: &mut [f32; 2],
    shown: &mut [u32; 4],
) -> u32
    ensures { Shown (said A.reply answer) values.old shown.old result values.new shown.new }
{
    match answer {
        Ok(answer) => {
            answer.write(values, shown);
            0
        }
        Err(refusal) => u32::from(refusal),
    }
}
