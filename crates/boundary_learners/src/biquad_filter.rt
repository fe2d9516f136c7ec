// Made from docs/boundary.txt by tools/boundary.
// The low-pass in the caller's memory: 9 numbers and 1 counts.
ghost use Rattle.words.specs.Words.{Lent};
ghost use Rattle.boundary_learners.specs.Lowpass.{loaded, numbers_of, counts_of, called};

use crate::Learners;
use lowpass::BiquadFilter;
use words::record::{Stored, leave};

impl Stored<Learners, 9, 1> for BiquadFilter {
    type Whole = BiquadFilter;

    ghost loaded = { loaded };

    ghost numbers_of = { numbers_of };

    ghost counts_of = { counts_of };

    ghost part = { λ s. s };

    ghost put = { λ old s. s };

    fn load(n: &[f32; 9], c: &[u32; 1]) -> BiquadFilter {
        BiquadFilter {
            b0: n[0],
            b1: n[1],
            b2: n[2],
            a1: n[3],
            a2: n[4],
            x1: n[5],
            x2: n[6],
            y1: n[7],
            y2: n[8],
        }
    }

    fn store(self, n: &mut [f32; 9], c: &mut [u32; 1]) {
        n[0] = self.b0;
        n[1] = self.b1;
        n[2] = self.b2;
        n[3] = self.a1;
        n[4] = self.a2;
        n[5] = self.x1;
        n[6] = self.x2;
        n[7] = self.y1;
        n[8] = self.y2;
    }
}

#[tactic(auto, unfolding(crate::specs::Lowpass::called))]
pub fn track_lowpass(
    operation: u32,
    numbers: &mut [f32; 9],
    counts: &mut [u32; 1],
    arguments: &[f32; 6],
    words: &[u32; 4],
    values: &mut [f32; 2],
    shown: &mut [u32; 4],
) -> u32
    ensures { Lent (called operation arguments.now words.now (loaded numbers.old counts.old)) numbers_of counts_of numbers.old counts.old values.old shown.old result numbers.new counts.new values.new shown.new }
{
    match operation {
        0 => leave(
            BiquadFilter::new_lowpass(arguments[0], arguments[1]),
            numbers,
            counts,
            values,
            shown,
        ),
        1 => leave(
            BiquadFilter::load(numbers, counts).process(arguments[0]),
            numbers,
            counts,
            values,
            shown,
        ),
        2 => leave(
            BiquadFilter::load(numbers, counts).reset_to(arguments[0]),
            numbers,
            counts,
            values,
            shown,
        ),
        _ => 2,
    }
}
