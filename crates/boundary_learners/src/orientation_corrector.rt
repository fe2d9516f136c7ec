// Made from docs/boundary.txt by tools/boundary.
// The orientation corrector in the caller's memory: 11 numbers and 2 counts.
ghost use Rattle.words.specs.Words.{Lent};
ghost use Rattle.boundary_learners.specs.Orientation.{loaded, numbers_of, counts_of, called};

use crate::Learners;
use orientation::OrientationCorrector;
use words::answer::show;
use words::record::{Stored, leave};

impl Stored<Learners, 11, 2> for OrientationCorrector {
    type Whole = OrientationCorrector;

    ghost loaded = { loaded };

    ghost numbers_of = { numbers_of };

    ghost counts_of = { counts_of };

    ghost part = { λ s. s };

    ghost put = { λ old s. s };

    fn load(n: &[f32; 11], c: &[u32; 2]) -> OrientationCorrector {
        OrientationCorrector {
            pitch_correction: n[0],
            roll_correction: n[1],
            pitch_confidence: n[2],
            roll_confidence: n[3],
            cruise_bias: n[4],
            cruise_bias_sum: n[5],
            cruise_bias_count: c[0],
            cruise_time: n[6],
            alpha: n[7],
            min_speed: n[8],
            min_accel: n[9],
            max_correction: n[10],
            update_count: c[1],
        }
    }

    fn store(self, n: &mut [f32; 11], c: &mut [u32; 2]) {
        n[0] = self.pitch_correction;
        n[1] = self.roll_correction;
        n[2] = self.pitch_confidence;
        n[3] = self.roll_confidence;
        n[4] = self.cruise_bias;
        n[5] = self.cruise_bias_sum;
        c[0] = self.cruise_bias_count;
        n[6] = self.cruise_time;
        n[7] = self.alpha;
        n[8] = self.min_speed;
        n[9] = self.min_accel;
        n[10] = self.max_correction;
        c[1] = self.update_count;
    }
}

#[tactic(auto, unfolding(crate::specs::Orientation::called))]
pub fn track_orientation(
    operation: u32,
    numbers: &mut [f32; 11],
    counts: &mut [u32; 2],
    arguments: &[f32; 6],
    words: &[u32; 4],
    values: &mut [f32; 2],
    shown: &mut [u32; 4],
) -> u32
    ensures { Lent (called operation arguments.now words.now (loaded numbers.old counts.old)) numbers_of counts_of numbers.old counts.old values.old shown.old result numbers.new counts.new values.new shown.new }
{
    match operation {
        0 => leave(
            OrientationCorrector::new(arguments[0], arguments[1], arguments[2], arguments[3]),
            numbers,
            counts,
            values,
            shown,
        ),
        1 => leave(
            OrientationCorrector::load(numbers, counts).update(
                arguments[0],
                arguments[1],
                arguments[2],
                arguments[3],
                arguments[4],
                words[0] != 0,
                arguments[5],
            ),
            numbers,
            counts,
            values,
            shown,
        ),
        2 => leave(
            OrientationCorrector::load(numbers, counts).reset(),
            numbers,
            counts,
            values,
            shown,
        ),
        3 => show(
            OrientationCorrector::load(numbers, counts).get_cruise_bias(),
            values,
            shown,
        ),
        4 => show(
            OrientationCorrector::load(numbers, counts).get_pitch_correction_deg(),
            values,
            shown,
        ),
        5 => show(
            OrientationCorrector::load(numbers, counts).get_roll_correction_deg(),
            values,
            shown,
        ),
        6 => show(
            OrientationCorrector::load(numbers, counts).get_pitch_confidence(),
            values,
            shown,
        ),
        7 => show(
            OrientationCorrector::load(numbers, counts).get_roll_confidence(),
            values,
            shown,
        ),
        _ => 2,
    }
}
