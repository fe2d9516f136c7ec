// Made from docs/boundary.txt by tools/boundary.
// The tilt estimator in the caller's memory: 6 numbers and 2 counts.
ghost use Rattle.words.specs.Words.{Lent};
ghost use Rattle.boundary_learners.specs.Tilt.{loaded, numbers_of, counts_of, called};

use crate::{Learners, show_offsets};
use tilt::TiltEstimator;
use words::record::{Stored, leave};

impl Stored<Learners, 6, 2> for TiltEstimator {
    type Whole = TiltEstimator;

    ghost loaded = { loaded };

    ghost numbers_of = { numbers_of };

    ghost counts_of = { counts_of };

    ghost part = { λ s. s };

    ghost put = { λ old s. s };

    fn load(n: &[f32; 6], c: &[u32; 2]) -> TiltEstimator {
        TiltEstimator {
            accel_x_sum: n[0],
            accel_y_sum: n[1],
            sample_count: c[0],
            stationary_time: n[2],
            offset_x: n[3],
            offset_y: n[4],
            offset_valid: c[1] != 0,
            learn_time: n[5],
        }
    }

    fn store(self, n: &mut [f32; 6], c: &mut [u32; 2]) {
        n[0] = self.accel_x_sum;
        n[1] = self.accel_y_sum;
        c[0] = self.sample_count;
        n[2] = self.stationary_time;
        n[3] = self.offset_x;
        n[4] = self.offset_y;
        c[1] = self.offset_valid as u32;
        n[5] = self.learn_time;
    }
}

#[tactic(auto, unfolding(crate::specs::Tilt::called))]
pub fn track_tilt(
    operation: u32,
    numbers: &mut [f32; 6],
    counts: &mut [u32; 2],
    arguments: &[f32; 6],
    words: &[u32; 4],
    values: &mut [f32; 2],
    shown: &mut [u32; 4],
) -> u32
    ensures { Lent (called operation arguments.now words.now (loaded numbers.old counts.old)) numbers_of counts_of numbers.old counts.old values.old shown.old result numbers.new counts.new values.new shown.new }
{
    match operation {
        0 => leave(
            TiltEstimator::new(arguments[0]),
            numbers,
            counts,
            values,
            shown,
        ),
        1 => leave(
            TiltEstimator::load(numbers, counts).update_stationary(
                arguments[0],
                arguments[1],
                arguments[2],
            ),
            numbers,
            counts,
            values,
            shown,
        ),
        2 => leave(
            TiltEstimator::load(numbers, counts).reset_stationary(),
            numbers,
            counts,
            values,
            shown,
        ),
        3 => show_offsets(
            TiltEstimator::load(numbers, counts).get_offsets(),
            values,
            shown,
        ),
        _ => 2,
    }
}
