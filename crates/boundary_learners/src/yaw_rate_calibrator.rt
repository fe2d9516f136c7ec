// Made from docs/boundary.txt by tools/boundary.
// The yaw rate calibrator in the caller's memory: 27 numbers and 4 counts.
ghost use Rattle.words.specs.Words.{Lent};
ghost use Rattle.boundary_learners.specs.YawRate.{loaded, numbers_of, counts_of, called};

use crate::{Learners, index_of, index_word};
use words::answer::show;
use words::record::{Stored, leave};
use yawrate::YawRateCalibrator;

impl Stored<Learners, 27, 4> for YawRateCalibrator {
    type Whole = YawRateCalibrator;

    ghost loaded = { loaded };

    ghost numbers_of = { numbers_of };

    ghost counts_of = { counts_of };

    ghost part = { λ s. s };

    ghost put = { λ old s. s };

    fn load(n: &[f32; 27], c: &[u32; 4]) -> YawRateCalibrator {
        YawRateCalibrator {
            bias: n[0],
            valid: c[0] != 0,
            heading_history: [
                n[7], n[8], n[9], n[10], n[11], n[12], n[13], n[14], n[15], n[16], n[17], n[18],
                n[19], n[20], n[21], n[22], n[23], n[24], n[25], n[26],
            ],
            heading_idx: index_of(c[1]),
            heading_count: c[2],
            straight_time: n[1],
            yaw_sum: n[2],
            sample_count: c[3],
            min_speed: n[3],
            heading_tolerance: n[4],
            learn_time: n[5],
            alpha: n[6],
        }
    }

    fn store(self, n: &mut [f32; 27], c: &mut [u32; 4]) {
        let heading_idx = index_word(self.heading_idx);
        let heading_history = self.heading_history;
        n[0] = self.bias;
        c[0] = self.valid as u32;
        c[1] = heading_idx;
        c[2] = self.heading_count;
        n[1] = self.straight_time;
        n[2] = self.yaw_sum;
        c[3] = self.sample_count;
        n[3] = self.min_speed;
        n[4] = self.heading_tolerance;
        n[5] = self.learn_time;
        n[6] = self.alpha;
        n[7] = heading_history[0];
        n[8] = heading_history[1];
        n[9] = heading_history[2];
        n[10] = heading_history[3];
        n[11] = heading_history[4];
        n[12] = heading_history[5];
        n[13] = heading_history[6];
        n[14] = heading_history[7];
        n[15] = heading_history[8];
        n[16] = heading_history[9];
        n[17] = heading_history[10];
        n[18] = heading_history[11];
        n[19] = heading_history[12];
        n[20] = heading_history[13];
        n[21] = heading_history[14];
        n[22] = heading_history[15];
        n[23] = heading_history[16];
        n[24] = heading_history[17];
        n[25] = heading_history[18];
        n[26] = heading_history[19];
    }
}

#[tactic(auto, unfolding(crate::specs::YawRate::called))]
pub fn track_yawrate(
    operation: u32,
    numbers: &mut [f32; 27],
    counts: &mut [u32; 4],
    arguments: &[f32; 6],
    words: &[u32; 4],
    values: &mut [f32; 2],
    shown: &mut [u32; 4],
) -> u32
    ensures { Lent (called operation arguments.now words.now (loaded numbers.old counts.old)) numbers_of counts_of numbers.old counts.old values.old shown.old result numbers.new counts.new values.new shown.new }
{
    match operation {
        0 => leave(
            YawRateCalibrator::new(arguments[0], arguments[1], arguments[2], arguments[3]),
            numbers,
            counts,
            values,
            shown,
        ),
        1 => leave(
            YawRateCalibrator::load(numbers, counts).update_heading(arguments[0]),
            numbers,
            counts,
            values,
            shown,
        ),
        2 => leave(
            YawRateCalibrator::load(numbers, counts).update(
                arguments[0],
                arguments[1],
                arguments[2],
            ),
            numbers,
            counts,
            values,
            shown,
        ),
        3 => show(
            YawRateCalibrator::load(numbers, counts).get_bias(),
            values,
            shown,
        ),
        4 => show(
            YawRateCalibrator::load(numbers, counts).is_valid(),
            values,
            shown,
        ),
        _ => 2,
    }
}
