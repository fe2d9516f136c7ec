// Made from docs/boundary.txt by tools/boundary.
// GPS acceleration in the caller's memory: 5 numbers and 8 counts.
ghost use Rattle.words.specs.Words.{Lent};
ghost use Rattle.boundary_learners.specs.Gps.{loaded, numbers_of, counts_of, called};

use crate::{Learners, high_word, low_word, wide_of};
use call::Outcome;
use gps::GpsAcceleration;
use words::answer::show;
use words::record::{Stored, leave};

impl Stored<Learners, 5, 8> for GpsAcceleration {
    type Whole = GpsAcceleration;

    ghost loaded = { loaded };

    ghost numbers_of = { numbers_of };

    ghost counts_of = { counts_of };

    ghost part = { λ s. s };

    ghost put = { λ old s. s };

    fn load(n: &[f32; 5], c: &[u32; 8]) -> GpsAcceleration {
        GpsAcceleration {
            prev_speed: n[0],
            prev_time: wide_of(c[3], c[4]),
            has_prev_fix: c[2] != 0,
            accel_lon: n[1],
            valid: c[0] != 0,
            gps_rate: n[2],
            time_since_fix: n[3],
            rate_ema: n[4],
            last_fix_count: c[1],
            last_rate_time: wide_of(c[6], c[7]),
            has_last_rate: c[5] != 0,
        }
    }

    fn store(self, n: &mut [f32; 5], c: &mut [u32; 8]) {
        let prev_time_low = low_word(self.prev_time);
        let prev_time_high = high_word(self.prev_time);
        let last_rate_time_low = low_word(self.last_rate_time);
        let last_rate_time_high = high_word(self.last_rate_time);
        n[0] = self.prev_speed;
        n[1] = self.accel_lon;
        c[0] = self.valid as u32;
        n[2] = self.gps_rate;
        n[3] = self.time_since_fix;
        n[4] = self.rate_ema;
        c[1] = self.last_fix_count;
        c[2] = self.has_prev_fix as u32;
        c[3] = prev_time_low;
        c[4] = prev_time_high;
        c[5] = self.has_last_rate as u32;
        c[6] = last_rate_time_low;
        c[7] = last_rate_time_high;
    }
}

#[tactic(auto, unfolding(crate::specs::Gps::called))]
pub fn track_gps(
    operation: u32,
    numbers: &mut [f32; 5],
    counts: &mut [u32; 8],
    arguments: &[f32; 6],
    words: &[u32; 4],
    values: &mut [f32; 2],
    shown: &mut [u32; 4],
) -> u32
    ensures { Lent (called operation arguments.now words.now (loaded numbers.old counts.old)) numbers_of counts_of numbers.old counts.old values.old shown.old result numbers.new counts.new values.new shown.new }
{
    match operation {
        0 => leave(
            Outcome::answered((), GpsAcceleration::new()),
            numbers,
            counts,
            values,
            shown,
        ),
        1 => leave(
            GpsAcceleration::load(numbers, counts).update(
                arguments[0],
                wide_of(words[0], words[1]),
            ),
            numbers,
            counts,
            values,
            shown,
        ),
        2 => leave(
            GpsAcceleration::load(numbers, counts).update_rate(
                words[0],
                wide_of(words[1], words[2]),
            ),
            numbers,
            counts,
            values,
            shown,
        ),
        3 => leave(
            GpsAcceleration::load(numbers, counts).advance_time(arguments[0]),
            numbers,
            counts,
            values,
            shown,
        ),
        4 => show(
            GpsAcceleration::load(numbers, counts).get_rate(),
            values,
            shown,
        ),
        _ => 2,
    }
}
