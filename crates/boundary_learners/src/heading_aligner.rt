// Made from docs/boundary.txt by tools/boundary.
// The heading aligner in the caller's memory: 6 numbers and 2 counts.
ghost use Rattle.words.specs.Words.{Lent};
ghost use Rattle.boundary_learners.specs.Aligner.{loaded, numbers_of, counts_of, called};

use crate::Learners;
use aligner::HeadingAligner;
use words::answer::show;
use words::record::{Stored, leave};

impl Stored<Learners, 6, 2> for HeadingAligner {
    type Whole = HeadingAligner;

    ghost loaded = { loaded };

    ghost numbers_of = { numbers_of };

    ghost counts_of = { counts_of };

    ghost part = { λ s. s };

    ghost put = { λ old s. s };

    fn load(n: &[f32; 6], c: &[u32; 2]) -> HeadingAligner {
        HeadingAligner {
            offset: n[0],
            valid: c[0] != 0,
            update_count: c[1],
            alpha: n[1],
            min_speed: n[2],
            last_gps_course: n[3],
            time_since_gps: n[4],
            max_gps_age: n[5],
        }
    }

    fn store(self, n: &mut [f32; 6], c: &mut [u32; 2]) {
        n[0] = self.offset;
        c[0] = self.valid as u32;
        c[1] = self.update_count;
        n[1] = self.alpha;
        n[2] = self.min_speed;
        n[3] = self.last_gps_course;
        n[4] = self.time_since_gps;
        n[5] = self.max_gps_age;
    }
}

#[tactic(auto, unfolding(crate::specs::Aligner::called))]
pub fn track_aligner(
    operation: u32,
    numbers: &mut [f32; 6],
    counts: &mut [u32; 2],
    arguments: &[f32; 6],
    words: &[u32; 4],
    values: &mut [f32; 2],
    shown: &mut [u32; 4],
) -> u32
    ensures { Lent (called operation arguments.now words.now (loaded numbers.old counts.old)) numbers_of counts_of numbers.old counts.old values.old shown.old result numbers.new counts.new values.new shown.new }
{
    match operation {
        0 => leave(
            HeadingAligner::new(arguments[0], arguments[1], arguments[2]),
            numbers,
            counts,
            values,
            shown,
        ),
        1 => leave(
            HeadingAligner::load(numbers, counts).update_gps_course(arguments[0]),
            numbers,
            counts,
            values,
            shown,
        ),
        2 => leave(
            HeadingAligner::load(numbers, counts).update(arguments[0], arguments[1], arguments[2]),
            numbers,
            counts,
            values,
            shown,
        ),
        3 => show(
            HeadingAligner::load(numbers, counts).get_aligned_heading(arguments[0]),
            values,
            shown,
        ),
        4 => show(
            HeadingAligner::load(numbers, counts).is_valid(),
            values,
            shown,
        ),
        5 => show(
            HeadingAligner::load(numbers, counts).get_offset(),
            values,
            shown,
        ),
        6 => show(
            HeadingAligner::load(numbers, counts).get_confidence(),
            values,
            shown,
        ),
        7 => leave(
            HeadingAligner::load(numbers, counts).reset(),
            numbers,
            counts,
            values,
            shown,
        ),
        _ => 2,
    }
}
