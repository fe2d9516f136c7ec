// What the learners share.
#![tactic(auto)]

ghost use Rattle.std.specs.Prelude.{◌≡◌};
ghost use Rattle.learner.specs.Confidence.{confidence};

pub mod ranges; // ranges.rt: the ranges that they test alike

use float::count_float;

// The confidence after so many updates: at most 1. By a test, as the definition has it: of the library's
// `min` the check also asks what it gives for a NaN and for two zeros.
pub fn confidence(update_count: u32) -> f32
    ensures { result ≡ confidence update_count }
{
    let c = count_float(update_count) / 100.0;
    if c < 1.0 { c } else { 1.0 }
}
