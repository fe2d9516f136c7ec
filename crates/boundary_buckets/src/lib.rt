// What C and Rust link to keep a summary beside the filter, in 129 words: a count for each bucket,
// and that of the rejected. It is a crate of its own, so that a box that keeps a summary links no
// replay.
#![tactic(auto)]

ghost use Rattle.std.specs.Prelude.{◌≡◌};
ghost use Rattle.boundary_buckets.specs.Lent.{verdict_of, added_to};
ghost use Rattle.buckets.specs.Summary.{summed_row};

use buckets::{Place, add_up, place_of};
use call::refusal::Refusal;
use channel::Verdict;
use float::{TALLY_STOP, is_finite, raise};

// A verdict by its word, 1 accepted and 2 rejected; any other is no verdict.
fn verdict_of(word: u32, value: f32) -> Verdict
    ensures { result ≡ verdict_of word value }
{
    match word {
        1 => Verdict::Accepted(value),
        2 => Verdict::Rejected(value),
        _ => Verdict::Done,
    }
}

// Adds a verdict of the position gate with its gate value and gives 0; or gives a refusal and writes
// nothing.
#[tactic(auto, unfolding(crate::specs::Lent::added_to))]
pub fn track_summary_add(summary: &mut [u32; 129], verdict: u32, value: f32) -> u32
    ensures { (result, summary.new) ≡ added_to verdict value summary.old }
{
    if !is_finite(value) {
        return u32::from(Refusal::NotFinite);
    }
    match place_of::<Refusal>(Ok(verdict_of(verdict, value))) {
        Ok(Place::Bucket(k)) => {
            summary[k] = raise(TALLY_STOP, summary[k]);
            0
        }
        Ok(Place::Rejected) => {
            summary[128] = raise(TALLY_STOP, summary[128]);
            0
        }
        Err(refusal) => u32::from(refusal),
    }
}

// Adds the other summary's counts to those of the first.
pub fn track_summary_merge(summary: &mut [u32; 129], other: &[u32; 129])
    ensures { summary.new ≡ summed_row summary.old other.now }
{
    add_up(summary, other)
}
