// Made from crates/boundary_filter by tools/boundary.
// What C and Rust link of it: its functions under their own names. Each takes and says what its function does.
#![tactic(auto)]

ghost use Rattle.words.specs.Words.{Lent};
ghost use Rattle.words.specs.Filter.{loaded, numbers_of, counts_of};
ghost use Rattle.boundary_filter.specs.Filter.{called};

use words::filter::{Counts, Numbers};

#[unsafe(no_mangle)]
pub extern "C" fn track_ekf(
    operation: u32,
    numbers: &mut Numbers,
    counts: &mut Counts,
    arguments: &[f32; 6],
    words: &[u32; 4],
    values: &mut [f32; 2],
    shown: &mut [u32; 4],
) -> u32
    ensures { Lent (called operation arguments.now words.now (loaded numbers.old counts.old)) numbers_of counts_of numbers.old counts.old values.old shown.old result numbers.new counts.new values.new shown.new }
{
    boundary_filter::track_ekf(operation, numbers, counts, arguments, words, values, shown)
}
