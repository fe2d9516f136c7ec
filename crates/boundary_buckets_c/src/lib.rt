// Made from crates/boundary_buckets by tools/boundary.
// What C and Rust link of it: its functions under their own names. Each takes and says what its function does.
#![tactic(auto)]

ghost use Rattle.std.specs.Prelude.{◌≡◌};
ghost use Rattle.boundary_buckets.specs.Lent.{added_to};
ghost use Rattle.buckets.specs.Summary.{summed_row};

// Adds a verdict of the position gate with its gate value and gives 0; or gives a refusal and writes
// nothing.
#[unsafe(no_mangle)]
pub extern "C" fn track_summary_add(summary: &mut [u32; 129], verdict: u32, value: f32) -> u32
    ensures { (result, summary.new) ≡ added_to verdict value summary.old }
{
    boundary_buckets::track_summary_add(summary, verdict, value)
}

// Adds the other summary's counts to those of the first.
#[unsafe(no_mangle)]
pub extern "C" fn track_summary_merge(summary: &mut [u32; 129], other: &[u32; 129])
    ensures { summary.new ≡ summed_row summary.old other.now }
{
    boundary_buckets::track_summary_merge(summary, other)
}
