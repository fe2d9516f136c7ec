// Made from crates/boundary_summary by tools/boundary.
// What C and Rust link of it: its functions under their own names. Each takes and says what its function does.
#![tactic(auto)]

ghost use Rattle.std.specs.Prelude.{◌≡◌};
ghost use Rattle.std.proofs.lemmas.List.Edits.{sets};
ghost use Rattle.buckets.specs.Summary.{counts_of};
ghost use Rattle.summary.specs.Summarized.{summarized};

// Replays a log and writes the summary of its position verdicts, a count for each bucket and that of
// the rejected; gives 0, or the number of the stop.
#[unsafe(no_mangle)]
pub extern "C" fn track_summarize(log: &[u8], summary: &mut [u32; 129]) -> u32
    ensures { (result ≡ (summarized log.now).stop) × (summary.new ≡ sets summary.old 0 (counts_of (summarized log.now).left)) }
{
    boundary_summary::track_summarize(log, summary)
}
