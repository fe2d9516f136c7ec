// What C and Rust link to summarize a log. It is a crate of its own, so that in each of the archives a
// record's turn has one caller, into which it is compiled.
#![tactic(auto)]

ghost use Rattle.std.specs.Prelude.{◌≡◌};
ghost use Rattle.std.proofs.lemmas.List.Edits.{sets};
ghost use Rattle.buckets.specs.Summary.{counts_of};
ghost use Rattle.summary.specs.Summarized.{summarized};

// Replays a log and writes the summary of its position verdicts, a count for each bucket and that of
// the rejected; gives 0, or the number of the stop.
pub fn track_summarize(log: &[u8], summary: &mut [u32; 129]) -> u32
    ensures { (result ≡ (summarized log.now).stop) × (summary.new ≡ sets summary.old 0 (counts_of (summarized log.now).left)) }
{
    let end = summary::summarize(log);
    summary[..128].copy_from_slice(&end.left.buckets);
    summary[128] = end.left.rejected;
    match end.stop {
        Some(refusal) => u32::from(refusal),
        None => 0,
    }
}
