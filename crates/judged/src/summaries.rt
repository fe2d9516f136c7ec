// Records of summaries, each with one word at every place but one, which has a count of its own. Of a
// verdict: the verdict, the gate value, the word at the other places, the place, and its count before and
// after. Of a merge: the place; then of the summary, of the other one and of the merge the word and the
// count. Of a log: its length, 128 bytes that it begins, the word at every place before it, and three places
// with their counts after it, where all others are 0.
use crate::sample::Record;
use boundary_buckets::{track_summary_add, track_summary_merge};
use boundary_summary::track_summarize;
use float::float_of;
use std::io::Read;

// A summary with one word at every place but some, each with a count.
fn summary<const N: usize>(word: u32, counts: [(u32, u32); N]) -> [u32; 129] {
    let mut summary = [word; 129];
    for (place, count) in counts {
        if let Some(at) = summary.get_mut(place as usize) {
            *at = count;
        }
    }
    summary
}

pub(crate) fn add(record: &mut Record<impl Read>) -> bool {
    let [verdict, value, word, place, before, after] = record.words::<6>();
    let mut added = summary(word, [(place, before)]);
    let gives = track_summary_add(&mut added, verdict, float_of(value));
    (gives == record.number) & (added == summary(word, [(place, after)]))
}

pub(crate) fn merge(record: &mut Record<impl Read>) -> bool {
    let [
        place,
        word,
        count,
        other_word,
        other_count,
        merged_word,
        merged_count,
    ] = record.words::<7>();
    let mut merged = summary(word, [(place, count)]);
    track_summary_merge(&mut merged, &summary(other_word, [(place, other_count)]));
    merged == summary(merged_word, [(place, merged_count)])
}

pub(crate) fn summarize(record: &mut Record<impl Read>) -> bool {
    let length = record.word();
    let log = record.bytes::<128>();
    let [word, p, p_count, q, q_count, r, r_count] = record.words::<7>();
    let mut summarized = [word; 129];
    let gives = match log.get(..length as usize) {
        Some(log) => track_summarize(log, &mut summarized),
        None => 0,
    };
    let after = summary(0, [(p, p_count), (q, q_count), (r, r_count)]);
    (gives == record.number) & (summarized == after)
}
