// Calls of the functions that have a record: operation, six arguments, four words; then numbers,
// counts, two values and four shown words, as they are before the call and, where it is answered,
// again as it leaves them. A record of a log: its number and the edition before the call, both after
// it, 32 bytes that it begins; then the same words of the filter.
use crate::sample::{Lent, Record};
use boundary_record::track_replay_record;
use std::io::Read;
use words::filter::{COUNTS, NUMBERS};

// The words that a call of the filter may write.
pub(crate) const FILTER: usize = NUMBERS + COUNTS + 6;

// Whether the call of a function by its operation comes out as the judge says; it may write so many
// words, those of its record and six of its answer. The functions differ in how many they have, and no
// bound `FnOnce` may name a const parameter: so it is a macro.
macro_rules! operation {
    ($record:expr, $track:path, $words:expr) => {{
        let record = $record;
        let [operation, a, b, c, d, e, f, p, q, r, s] = record.words::<11>();
        let lent = $crate::sample::Lent::<{ $words }>::read(record);
        let mut before = lent.parts();
        let mut numbers = before.floats();
        let mut counts = before.words();
        let mut values = before.floats();
        let mut shown = before.words();
        let gives = $track(
            operation,
            &mut numbers,
            &mut counts,
            &[a, b, c, d, e, f].map(float::float_of),
            &[p, q, r, s],
            &mut values,
            &mut shown,
        );
        let left = lent.left(record);
        let mut after = left.parts();
        (gives == record.number)
            & after.are_floats(numbers)
            & (after.words() == counts)
            & after.are_floats(values)
            & (after.words() == shown)
    }};
}

pub(crate) use operation;

pub(crate) fn record(record: &mut Record<impl Read>) -> bool {
    let [number, edition, next_number, next_edition] = record.words::<4>();
    let mut replay = [number, edition];
    let log = record.bytes::<32>();
    let lent = Lent::<FILTER>::read(record);
    let mut before = lent.parts();
    let mut numbers = before.floats();
    let mut counts = before.words();
    let mut values = before.floats();
    let mut shown = before.words();
    let gives = track_replay_record(
        &log,
        &mut replay,
        &mut numbers,
        &mut counts,
        &mut values,
        &mut shown,
    );
    let left = lent.left(record);
    let mut after = left.parts();
    (gives == record.number)
        & (replay == [next_number, next_edition])
        & after.are_floats(numbers)
        & (after.words() == counts)
        & after.are_floats(values)
        & (after.words() == shown)
}
