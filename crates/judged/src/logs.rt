// Records of the log. Of a listing: the log's length, that of the lent part of `out`, 128 bytes that the
// log begins, what the call gives, and the first 256 bytes of `out` after it. Before it they are all
// `U`. Of a replay: the log's length, 128 bytes that it begins, and the filter's numbers and counts
// before it and after it; it is made as a whole and a record at a time. Of a record that is appended: the
// buffer's length, the used length, the tag, the payload's length, 48 bytes that the buffer begins, 32
// that the payload begins, and the used length and those 48 bytes after it.
use crate::sample::{Lent, Record};
use boundary_append::track_append;
use boundary_log::track_list;
use boundary_record::track_replay_record;
use boundary_replay::track_replay;
use std::io::Read;
use std::iter::successors;
use words::filter::{COUNTS, Counts, NUMBERS, Numbers};

// What the call gives with so much of the log and of `out`, where they have that much: the sample has
// the lengths as words beside the bytes.
fn listed(log: &[u8], length: u32, out: &mut [u8], lent: u32) -> Option<usize> {
    let log = log.get(..length as usize)?;
    let out = out.get_mut(..lent as usize)?;
    Some(track_list(log, out))
}

pub(crate) fn list(record: &mut Record<impl Read>) -> bool {
    let [length, lent] = record.words::<2>();
    let log = record.bytes::<128>();
    let gives = record.word();
    let shown = record.bytes::<256>();
    let mut out = [b'U'; 1200];
    let given = listed(&log, length, &mut out, lent).unwrap_or(0);
    (given == gives as usize) & out.starts_with(&shown)
}

// The log behind its first record, by the length that the header says.
fn behind(log: &[u8]) -> Option<&[u8]> {
    let [_, low, high, rest @ ..] = log else {
        return None;
    };
    rest.get(usize::from(u16::from_le_bytes([*low, *high]))..)
}

// What the calls give, one a record, up to the end or the stop, from an edition of 7 on, which is
// none. A log of 128 bytes has at most 32.
fn walked(log: &[u8], numbers: &mut Numbers, counts: &mut Counts) -> Option<u32> {
    let mut replay = [1u32, 7];
    for rest in successors(Some(log), |log| behind(log)).take(33) {
        let [number, _] = replay;
        let gives = track_replay_record(
            rest,
            &mut replay,
            numbers,
            counts,
            &mut [0.0; 2],
            &mut [0; 4],
        );
        if replay[0] == number {
            return Some(gives);
        }
    }
    None
}

// The words of a filter.
const FILTER: usize = NUMBERS + COUNTS;

// Whether a replay gives the number and leaves the filter's words.
fn comes_out<F: FnOnce(&mut Numbers, &mut Counts) -> Option<u32>>(
    filter: &Lent<FILTER>,
    number: u32,
    after: &Lent<FILTER>,
    replay: F,
) -> bool
    requires { F.IsAlwaysCallable replay }
{
    let mut before = filter.parts();
    let mut numbers = before.floats();
    let mut counts = before.words();
    let gives = replay(&mut numbers, &mut counts);
    let mut after = after.parts();
    (gives == Some(number)) & after.are_floats(numbers) & (after.words() == counts)
}

pub(crate) fn replay(record: &mut Record<impl Read>) -> bool {
    let length = record.word();
    let log = record.bytes::<128>();
    let filter = Lent::read(record);
    let after = Lent::read(record);
    let number = record.number;
    let Some(log) = log.get(..length as usize) else {
        return comes_out(&filter, number, &after, |_, _| Some(0));
    };
    comes_out(
        &filter,
        number,
        &after,
        |numbers, counts| Some(track_replay(log, numbers, counts)),
    ) & comes_out(
        &filter,
        number,
        &after,
        |numbers, counts| walked(log, numbers, counts),
    )
}

// The 64 bits of two words.
fn wide([low, high]: [u32; 2]) -> usize {
    (low as usize) | ((high as usize) << 32)
}

// What the call gives with so much of the buffer and of the payload, where they have that much: the
// sample has the lengths as words beside the bytes.
fn appended(
    bytes: &mut [u8],
    length: u32,
    used: &mut [usize; 1],
    tag: u32,
    payload: &[u8],
    size: u32,
) -> Option<u32> {
    let bytes = bytes.get_mut(..length as usize)?;
    let payload = payload.get(..size as usize)?;
    Some(track_append(bytes, used, tag, payload))
}

pub(crate) fn append(record: &mut Record<impl Read>) -> bool {
    let [length, low, high, tag, size] = record.words::<5>();
    let mut used = [wide([low, high])];
    let mut bytes = record.bytes::<48>();
    let payload = record.bytes::<32>();
    let left = wide(record.words());
    let after = record.bytes::<48>();
    let gives = appended(&mut bytes, length, &mut used, tag, &payload, size).unwrap_or(0);
    (gives == record.number) & (used == [left]) & (bytes == after)
}
