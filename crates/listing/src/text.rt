// The listing's text, written into a lent buffer from a place on: each function answers the place
// behind what it wrote. Buffer and place stay two parameters, since each clause speaks of both.
ghost use Rattle.std.specs.Prelude.{◌≡◌, [], ◌∷◌, ◌++◌, ◌<◌};
ghost use Rattle.call.specs.Said.{said};
ghost use Rattle.channel.specs.Answers.{verdict};
ghost use Rattle.lent_bytes.specs.Wrote.{Wrote};
ghost use Rattle.tracklog.specs.Format.{tag_number};
ghost use Rattle.listing.specs.Text.{digit, digits, verdict_text, line, stop_line, word, row, rows};
ghost use Rattle.listing.specs.SummaryText.{quarters, bucket_text, rejected_text};

use call::refusal::Refusal;
use channel::Verdict;
use ekf::Ekf;
use lent_bytes::{put, put_text};
use tracklog::format::Tag;

// The byte of a digit: 0 to 9, then A to F.
fn digit_of(n: usize) -> u8
    ensures { result ≡ digit n }
{
    if n < 10 {
        b'0' + (n as u8)
    } else {
        55 + ((n % 16) as u8)
    }
}

// The digits of n in a base: the last one and at most `more` before it, and none before it where
// n is below `least`. By hand, since nothing may allocate, and the library's writer into a lent buffer
// promises how many bytes it writes and not which.
fn put_digits(out: &mut [u8], at: usize, base: usize, least: usize, more: usize, n: usize) -> usize
    requires { 0 < base }
    ensures { Wrote out.old at (digits base least more n) out.new result }
{
    let last = digit_of(n % base);
    if more == 0 {
        return put(out, at, last);
    }
    if n < least {
        return put(out, at, last);
    }
    let behind = put_digits(out, at, base, least, more - 1, n / base);
    put(out, behind, last)
}

// A space and a float's bits.
fn put_word(out: &mut [u8], at: usize, x: f32) -> usize
    ensures { Wrote out.old at (word x) out.new result }
{
    let bits = float::bits_of(x) as usize;
    let a = put(out, at, b' ');
    put_digits(out, a, 16, 0, 7, bits)
}

// A gate's letter and its value.
fn put_gauged(out: &mut [u8], at: usize, letter: u8, value: f32) -> usize
    ensures { Wrote out.old at ((letter ∷ []) ++ word value) out.new result }
{
    let a = put(out, at, letter);
    put_word(out, a, value)
}

// A or R with the gate value, D, or the refusal number.
#[tactic(auto, unfolding(crate::specs::Text::verdict_text))]
fn put_verdict(out: &mut [u8], at: usize, answer: Result<Verdict, Refusal>) -> usize
    ensures { Wrote out.old at (verdict_text (said verdict answer)) out.new result }
{
    match answer {
        Ok(Verdict::Accepted(value)) => put_gauged(out, at, b'A', value),
        Ok(Verdict::Rejected(value)) => put_gauged(out, at, b'R', value),
        Ok(Verdict::Done) => put(out, at, b'D'),
        Err(refusal) => put_digits(out, at, 10, 10, 2, u32::from(refusal) as usize),
    }
}

// A record's line: its number, its tag and its verdict.
pub fn put_line(
    out: &mut [u8],
    at: usize,
    number: usize,
    tag: Tag,
    answer: Result<Verdict, Refusal>,
) -> usize
    ensures { Wrote out.old at (line number (tag_number tag) (said verdict answer)) out.new result }
{
    let a = put_digits(out, at, 10, 10, 19, number);
    let b = put(out, a, b' ');
    let byte = u8::from(tag);
    let c = put_digits(out, b, 10, 10, 2, byte as usize);
    let d = put(out, c, b' ');
    let e = put_verdict(out, d, answer);
    put(out, e, b'\n')
}

// `stop`, the record's number and the reason.
pub fn put_stop(out: &mut [u8], at: usize, number: usize, reason: u32) -> usize
    ensures { Wrote out.old at (stop_line number reason) out.new result }
{
    let a = put_text(out, at, b"stop ");
    let b = put_digits(out, a, 10, 10, 19, number);
    let c = put(out, b, b' ');
    let d = put_digits(out, c, 10, 10, 2, reason as usize);
    put(out, d, b'\n')
}

// A name and seven numbers, one by one: in an array they would be copied together first, and a loop over
// it says less than the seven calls.
fn put_row(
    out: &mut [u8],
    at: usize,
    name: u8,
    a: f32,
    b: f32,
    c: f32,
    d: f32,
    e: f32,
    f: f32,
    g: f32,
) -> usize
    ensures { Wrote out.old at (row name a b c d e f g) out.new result }
{
    let n = put(out, at, name);
    let n = put_word(out, n, a);
    let n = put_word(out, n, b);
    let n = put_word(out, n, c);
    let n = put_word(out, n, d);
    let n = put_word(out, n, e);
    let n = put_word(out, n, f);
    let n = put_word(out, n, g);
    put(out, n, b'\n')
}

// x and p, in the Rust's order.
pub fn put_filter(out: &mut [u8], at: usize, filter: Ekf) -> usize
    ensures { Wrote out.old at (rows filter) out.new result }
{
    let Ekf {
        position,
        velocity,
        yaw,
        bias,
        ..
    } = filter;
    let a = put_row(
        out,
        at,
        b'x',
        position.x.x,
        position.y.x,
        yaw.angle.x,
        velocity.x.x,
        velocity.y.x,
        bias.x.x,
        bias.y.x,
    );
    put_row(
        out,
        a,
        b'p',
        position.x.p,
        position.y.p,
        yaw.angle.p,
        velocity.x.p,
        velocity.y.p,
        bias.x.p,
        bias.y.p,
    )
}

// A number of quarters: its whole part, a point and two digits.
fn put_quarters(out: &mut [u8], at: usize, k: usize) -> usize
    ensures { Wrote out.old at (quarters k) out.new result }
{
    let a = put_digits(out, at, 10, 10, 1, k / 4);
    let b = put(out, a, b'.');
    put_digits(out, b, 10, 0, 1, k % 4 * 25)
}

// A bucket's range and its count, or nothing where it is empty.
pub fn put_bucket(out: &mut [u8], at: usize, k: u8, count: u32) -> usize
    ensures { Wrote out.old at (bucket_text k count) out.new result }
{
    if count == 0 {
        return put_text(out, at, b"");
    }
    let a = put_quarters(out, at, k as usize);
    let b = put(out, a, b' ');
    let c = put_quarters(out, b, k as usize + 1);
    let d = put(out, c, b' ');
    let e = put_digits(out, d, 10, 10, 9, count as usize);
    put(out, e, b'\n')
}

// `rejected` and their count.
pub fn put_rejected(out: &mut [u8], at: usize, count: u32) -> usize
    ensures { Wrote out.old at (rejected_text count) out.new result }
{
    let a = put_text(out, at, b"rejected ");
    let b = put_digits(out, a, 10, 10, 9, count as usize);
    put(out, b, b'\n')
}
