// Sine and cosine read from constant tables at steps of 1/256 radian from 0 to 4, on a straight line
// between two entries. A function that names a constant table copies it to its stack: so each is named
// once, its copy is lent to the reader, and a row of angles is read by one copy.
ghost use Rattle.std.specs.Prelude.{◌≡◌, ◌≤◌, ◌<◌};
ghost use Rattle.call.specs.Said.{said, value};
ghost use Rattle.trig.specs.Table.{Holds, AtMostOne, sine_entry, cosine_entry, next, line, read, entry_of, table_sine, table_cosine, table_sin, table_cos};
ghost use Rattle.trig.specs.Row.{sum_of};

mod cosines; // cosines.rt: the table of cosines
mod sines; // sines.rt: the table of sines

use crate::{FOUR, Raised, angle, is_negative, turned, whole};
use call::refusal::Refusal;
use cosines::COSINES;
use float::is_within;
use sines::SINES;

// The place after i; the last is its own, so that at 4 the last entry is taken.
fn next(i: usize) -> usize
    ensures { result ≡ next i }
{
    i.min(1023) + 1
}

// A table in memory.
#[derive(Clone, Copy)]
struct Table {
    entries: [i32; 1025],
    ghost at_most_one: { AtMostOne entries },
}

impl Table {
    fn sines() -> Table
        ensures { Holds sine_entry result.entries }
    {
        Table { entries: SINES }
    }

    fn cosines() -> Table
        ensures { Holds cosine_entry result.entries }
    {
        Table { entries: COSINES }
    }

    // An entry.
    fn entry(&self, i: usize) -> Raised
        requires { i < 1025 }
        ensures { result.t ≡ entry_of self.now.entries i }
    {
        Raised {
            t: (self.entries[i] + 33554432) as u32,
        }
    }

    // The reading at the angle n / 2^28: from the entry at floor(256 * n / 2^28) on the straight line
    // to the next, cut.
    fn line(&self, n: u32) -> Raised
        requires { n ≤ 1073741824 }
        ensures { result.t ≡ line (entry_of self.now.entries) n }
    {
        let i = (n / 1048576) as usize;
        let part = (n % 1048576) as u64;
        let a = self.entry(i).t as u64;
        let b = self.entry(next(i)).t as u64;
        Raised {
            t: ((a * (1048576 - part) + b * part) / 1048576) as u32,
        }
    }

    // The reading of an angle's size, whose sign an odd table turns for a negative angle; a NaN where
    // the angle is none of at most 4 in size.
    // `odd` is no field: as one it costs a reading some seven instructions.
    fn read(&self, odd: bool, a: f32) -> f32
        ensures { result ≡ read odd (entry_of self.now.entries) a }
    {
        if is_within(a, FOUR) {
            turned(odd & is_negative(a), self.line(whole(a)).lowered())
        } else {
            f32::NAN
        }
    }

    // The sum of the readings of a row of angles, in their order, onto `start`.
    fn sum(&self, odd: bool, start: f32, row: &[f32]) -> f32
        ensures { result ≡ sum_of (read odd (entry_of self.now.entries)) start row.now }
    {
        let mut sum = start;
        for a in row {
            sum = sum + self.read(odd, *a);
        }
        sum
    }
}

// ---- a row of angles, by one copy of a table

// The sum of the sines, in the row's order, onto `start`.
pub fn sine_sum(start: f32, row: &[f32]) -> f32
    ensures { result ≡ sum_of table_sine start row.now }
{
    Table::sines().sum(true, start, row)
}

// The sum of the cosines, in the row's order, onto `start`.
pub fn cosine_sum(start: f32, row: &[f32]) -> f32
    ensures { result ≡ sum_of table_cosine start row.now }
{
    Table::cosines().sum(false, start, row)
}

// ---- one angle: onto -0 a sum is what is added, the sign of a zero included

// The sine by the table; 1 for a NaN or an infinity, 2 above 4 in size.
pub fn sin(a: f32) -> Result<f32, Refusal>
    ensures { said value result ≡ table_sin a }
{
    angle(a)?;
    Ok(sine_sum(-0.0, &[a]))
}

// The cosine by the table; 1 for a NaN or an infinity, 2 above 4 in size.
pub fn cos(a: f32) -> Result<f32, Refusal>
    ensures { said value result ≡ table_cos a }
{
    angle(a)?;
    Ok(cosine_sum(-0.0, &[a]))
}
