// The floor that every component stands on: tests on f32 values, counts that stop and counts as
// floats, a float's bits and back, and, in modules of their own, the square root and the bounded
// wrap.
#![tactic(auto)]

ghost use Rattle.std.specs.Prelude.{◌≡◌};
ghost use Rattle.std.specs.Float.{binary32};
ghost use Rattle.std.specs.Float.Ieee.{of_bits, to_bits};
ghost use Rattle.std.specs.Float.Ieee.Scale.{finite};
ghost use Rattle.float.specs.Value.{within, between};
ghost use Rattle.float.specs.Count.{raised, count_float};

pub mod root; // root.rt: the square root as IEEE 754 rounds it
pub mod wrap; // wrap.rt: the bounded wrap of an angle

// The nearest f32 to π.
pub const PI: f32 = 3.1415927;

// Where gate tallies stop, and where other counts do.
pub const TALLY_STOP: u32 = 4294967295;

pub const COUNT_STOP: u32 = 16777216;

// Neither NaN nor infinite.
#[tactic(auto, using(crate::specs::Order::finite_is))]
pub fn is_finite(v: f32) -> bool
    ensures { result ≡ finite v }
{
    v.is_finite()
}

// At most `limit` in size.
pub fn is_within(v: f32, limit: f32) -> bool
    ensures { result ≡ within v limit }
{
    (-limit <= v) & (v <= limit)
}

// From `low` to `high`, ends included.
pub fn is_between(low: f32, v: f32, high: f32) -> bool
    ensures { result ≡ between low v high }
{
    (low <= v) & (v <= high)
}

// One more, but a count at its stop stands still.
pub fn raise(stop: u32, n: u32) -> u32
    ensures { result ≡ raised stop n }
{
    if n < stop { n + 1 } else { n }
}

// A count as a float, exact up to 16,777,216.
pub fn count_float(n: u32) -> f32
    ensures { result ≡ count_float n }
{
    n.min(COUNT_STOP) as f32
}

// The float that a pattern stands for; each NaN's pattern gives a NaN.
pub fn float_of(bits: u32) -> f32
    ensures { result ≡ of_bits binary32 bits }
{
    if 0x7F80_0000 < bits % 0x8000_0000 {
        return f32::NAN;
    }
    f32::from_bits(bits)
}

// The pattern of a float; 0x7FC0_0000 for a NaN.
pub fn bits_of(x: f32) -> u32
    ensures { result ≡ to_bits binary32 x }
{
    if x.is_nan() {
        return 0x7FC0_0000;
    }
    x.to_bits()
}
