// Sine and cosine of f32, by steps on whole numbers: no table, no loop, and no rounding, since every
// answer is a small whole number of units. The arc tangent is in a module of its own, and so are a sine
// and a cosine that are read from tables.
#![tactic(auto)]

ghost use Rattle.std.specs.Prelude.{◌≡◌, ◌+◌, ◌-◌, ◌*◌, ◌/◌, ◌<◌, ◌≤◌, T};
ghost use Rattle.std.specs.Float.Ieee.Scale.{finite};
ghost use Rattle.call.specs.Refusal.{number_in};
ghost use Rattle.call.specs.Said.{said, value};
ghost use Rattle.float.specs.Value.{f32, within};
ghost use Rattle.trig.specs.Steps.{Powered, Balanced, nest, sin⁺_divisors, sin⁻_divisors, cos⁺_divisors, cos⁻_divisors, raised_sine, raised_cosine};
ghost use Rattle.trig.specs.Angle.{units, n, four, negative, lowered, turned, sine, cosine, angle_refusal, sin, cos};
ghost use Rattle.trig.specs.Evaluation.{onto};

pub mod table; // table.rt: sine and cosine read from tables
pub mod tangent; // tangent.rt: the arc tangent

use call::given;
use call::refusal::Refusal;
use float::{is_finite, is_within};

// The largest angle.
const FOUR: f32 = 4.0;

// ---- a quotient with no division: the upper half of a product. A machine of 64 bits has it as one
// instruction, and one of 32 bits makes it of halves.

// The product of two halves.
fn wide(a: u64, b: u64) -> u64
    requires { (a ≤ 4294967295) × (b ≤ 4294967295) }
    ensures { (result ≡ a * b) × (result ≤ 18446744065119617025) }
{
    a * b
}

// The upper half of a product.
fn upper_half(x: u64, y: u64) -> u64
    ensures { result ≡ x * y / 18446744073709551616 }
{
    let x_low = x % 4294967296;
    let x_high = x / 4294967296;
    let y_low = y % 4294967296;
    let y_high = y / 4294967296;
    let a = wide(x_high, y_low) + wide(x_low, y_low) / 4294967296;
    let b = wide(x_low, y_high) + a % 4294967296;
    wide(x_high, y_high) + a / 4294967296 + b / 4294967296
}

// x / d. In units of 2^-64, 1 / d is taken too large by less than one of them, and x is too small to
// notice it.
fn quotient(x: u64, d: u64) -> u64
    requires { (2 ≤ d) × (x * d ≤ 18446744073709551615) }
    ensures { result ≡ x / d }
{
    upper_half(x, 18446744073709551615 / d + 1)
}

// ---- an angle in units of 2^-28, with the powers that the sine and the cosine share. Both are cut; z is
// the square in units of 2^-28, and v the fourth power over 128 in units of 2^-30.
#[derive(Clone, Copy)]
struct Powers {
    n: u32,
    z: u64,
    v: u32,
    ghost powered: { Powered n z v },
}

// ---- the nested sums. They end early where v is small: below 2^14 the two outermost steps cut away
// what the others add, and at 0 these add nothing either. v and p are passed one by one, as the powers are
// below.

// The outermost step of a nested sum, whose divisor may be small.
fn last(v: u32, p: u32, d: u64) -> u64
    requires { (v ≤ 2147483648) × (p ≤ 2147483648) × (24 ≤ d) × (d ≤ 1048576) }
    ensures { result ≡ onto v p d }
{
    1073741824 + quotient(v as u64 * p as u64 / 8388608, d)
}

// A step whose result goes into the next.
fn step(v: u32, p: u32, d: u64) -> u32
    requires { (v ≤ 2147483648) × (p ≤ 2147483648) × (512 ≤ d) × (d ≤ 1048576) }
    ensures { (result ≡ onto v p d) × (result ≤ 2147483648) }
{
    last(v, p, d) as u32
}

// The inner steps, or what the next one makes the same of.
fn inner(v: u32, p: u32, a: u64, b: u64, c: u64) -> u32
    requires { (v ≤ 2147483648) × (p ≤ 2147483648) × (11880 ≤ a) × (a ≤ 1048576) × (512 ≤ b) × (b ≤ 1048576) × (512 ≤ c) × (c ≤ 1048576) }
    ensures { (v * result / 8388608 ≡ v * onto v (onto v (onto v p c) b) a / 8388608) × (result ≤ 2147483648) }
{
    if v < 16384 {
        return 1073741824;
    }
    step(v, step(v, step(v, p, c), b), a)
}

// The two outermost steps, onto what the inner ones come to.
fn outer(v: u32, p: u32, d: u64, e: u64) -> u64
    requires { (v ≤ 2147483648) × (p ≤ 2147483648) × (512 ≤ d) × (d ≤ 1048576) × (24 ≤ e) × (e ≤ 1048576) }
    ensures { result ≡ onto v (onto v p d) e }
{
    if v == 0 {
        return 1073741824;
    }
    last(v, step(v, p, d), e)
}

// Each of the four sums is its divisors alone: `inner` and `outer` are what they share, and a row of
// divisors would want a contract for its own bounds.

// The terms of the sine over the angle that are added, in units of 2^-30.
fn sin_up(v: u32) -> u32
    requires { v ≤ 2147483648 }
    ensures { (result ≡ nest v sin⁺_divisors) × (result ≤ 4294967295) }
{
    outer(v, inner(v, 1073741824, 17160, 57120, 143640), 3024, 120) as u32
}

// Those that are subtracted, over the square and times 6.
fn sin_down(v: u32) -> u32
    requires { v ≤ 2147483648 }
    ensures { (result ≡ nest v sin⁻_divisors) × (result ≤ 1500000000) }
{
    outer(v, inner(v, 1073741824, 32760, 93024, 212520), 7920, 840) as u32
}

// The terms of the cosine that are added, in units of 2^-30.
fn cos_up(v: u32) -> u64
    requires { v ≤ 2147483648 }
    ensures { (result ≡ nest v cos⁺_divisors) × (result ≤ 17179869184) }
{
    let p = inner(v, step(v, 1073741824, 255024), 11880, 43680, 116280);
    outer(v, p, 1680, 24)
}

// Those that are subtracted, over the square and times 2.
fn cos_down(v: u32) -> u32
    requires { v ≤ 2147483648 }
    ensures { (result ≡ nest v cos⁻_divisors) × (result ≤ 1900000000) }
{
    outer(v, inner(v, 1073741824, 24024, 73440, 175560), 5040, 360) as u32
}

// ---- the results

// A result in units of 2^-24, at most 1 in size, raised by 2 so that it has no sign.
#[derive(Clone, Copy)]
struct Raised {
    t: u32,
    ghost at_most_one: { (16777216 ≤ t) × (t ≤ 50331648) },
}

// The distance of two numbers.
fn apart(a: u64, b: u64) -> u64
    ensures { result ≡ a - b + (b - a) }
{
    if a < b { b - a } else { a - b }
}

impl Raised {
    // f times the difference of up and down, cut to whole units.
    fn of(f: u64, up: u64, down: u64, unit: u64) -> Raised
        requires { (0 < unit) × (f * up ≤ 6917529027641081856) × (f * down ≤ 6917529027641081856) × Balanced (f * (up - down) / unit) (f * (down - up) / unit) }
        ensures { result.t ≡ 33554432 + f * (up - down) / unit - f * (down - up) / unit }
    {
        let size = (f * apart(up, down) / unit) as u32;
        Raised {
            t: if up < down {
                33554432 - size
            } else {
                33554432 + size
            },
        }
    }

    // As an f32: the whole number of units, and its exponent lowered by 24. Where nothing is left it
    // is +0.
    fn lowered(self) -> f32
        ensures { result ≡ lowered self.t }
    {
        if self.t == 33554432 {
            return 0.0;
        }
        let whole = (self.t as i32 - 33554432) as f32;
        f32::from_bits(whole.to_bits() - 201326592)
    }
}

// The sine, from its angle's powers.
fn raised_sine(n: u32, z: u64, v: u32) -> Raised
    requires { Powered n z v }
    ensures { result.t ≡ raised_sine n }
{
    let down = quotient(z * sin_down(v) as u64 / 536870912, 3) as u32;
    Raised::of(n as u64, sin_up(v) as u64, down as u64, 17179869184)
}

// The cosine, from its angle's powers.
fn raised_cosine(n: u32, z: u64, v: u32) -> Raised
    requires { Powered n z v }
    ensures { result.t ≡ raised_cosine n }
{
    Raised::of(1, cos_up(v), z * cos_down(v) as u64 / 536870912, 64)
}

impl Powers {
    // Of the angle n.
    fn of(n: u32) -> Powers
        requires { n ≤ 1073741824 }
        ensures { result.n ≡ n }
    {
        let z = n as u64 * n as u64 / 268435456;
        let v = z * (z / 2) / 4294967296;
        Powers { n, z, v: v as u32 }
    }

    // Of an angle of at most 4 in size.
    fn at(a: f32) -> Powers
        requires { T (within a four) }
        ensures { result.n ≡ n a }
    {
        Powers::of(whole(a))
    }

    // Inlined, so that the steps take the powers one by one in registers: as a whole they go through
    // memory, and cost a sine 6 instructions and 16 bytes of stack on x86-64.
    #[inline(always)]
    fn sine(self) -> Raised
        ensures { result.t ≡ raised_sine self.n }
    {
        raised_sine(self.n, self.z, self.v)
    }

    #[inline(always)]
    fn cosine(self) -> Raised
        ensures { result.t ≡ raised_cosine self.n }
    {
        raised_cosine(self.n, self.z, self.v)
    }
}

// ---- from and to f32

// v's size in units of 2^-places, cut toward zero.
fn units(places: u32, v: f32) -> u64
    requires { (28 ≤ places) × (places ≤ 47) × T (within v (f32 0x42000000)) }
    ensures { result ≡ units places v }
{
    let size = v.to_bits() % 2147483648;
    let digits = (size % 8388608 + 8388608) as u64;
    let exponent = size / 8388608 + places;
    if exponent < 126 {
        return 0;
    }
    digits * 4294967296 >> (182 - exponent)
}

// Whether v has the sign of what is below zero; -0 has it.
fn is_negative(v: f32) -> bool
    requires { T (finite v) }
    ensures { result ≡ negative v }
{
    v.is_sign_negative()
}

// v, with the other sign where `turn` says so.
fn turned(turn: bool, v: f32) -> f32
    ensures { result ≡ turned turn v }
{
    if turn { -v } else { v }
}

// ---- the sine and the cosine

// The size of an angle of at most 4, in units of 2^-28, cut toward zero.
fn whole(a: f32) -> u32
    requires { T (within a four) }
    ensures { (result ≡ n a) × (result ≤ 1073741824) }
{
    units(28, a) as u32
}

// The total core: a NaN where the angle is none of at most 4 in size.
pub fn sine(a: f32) -> f32
    ensures { result ≡ sine a }
{
    if is_within(a, FOUR) {
        let p = Powers::at(a);
        turned(is_negative(a), p.sine().lowered())
    } else {
        f32::NAN
    }
}

// The total core: a NaN where the angle is none of at most 4 in size.
pub fn cosine(a: f32) -> f32
    ensures { result ≡ cosine a }
{
    if is_within(a, FOUR) {
        let p = Powers::at(a);
        p.cosine().lowered()
    } else {
        f32::NAN
    }
}

// Both of one angle, over the same powers.
#[derive(Clone, Copy)]
pub struct Both {
    pub sine: f32,
    pub cosine: f32,
}

pub fn sine_and_cosine(a: f32) -> Both
    ensures { (result.sine ≡ sine a) × (result.cosine ≡ cosine a) }
{
    if is_within(a, FOUR) {
        let p = Powers::at(a);
        Both {
            sine: turned(is_negative(a), p.sine().lowered()),
            cosine: p.cosine().lowered(),
        }
    } else {
        Both {
            sine: f32::NAN,
            cosine: f32::NAN,
        }
    }
}

// Whether it is an angle in the domain.
fn angle(a: f32) -> Result<(), Refusal>
    ensures { number_in result ≡ angle_refusal a }
{
    given(is_finite(a), is_within(a, FOUR), true).passed()
}

// The sine; 1 for a NaN or an infinity, 2 above 4 in size.
pub fn sin(a: f32) -> Result<f32, Refusal>
    ensures { said value result ≡ sin a }
{
    angle(a)?;
    Ok(sine(a))
}

// The cosine; 1 for a NaN or an infinity, 2 above 4 in size.
pub fn cos(a: f32) -> Result<f32, Refusal>
    ensures { said value result ≡ cos a }
{
    angle(a)?;
    Ok(cosine(a))
}
