// The arc tangent of f32: a search over the sine and the cosine of its answers, on whole numbers.
ghost use Rattle.std.specs.Prelude.{◌≡◌, true, false, cond, ◌+◌, ◌-◌, ◌<◌, ◌≤◌, T};
ghost use Rattle.call.specs.Refusal.{number_in};
ghost use Rattle.call.specs.Said.{said, value};
ghost use Rattle.trig.specs.Tangent.{short, past, inside, sought, places, eighth, bearing, usable, radians, level, direction, arc_tangent, pair_refusal, atan2};
ghost use Rattle.trig.specs.Guess.{part, fall, ratio, bend, slant};

use crate::{Powers, is_negative, turned, units};
use call::given;
use call::refusal::Refusal;
use float::{PI, is_finite, is_within};

// 2^-22, the unit of an arc tangent.
const FINE: f32 = 0.00000023841858;

// The largest size of an argument of the arc tangent, and the least but zero, 2^-24.
const LARGEST: f32 = 32.0;

const LEAST: f32 = 0.000000059604645;

// ---- the arc tangent's search. y and x are sizes in one unit, and `left` says that x is below zero;
// they are passed one by one, as the powers are

// What one angle is: clearly too small, clearly too large, or neither. Each end of a bracket moves by
// a flag of its own, without a branch.
#[derive(Clone, Copy)]
struct Verdict {
    short: bool,
    past: bool,
}

// a where `first` says so, else b.
fn pick(first: bool, a: u64, b: u64) -> u64
    ensures { result ≡ cond first a b }
{
    if first { a } else { b }
}

// The sine's sign is turned where x is below zero.
fn side(left: bool, t: u64) -> u64
    requires { t ≤ 50331648 }
    ensures { (result ≡ cond left (67108864 - t) t) × (result ≤ 67108864) }
{
    if left { 67108864 - t } else { t }
}

// One sine and one cosine, at the angle k in units of 2^-22.
#[tactic(auto, unfolding(crate::specs::Tangent::short, crate::specs::Tangent::past))]
fn probe(left: bool, y: u64, x: u64, k: u64) -> Verdict
    requires { (y ≤ 68719476736) × (x ≤ 68719476736) × (k ≤ 13176795) }
    ensures { (result.short ≡ short left y x k) × (result.past ≡ past left y x k) }
{
    let p = Powers::of((64 * k) as u32);
    let c = p.cosine().t as u64;
    let s = side(left, p.sine().t as u64);
    let ahead = y * c + x * 33554432;
    let behind = x * s + y * 33554432;
    let slack = 10 * (x + y);
    Verdict {
        short: behind + slack < ahead,
        past: ahead + slack < behind,
    }
}

// The guess where it lies between the ends, else the middle.
#[tactic(auto, unfolding(crate::specs::Tangent::inside))]
fn inside(low: u64, high: u64, guess: u64) -> u64
    requires high_bound { high ≤ 13176795 }
    requires low_le_high { low ≤ high }
    ensures { result ≡ inside low high guess }
{
    pick((low < guess) & (guess < high), guess, (low + high) / 2)
}

// The bracket is narrowed as long as something lies between its ends; an angle that is close
// enough becomes both.
fn sought(left: bool, y: u64, x: u64, low: u64, high: u64, guess: u64) -> u64
    requires { (y ≤ 68719476736) × (x ≤ 68719476736) × (low < high) × (high ≤ 13176795) × (high ≤ low + 4194304) }
    ensures { result ≡ sought left y x low high guess }
{
    let mut lo = low;
    let mut hi = high;
    while lo + 1 < hi {
        let k = inside(lo, hi, guess);
        let found = probe(left, y, x, k);
        lo = pick(found.past, lo, k);
        hi = pick(found.short, hi, k);
    }
    lo
}

// ---- the arc tangent's guess

// A part of q, in units of 2^-26.
fn part(w: u64, q: u64) -> u64
    requires { (w ≤ 67108864) × (q ≤ 67108864) }
    ensures { (result ≡ part w q) × (result ≤ q) }
{
    w * q / 67108864
}

// One step of a sum with signs by turns.
fn fall(c: u64, w: u64, q: u64) -> u64
    requires { (c ≤ 67108864) × (w ≤ 67108864) × (q ≤ c) }
    ensures { (result ≡ fall c w q) × (result ≤ c) }
{
    c - part(w, q)
}

// small / large in units of 2^-26.
fn ratio(small: u64, large: u64) -> u64
    requires { (small ≤ large) × (large ≤ 68719476736) }
    ensures { (result ≡ ratio small large) × (result ≤ 67108864) }
{
    if large == 0 {
        return 0;
    }
    small * 67108864 / large
}

// About the arc tangent of t over t, from its square, in units of 2^-26.
#[tactic(auto, unfolding(crate::specs::Guess::bend))]
fn bend(w: u64) -> u64
    requires { w ≤ 67108864 }
    ensures { (result ≡ bend w) × (result ≤ 67108819) }
{
    let p = fall(3752049, w, fall(1467082, w, 272063));
    let q = fall(13385894, w, fall(9333859, w, fall(6470640, w, p)));
    fall(67108819, w, fall(22367288, w, q))
}

// About the arc tangent of small / large, in units of 2^-22.
fn slant(small: u64, large: u64) -> u64
    requires { (small ≤ large) × (large ≤ 68719476736) }
    ensures { (result ≡ slant small large) × (result ≤ 4194304) }
{
    let t = ratio(small, large);
    let k = part(t, bend(part(t, t))) / 16;
    k.max(1)
}

// ---- the arc tangent's eighths of the half circle, in two functions, since what is asked of the pair is
// the other way round in each

// y is at most x: the eighths beside the axis of x.
#[tactic(auto, unfolding(crate::specs::Tangent::eighth))]
fn flat(left: bool, y: u64, x: u64) -> u64
    requires { (y ≤ x) × (x ≤ 68719476736) }
    ensures { result ≡ eighth true left y x }
{
    let g = slant(y, x);
    if left {
        sought(true, y, x, 9882587, 13176795, 13176795 - g)
    } else {
        sought(false, y, x, 0, 3294207, g)
    }
}

// x is at most y: the eighths beside the axis of y.
#[tactic(auto, unfolding(crate::specs::Tangent::eighth))]
fn steep(left: bool, y: u64, x: u64) -> u64
    requires { (x ≤ y) × (y ≤ 68719476736) }
    ensures { result ≡ eighth false left y x }
{
    let g = slant(x, y);
    if left {
        sought(true, y, x, 6588389, 9882604, 6588397 + g)
    } else {
        sought(false, y, x, 3294190, 6588405, 6588397 - g)
    }
}

// By how many places y and x are moved down, so that neither is above 2^36.
#[tactic(auto, unfolding(crate::specs::Tangent::places))]
fn places(y: u64, x: u64) -> u64
    requires { (y ≤ 4503599627370496) × (x ≤ 4503599627370496) }
    ensures { (result ≡ places y x) × (result ≤ 16) }
{
    let m = x + y;
    if 17592186044416 <= m {
        16
    } else if 68719476736 <= m {
        8
    } else {
        0
    }
}

// The angle of (x, y) in units of 2^-22.
fn bearing(left: bool, y: u64, x: u64) -> u64
    requires { (y ≤ 4503599627370496) × (x ≤ 4503599627370496) }
    ensures { (result ≡ bearing left y x) × (result ≤ 13176795) }
{
    let d = places(y, x);
    if y <= x {
        flat(left, y >> d, x >> d)
    } else {
        steep(left, y >> d, x >> d)
    }
}

// ---- the arc tangent

// 0, or of size 2^-24 to 32.
#[tactic(auto, unfolding(crate::specs::Tangent::usable))]
fn is_usable(v: f32) -> bool
    ensures { result ≡ usable v }
{
    is_within(v, LARGEST) & ((v == 0.0) | (LEAST <= v) | (v <= -LEAST))
}

// An angle of k units as an f32.
#[tactic(auto, unfolding(crate::specs::Tangent::radians))]
fn radians(k: u64) -> f32
    requires { k ≤ 13176795 }
    ensures { result ≡ radians k }
{
    k as f32 * FINE
}

// The answer where y is zero, of either sign.
fn level(x: f32) -> f32
    ensures { result ≡ level x }
{
    if x < 0.0 { PI } else { 0.0 }
}

// The answer where y is not zero.
fn direction(y: f32, x: f32) -> f32
    requires { T (usable y) × T (usable x) }
    ensures { result ≡ direction y x }
{
    let k = bearing(is_negative(x), units(47, y), units(47, x));
    turned(is_negative(y), radians(k))
}

// The total core: a NaN where y or x is out of the domain.
pub fn arc_tangent(y: f32, x: f32) -> f32
    ensures { result ≡ arc_tangent y x }
{
    if is_usable(y) & is_usable(x) {
        if y == 0.0 { level(x) } else { direction(y, x) }
    } else {
        f32::NAN
    }
}

// Whether it is a pair in the domain.
fn pair(y: f32, x: f32) -> Result<(), Refusal>
    ensures { number_in result ≡ pair_refusal y x }
{
    let finite = is_finite(y) & is_finite(x);
    given(finite, is_usable(y) & is_usable(x), true).passed()
}

// The angle of (x, y); 1 for a NaN or an infinity, 2 where one is neither 0 nor of size 2^-24 to 32.
pub fn atan2(y: f32, x: f32) -> Result<f32, Refusal>
    ensures { said value result ≡ atan2 y x }
{
    pair(y, x)?;
    Ok(arc_tangent(y, x))
}
