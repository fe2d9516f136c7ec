// The square root as IEEE 754 rounds it, on whole numbers. The digits of x, scaled to an even
// exponent, make a whole number n of 47 or 48 digits; the root's 24 digits are the whole number
// nearest to the root of n. A guess is tested, and where it fails the digits are searched for.
ghost use Rattle.std.specs.Prelude.{◌≡◌, true, ◌+◌, ◌^◌, ◌<◌, ◌≤◌};
ghost use Rattle.call.specs.Said.{said, value};
ghost use Rattle.float.specs.Root.{root, square_root};
ghost use Rattle.float.specs.RootWhole.{near, NearRoot, Scaled};

use crate::is_finite;
use call::given;
use call::refusal::Refusal;

// The upper half of the product.
fn high(a: u32, b: u32) -> u32
    ensures { (result ≤ a) × (result ≤ b) }
{
    (a as u64 * b as u64 / 4294967296) as u32
}

// c - a * b, all of them parts of one, in units of 2^-32.
fn less(c: u32, a: u32, b: u32) -> u32
    requires { b ≤ c }
    ensures { result ≤ c }
{
    c - high(a, b)
}

// About 1 over the root of 1 + t, both in units of 2^-32: within 8 parts in 100,000. It is
// 0.99993 - t * (0.49601 - t * (0.33884 - t * (0.18641 - t * 0.05082))).
fn inverse_root(t: u32) -> u32 {
    let a = less(800620000, t, 218250000);
    let b = less(1455290000, t, a);
    let c = less(2130340000, t, b);
    less(4294650000, t, c)
}

// The root of m, or of 2 * m where `odd` is 1, in 24 digits: the nearest or one less. Only its range
// is promised: whoever uses it tests it.
fn guess(m: u64, odd: u64) -> u64
    requires { (8388608 ≤ m) × (m < 16777216) × (odd ≤ 1) }
    ensures { result < 16777216 }
{
    // in units of 2^-30: m as a number from 1 to 2, about its root, and about one
    let x = (m * 128) as u32;
    let y = inverse_root(((m - 8388608) * 512) as u32);
    let root = high(x, y);
    let one = high(root, y);
    // times the root of 2 where `odd` is 1, then a step of Newton's: root * (3 - one) / 2
    let scaled = high(root, (2147483648 + 889516852 * odd) as u32);
    (high(scaled, 3221225472 - one) / 32 % 16777216) as u64
}

// r, or r + 1 where the root of n is nearer to that.
fn rounded(n: u64, r: u64) -> u64
    requires { r < 16777216 }
    ensures { result ≤ 16777216 }
{
    if r * r + r < n { r + 1 } else { r }
}

// Whether r is the whole number nearest to the root of n.
fn is_near(n: u64, r: u64) -> bool
    requires { (n ≤ 2 ^ 48) × (r ≤ 16777216) }
    ensures { result ≡ near n r }
{
    (8388608 <= r) & (r < 16777216) & (r * r < n + r) & (n <= r * r + r)
}

// The whole number nearest to the root of n, by halving.
fn search(n: u64) -> u64
    requires { (2 ^ 46 ≤ n) × (n + 2 ^ 24 ≤ 2 ^ 48) }
    ensures { NearRoot n result }
{
    let mut low: u64 = 8388608;
    let mut high: u64 = 16777216;
    while high - low > 1 {
        let mid = (low + high) / 2;
        if mid * mid < n + mid {
            low = mid;
        } else {
            high = mid;
        }
    }
    low
}

// The whole number nearest to the root of n: the guess, where it is.
fn nearest_root(n: u64, first: u64) -> u64
    requires { (2 ^ 46 ≤ n) × (n + 2 ^ 24 ≤ 2 ^ 48) × (first ≤ 16777216) }
    ensures { NearRoot n result }
{
    if is_near(n, first) { first } else { search(n) }
}

// The pattern of the root of the f32 whose pattern is b, above zero and finite.
fn root_bits(b: u64) -> u64
    requires { (0 < b) × (b < 2139095040) }
    ensures { Scaled b result }
{
    let e = b / 8388608;
    let mut m = b % 8388608;
    let mut k: u64 = 24;
    if e > 0 {
        m = m + 8388608;
        k = e + 23;
    }
    while m < 8388608 {
        m = m * 2;
        k = k - 1;
    }
    let n = m * (8388608 * (1 + k % 2));
    let r = nearest_root(n, rounded(n, guess(m, k % 2)));
    (k / 2 + 51) * 8388608 + r
}

// The total core: the f32 nearest to the exact root; a zero and a positive infinity are their own
// roots, and what is below zero has a NaN.
pub fn root(x: f32) -> f32
    ensures { result ≡ root x }
{
    if x > 0.0 {
        if is_finite(x) {
            f32::from_bits(root_bits(x.to_bits() as u64) as u32)
        } else {
            x
        }
    } else if x == 0.0 {
        x
    } else {
        f32::NAN
    }
}

// The f32 nearest to the exact root; 1 for a NaN or an infinity, 2 below zero.
pub fn square_root(x: f32) -> Result<f32, Refusal>
    ensures { said value result ≡ square_root x }
{
    given(is_finite(x), 0.0 <= x, true).passed()?;
    Ok(root(x))
}
