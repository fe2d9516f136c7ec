// The ring of the last 20 headings, by value, and the test that they are stable.
ghost use Rattle.std.specs.Prelude.{◌≡◌, length};
ghost use Rattle.yawrate.specs.Ring.{is_near, ring_sound, near_to, slots, put, next_slot, stable};

use float::wrap::angle_diff;
use learner::ranges::is_course;
use trig::table::{cosine_sum, sine_sum};
use trig::tangent::arc_tangent;

// Every heading is sound.
#[tactic(auto, using(crate::specs::RingLaws::all_start, crate::specs::RingLaws::all_next))]
pub fn ring_sound(h: [f32; 20]) -> bool
    ensures { result ≡ ring_sound h }
{
    let mut ok = true;
    for heading in &h {
        ok = ok & is_course(*heading);
    }
    ok
}

// The headings that count.
fn slots(count: u32) -> usize
    ensures { result ≡ slots count }
{
    count.min(20) as usize
}

// A heading is within the tolerance of the mean.
fn is_near(mean: f32, tolerance: f32, heading: f32) -> bool
    ensures { result ≡ is_near mean tolerance heading }
{
    let diff = angle_diff(heading, mean);
    !((diff > tolerance) | (diff < -tolerance))
}

// Each of some headings is. `ring_sound` is apart: with the test as a closure, what a caller needs of it
// would be said at greater length than the loop.
#[tactic(auto, using(crate::specs::RingLaws::all_start, crate::specs::RingLaws::all_next))]
fn are_near(mean: f32, tolerance: f32, headings: &[f32]) -> bool
    ensures { result ≡ near_to mean tolerance headings.now (length headings.now) }
{
    let mut ok = true;
    for heading in headings {
        ok = ok & is_near(mean, tolerance, *heading);
    }
    ok
}

// Every heading that counts is within the tolerance of their circular mean, whose sines and cosines
// are the tables'.
pub fn stable(h: [f32; 20], count: u32, tolerance: f32) -> bool
    ensures { result ≡ stable h count tolerance }
{
    let headings = &h[..slots(count)];
    let mean = arc_tangent(sine_sum(0.0, headings), cosine_sum(0.0, headings));
    are_near(mean, tolerance, headings)
}

// The ring with a heading in a slot.
#[tactic(auto, unfolding(crate::specs::Ring::put))]
pub fn put(h: [f32; 20], idx: usize, heading: f32) -> [f32; 20]
    ensures { result ≡ put idx heading h }
{
    let mut next = h;
    if idx < 20 {
        next[idx] = heading;
    }
    next
}

// The slot after this one; the first after the last.
pub fn next_slot(idx: usize) -> usize
    ensures { result ≡ next_slot idx }
{
    if idx < 19 { idx + 1 } else { 0 }
}
