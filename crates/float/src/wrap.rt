// The bounded wrap: the Rust's `wrap_angle`, which would not end on an infinity or on a very large
// angle, for angles of size at most 64; and the difference of two angles.
ghost use Rattle.std.specs.Prelude.{◌≡◌, T};
ghost use Rattle.call.specs.Said.{said, value};
ghost use Rattle.float.specs.Wrap.{inside, lowered, lifted, wrapped, wrap_angle, angle_diff};

use crate::{PI, is_finite, is_within};
use call::given;
use call::refusal::Refusal;

pub const TURN: f32 = 2.0 * PI;

const LIMIT: f32 = 64.0;

// While above PI, a turn less. `lift` is apart: with the test as a closure, what the loop needs of it
// would be said at greater length than the loop.
fn lower(a: f32) -> f32
    requires { T (inside a) }
    ensures { result ≡ lowered a }
{
    let mut x = a;
    while x > PI {
        x = x - TURN;
    }
    x
}

// While below -PI, a turn more.
fn lift(a: f32) -> f32
    requires { T (inside a) }
    ensures { result ≡ lifted a }
{
    let mut x = a;
    while x < -PI {
        x = x + TURN;
    }
    x
}

// The total core: the angle folded into -PI to PI, or as it is beyond 64 in size.
#[tactic(auto, using(crate::specs::WrapLaws::lowered_inside, crate::specs::WrapLaws::wrapped_inside, crate::specs::WrapLaws::wrapped_outside))]
pub fn wrapped(a: f32) -> f32
    ensures { result ≡ wrapped a }
{
    if is_within(a, LIMIT) {
        lift(lower(a))
    } else {
        a
    }
}

// The angle folded into -PI to PI; 1 for a NaN or an infinity, 2 above 64 in size.
pub fn wrap_angle(a: f32) -> Result<f32, Refusal>
    ensures { said value result ≡ wrap_angle a }
{
    given(is_finite(a), is_within(a, LIMIT), true).passed()?;
    Ok(wrapped(a))
}

// The difference of two angles, folded once.
pub fn angle_diff(a: f32, b: f32) -> f32
    ensures { result ≡ angle_diff a b }
{
    let diff = a - b;
    if diff > PI {
        diff - TURN
    } else if diff < -PI {
        diff + TURN
    } else {
        diff
    }
}
