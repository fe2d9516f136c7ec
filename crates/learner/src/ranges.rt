// The ranges that more than one learner tests, or a learner and the low-pass or the blend: document
// 01's names for them, one line for each over the tests that they share.
ghost use Rattle.std.specs.Prelude.{◌≡◌};
ghost use Rattle.learner.specs.Ranges.{is_stored, is_course, is_count, has_room, takes_speed, takes_step, takes_acceleration, takes_course, is_alpha, is_parameter};

use float::{COUNT_STOP, PI, is_between, is_within};

// Stored numbers in size.
const STORED: f32 = 1.0e9;

// Arguments: speed and dt from 0, accelerations and courses in size.
const SPEED: f32 = 1.0e4;

const TIME_STEP: f32 = 0.5;

const ACCELERATION: f32 = 1.0e6;

const COURSE: f32 = 32.0;

// Parameters from 0.
const ALPHA: f32 = 1.0;

const PARAMETER: f32 = 1.0e4;

// A stored sum or output is sound.
pub fn is_stored(v: f32) -> bool
    ensures { result ≡ is_stored v }
{
    is_within(v, STORED)
}

// A stored course, heading or heading offset is sound.
pub fn is_course(v: f32) -> bool
    ensures { result ≡ is_course v }
{
    is_within(v, PI)
}

// A count is sound.
pub fn is_count(n: u32) -> bool
    ensures { result ≡ is_count n }
{
    n <= COUNT_STOP
}

// A sample count can be raised.
pub fn has_room(n: u32) -> bool
    ensures { result ≡ has_room n }
{
    n < COUNT_STOP
}

// A speed is in its range.
pub fn takes_speed(speed: f32) -> bool
    ensures { result ≡ takes_speed speed }
{
    is_between(0.0, speed, SPEED)
}

// A time step is in its range.
pub fn takes_step(dt: f32) -> bool
    ensures { result ≡ takes_step dt }
{
    is_between(0.0, dt, TIME_STEP)
}

// An acceleration, or a low-pass input or reset value, is in its range.
pub fn takes_acceleration(acceleration: f32) -> bool
    ensures { result ≡ takes_acceleration acceleration }
{
    is_within(acceleration, ACCELERATION)
}

// A course is in its range.
pub fn takes_course(course: f32) -> bool
    ensures { result ≡ takes_course course }
{
    is_within(course, COURSE)
}

// `alpha` is in its range.
pub fn is_alpha(alpha: f32) -> bool
    ensures { result ≡ is_alpha alpha }
{
    is_between(0.0, alpha, ALPHA)
}

// Another parameter is in its range.
pub fn is_parameter(parameter: f32) -> bool
    ensures { result ≡ is_parameter parameter }
{
    is_between(0.0, parameter, PARAMETER)
}
