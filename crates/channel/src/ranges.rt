// Document 01's ranges for the filter: sizes and ends, one line for each, and the two tests that
// are more than one comparison of a value with them.
ghost use Rattle.std.specs.Prelude.{◌≡◌};
ghost use Rattle.channel.specs.Ranges.{is_measurement_noise, takes_turn};

use float::{is_between, is_within};

// Sound: positions and last GPS, velocities, yaw, stored moving yaw and biases in size; variances
// and NIS sum from 0.
pub const POSITION: f32 = 1.0e7;

pub const VELOCITY: f32 = 1.0e4;

pub const MOVING_YAW: f32 = 32.0;

pub const BIAS: f32 = 1.0e3;

pub const VARIANCE: f32 = 1.0e9;

pub const NIS_SUM: f32 = 1.0e9;

// Configuration: process noise from 0, measurement noise, and the least speed from 0.
pub const PROCESS_NOISE: f32 = 1.0e6;

const LEAST_NOISE: f32 = 1.0e-6;

const MEASUREMENT_NOISE: f32 = 1.0e6;

pub const MIN_SPEED: f32 = 1.0e4;

// Arguments: position, velocity and yaw in size, speed from 0, the factor of `r_yaw`, bias and
// acceleration in size, wz in size, dt from 0, and wz*dt in size.
pub const GIVEN_POSITION: f32 = 1.0e7;

pub const GIVEN_VELOCITY: f32 = 1.0e4;

pub const GIVEN_SPEED: f32 = 1.0e4;

pub const GIVEN_YAW: f32 = 32.0;

pub const LEAST_FACTOR: f32 = 0.001;

pub const FACTOR: f32 = 1.0e6;

pub const ACCELERATION: f32 = 1.0e3;

const TURN_RATE: f32 = 1.0e3;

const TIME_STEP: f32 = 0.5;

const TURN: f32 = 0.5;

// `r_pos`, `r_vel` or `r_yaw` is in its range.
pub fn is_measurement_noise(v: f32) -> bool
    ensures { result ≡ is_measurement_noise v }
{
    is_between(LEAST_NOISE, v, MEASUREMENT_NOISE)
}

// wz and dt are in their ranges.
pub fn takes_turn(wz: f32, dt: f32) -> bool
    ensures { result ≡ takes_turn wz dt }
{
    is_within(wz, TURN_RATE) & is_between(0.0, dt, TIME_STEP) & is_within(wz * dt, TURN)
}
