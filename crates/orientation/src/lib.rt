// The orientation corrector of `fusion.rs`, which learns pitch and roll corrections and the cruise
// bias from GPS accelerations. The learner is held by value and handed back with each answer.
#![tactic(auto)]

ghost use Rattle.std.specs.Prelude.{◌≡◌};
ghost use Rattle.float.specs.Value.{◌⊖◌};
ghost use Rattle.call.specs.Said.{said, told, done_reply, value};
ghost use Rattle.orientation.specs.Orientation.{update, reset, get_cruise_bias, get_pitch_correction_deg, get_roll_correction_deg, get_pitch_confidence, get_roll_confidence, sound, parameters, clamped, exceeds, corrected, fresh, made, halted, pitched, cruised, rolled, updated, is_sample, takes_sample, on_orientation};

use call::refusal::Refusal;
use call::{Outcome, State, bare, given};
use float::{COUNT_STOP, count_float, is_finite, raise};
use learner::confidence;
use learner::ranges::{
    has_room, is_alpha, is_count, is_parameter, is_stored, takes_acceleration, takes_speed,
    takes_step,
};

const G: f32 = 9.80665;

// A radian in degrees.
const DEGREES: f32 = 57.29577951308232;

#[derive(Clone, Copy)]
pub struct OrientationCorrector {
    pub pitch_correction: f32,
    pub roll_correction: f32,
    pub pitch_confidence: f32,
    pub roll_confidence: f32,
    pub cruise_bias: f32,
    pub cruise_bias_sum: f32,
    pub cruise_bias_count: u32,
    pub cruise_time: f32,
    pub alpha: f32,
    pub min_speed: f32,
    pub min_accel: f32,
    pub max_correction: f32,
    pub update_count: u32,
}

// Four accelerations, a speed and a time step.
#[derive(Clone, Copy)]
struct Sample {
    lon_imu: f32,
    lon_gps: f32,
    lat_imu: f32,
    lat_gps: f32,
    speed: f32,
    dt: f32,
}

impl Sample {
    fn is_finite(self) -> bool
        ensures { result ≡ is_sample self.lon_imu self.lon_gps self.lat_imu self.lat_gps self.speed self.dt }
    {
        ((is_finite(self.lon_imu) & is_finite(self.lon_gps))
            & (is_finite(self.lat_imu) & is_finite(self.lat_gps)))
            & (is_finite(self.speed) & is_finite(self.dt))
    }

    fn is_in_range(self) -> bool
        ensures { result ≡ takes_sample self.lon_imu self.lon_gps self.lat_imu self.lat_gps self.speed self.dt }
    {
        ((takes_acceleration(self.lon_imu) & takes_acceleration(self.lon_gps))
            & (takes_acceleration(self.lat_imu) & takes_acceleration(self.lat_gps)))
            & (takes_speed(self.speed) & takes_step(self.dt))
    }
}

impl State for OrientationCorrector {
    ghost sound = { sound };

    fn is_sound(self) -> bool {
        ((is_stored(self.pitch_correction) & is_stored(self.roll_correction))
            & (is_stored(self.pitch_confidence) & is_stored(self.roll_confidence)))
            & (((is_stored(self.cruise_bias) & is_stored(self.cruise_bias_sum))
                & (is_count(self.cruise_bias_count) & is_stored(self.cruise_time)))
                & is_count(self.update_count))
    }
}

// Every parameter is in its range.
fn parameters(s: OrientationCorrector) -> bool
    ensures { result ≡ parameters s }
{
    (is_alpha(s.alpha) & is_parameter(s.min_speed))
        & (is_parameter(s.min_accel) & is_parameter(s.max_correction))
}

// Below `low` it is `low`, and then above `high` it is `high`: any limits are taken, where the library's
// `clamp` asks for `low` up to `high`, and a parameter may be a NaN.
fn clamped(low: f32, high: f32, v: f32) -> f32
    ensures { result ≡ clamped low high v }
{
    let v = if v < low { low } else { v };
    if v > high { high } else { v }
}

// Above the limit in size.
fn exceeds(v: f32, limit: f32) -> bool
    ensures { result ≡ exceeds v limit }
{
    (v > limit) | (v < -limit)
}

// A fresh learner.
fn fresh(alpha: f32, min_speed: f32, min_accel: f32, max_correction: f32) -> OrientationCorrector
    ensures { result ≡ fresh alpha min_speed min_accel max_correction }
{
    OrientationCorrector {
        pitch_correction: 0.0,
        roll_correction: 0.0,
        pitch_confidence: 0.0,
        roll_confidence: 0.0,
        cruise_bias: 0.0,
        cruise_bias_sum: 0.0,
        cruise_bias_count: 0,
        cruise_time: 0.0,
        alpha,
        min_speed,
        min_accel,
        max_correction,
        update_count: 0,
    }
}

// A correction after an error, within its limit.
fn corrected(alpha: f32, max_correction: f32, old: f32, error: f32) -> f32
    ensures { result ≡ corrected alpha max_correction old error }
{
    let innovation = error / G;
    clamped(
        -max_correction,
        max_correction,
        (1.0 - alpha) * old + alpha * innovation,
    )
}

// The cruise sums and count become 0.
fn halted(s: OrientationCorrector) -> OrientationCorrector
    ensures { result ≡ halted s }
{
    OrientationCorrector {
        cruise_bias_sum: 0.0,
        cruise_bias_count: 0,
        cruise_time: 0.0,
        ..s
    }
}

// The learner after a pitch update.
fn pitched(s: OrientationCorrector, lon_error: f32) -> OrientationCorrector
    ensures { result ≡ pitched lon_error s }
{
    let update_count = raise(COUNT_STOP, s.update_count);
    halted(OrientationCorrector {
        pitch_correction: corrected(s.alpha, s.max_correction, s.pitch_correction, lon_error),
        pitch_confidence: confidence(update_count),
        update_count,
        ..s
    })
}

// The learner after a cruise sample.
fn cruised(s: OrientationCorrector, lon_imu_corrected: f32, dt: f32) -> OrientationCorrector
    ensures { result ≡ cruised lon_imu_corrected dt s }
{
    let next = OrientationCorrector {
        cruise_bias_sum: s.cruise_bias_sum + lon_imu_corrected,
        cruise_bias_count: raise(COUNT_STOP, s.cruise_bias_count),
        cruise_time: s.cruise_time + dt,
        ..s
    };
    if (next.cruise_time >= 2.0) & (next.cruise_bias_count > 30) {
        let measured_bias = next.cruise_bias_sum / count_float(next.cruise_bias_count);
        halted(OrientationCorrector {
            cruise_bias: clamped(-1.5, 1.5, 0.9 * s.cruise_bias + 0.1 * measured_bias),
            ..next
        })
    } else {
        next
    }
}

// The learner after a roll update, whose confidence uses the count of pitch updates.
fn rolled(s: OrientationCorrector, lat_error: f32) -> OrientationCorrector
    ensures { result ≡ rolled lat_error s }
{
    OrientationCorrector {
        roll_correction: corrected(s.alpha, s.max_correction, s.roll_correction, lat_error),
        roll_confidence: confidence(s.update_count),
        ..s
    }
}

// What a sample leaves: `idle` says that nothing is learned, `accelerating` and `cornering` which of
// the two GPS accelerations are a signal.
#[tactic(auto, unfolding(crate::specs::Orientation::updated))]
fn updated(
    s: OrientationCorrector,
    idle: bool,
    accelerating: bool,
    cornering: bool,
    sample: Sample,
) -> OrientationCorrector
    ensures { result ≡ updated idle accelerating cornering sample.lon_imu sample.lon_gps (sample.lat_imu ⊖ sample.lat_gps) sample.dt s }
{
    if idle {
        return halted(s);
    }
    let lon_imu_corrected = sample.lon_imu - s.cruise_bias;
    let next = if accelerating {
        pitched(s, lon_imu_corrected - sample.lon_gps)
    } else {
        cruised(s, lon_imu_corrected, sample.dt)
    };
    if cornering {
        rolled(next, sample.lat_imu - sample.lat_gps)
    } else {
        next
    }
}

impl OrientationCorrector {
    // A fresh learner; for a bad parameter 3 with a fresh learner whose parameters are 0.
    pub fn new(
        alpha: f32,
        min_speed: f32,
        min_accel: f32,
        max_correction: f32,
    ) -> Outcome<(), OrientationCorrector>
        ensures { told done_reply result ≡ made alpha min_speed min_accel max_correction }
    {
        let next = fresh(alpha, min_speed, min_accel, max_correction);
        Outcome::answered((), next).settled(
            bare(parameters(next)).passed(),
            fresh(0.0, 0.0, 0.0, 0.0),
        )
    }

    // A sample of IMU and GPS accelerations.
    pub fn update(
        self,
        lon_imu: f32,
        lon_gps: f32,
        lat_imu: f32,
        lat_gps: f32,
        speed: f32,
        is_gps_fresh: bool,
        dt: f32,
    ) -> Outcome<(), OrientationCorrector>
        ensures { told done_reply result ≡ on_orientation (update lon_imu lon_gps lat_imu lat_gps speed is_gps_fresh dt) self }
    {
        let sample = Sample {
            lon_imu,
            lon_gps,
            lat_imu,
            lat_gps,
            speed,
            dt,
        };
        let idle = (speed < self.min_speed) | !is_gps_fresh;
        let accelerating = exceeds(lon_gps, self.min_accel);
        let cornering = exceeds(lat_gps, self.min_accel);
        given(sample.is_finite(), sample.is_in_range(), parameters(self))
            .with_room((idle | accelerating) | has_room(self.cruise_bias_count))
            .change(
                self,
                Outcome::answered((), updated(self, idle, accelerating, cornering, sample)),
            )
    }

    // Corrections, confidences, cruise numbers and counts become 0.
    pub fn reset(self) -> Outcome<(), OrientationCorrector>
        ensures { told done_reply result ≡ on_orientation reset self }
    {
        let next = fresh(
            self.alpha,
            self.min_speed,
            self.min_accel,
            self.max_correction,
        );
        bare(parameters(self)).change(self, Outcome::answered((), next))
    }

    pub fn get_cruise_bias(self) -> Result<f32, Refusal>
        ensures { said value result ≡ (on_orientation get_cruise_bias self).0 }
    {
        bare(parameters(self)).read(self)?;
        Ok(self.cruise_bias)
    }

    pub fn get_pitch_correction_deg(self) -> Result<f32, Refusal>
        ensures { said value result ≡ (on_orientation get_pitch_correction_deg self).0 }
    {
        bare(parameters(self)).read(self)?;
        Ok(self.pitch_correction * DEGREES)
    }

    pub fn get_roll_correction_deg(self) -> Result<f32, Refusal>
        ensures { said value result ≡ (on_orientation get_roll_correction_deg self).0 }
    {
        bare(parameters(self)).read(self)?;
        Ok(self.roll_correction * DEGREES)
    }

    pub fn get_pitch_confidence(self) -> Result<f32, Refusal>
        ensures { said value result ≡ (on_orientation get_pitch_confidence self).0 }
    {
        bare(parameters(self)).read(self)?;
        Ok(self.pitch_confidence)
    }

    pub fn get_roll_confidence(self) -> Result<f32, Refusal>
        ensures { said value result ≡ (on_orientation get_roll_confidence self).0 }
    {
        bare(parameters(self)).read(self)?;
        Ok(self.roll_confidence)
    }
}
