// The yaw rate calibrator of `fusion.rs`, which learns the gyro's bias while the car drives
// straight. The learner is held by value and handed back with each answer.
#![tactic(auto)]

ghost use Rattle.std.specs.Prelude.{◌≡◌};
ghost use Rattle.call.specs.Said.{said, told, answered, done_reply, flag, value};
ghost use Rattle.yawrate.specs.YawRate.{update_heading, update, get_bias, is_valid, sound, parameters, fresh, made, headed, straight, halted, sampled, learned, updated, on_yaw_rate};

mod ring; // ring.rt: the last headings, and whether they are stable

use call::refusal::Refusal;
use call::{Outcome, State, bare, given};
use float::wrap::wrapped;
use float::{COUNT_STOP, count_float, is_finite, is_within, raise};
use learner::ranges::{
    has_room, is_alpha, is_count, is_parameter, is_stored, takes_course, takes_speed, takes_step,
};

// Argument: yaw rate in size.
const YAW_RATE: f32 = 1.0e3;

// The bias stands also while `valid` is false: what is sound looks at it then too, and a caller may
// read it. So do the ring's slots beyond its count, whose index a caller holds as well.
#[derive(Clone, Copy)]
pub struct YawRateCalibrator {
    pub bias: f32,
    pub valid: bool,
    pub heading_history: [f32; 20],
    pub heading_idx: usize,
    pub heading_count: u32,
    pub straight_time: f32,
    pub yaw_sum: f32,
    pub sample_count: u32,
    pub min_speed: f32,
    pub heading_tolerance: f32,
    pub learn_time: f32,
    pub alpha: f32,
}

impl State for YawRateCalibrator {
    ghost sound = { sound };

    // Every stored number, all 20 slots of the ring included.
    fn is_sound(self) -> bool {
        ((is_stored(self.bias) & ring::ring_sound(self.heading_history))
            & ((self.heading_idx < 20) & (self.heading_count <= 20)))
            & ((is_stored(self.straight_time) & is_stored(self.yaw_sum))
                & is_count(self.sample_count))
    }
}

// Every parameter is in its range.
fn parameters(s: YawRateCalibrator) -> bool
    ensures { result ≡ parameters s }
{
    (is_parameter(s.min_speed) & is_parameter(s.heading_tolerance))
        & (is_parameter(s.learn_time) & is_alpha(s.alpha))
}

// A fresh learner.
fn fresh(min_speed: f32, heading_tolerance: f32, learn_time: f32, alpha: f32) -> YawRateCalibrator
    ensures { result ≡ fresh min_speed heading_tolerance learn_time alpha }
{
    YawRateCalibrator {
        bias: 0.0,
        valid: false,
        heading_history: [0.0; 20],
        heading_idx: 0,
        heading_count: 0,
        straight_time: 0.0,
        yaw_sum: 0.0,
        sample_count: 0,
        min_speed,
        heading_tolerance,
        learn_time,
        alpha,
    }
}

// The learner with a heading more in its ring.
fn headed(s: YawRateCalibrator, heading: f32) -> YawRateCalibrator
    ensures { result ≡ headed heading s }
{
    YawRateCalibrator {
        heading_history: ring::put(s.heading_history, s.heading_idx, heading),
        heading_idx: ring::next_slot(s.heading_idx),
        heading_count: raise(20, s.heading_count),
        ..s
    }
}

// The car is fast enough, and its headings are enough and stable.
#[tactic(auto, unfolding(crate::specs::YawRate::straight))]
fn straight(s: YawRateCalibrator, speed: f32) -> bool
    ensures { result ≡ straight speed s }
{
    if (speed < s.min_speed) | (s.heading_count < 10) {
        return false;
    }
    ring::stable(s.heading_history, s.heading_count, s.heading_tolerance)
}

// The sums and the count become 0.
fn halted(s: YawRateCalibrator) -> YawRateCalibrator
    ensures { result ≡ halted s }
{
    YawRateCalibrator {
        straight_time: 0.0,
        yaw_sum: 0.0,
        sample_count: 0,
        ..s
    }
}

// The learner with a sample more.
fn sampled(s: YawRateCalibrator, yaw_rate: f32, dt: f32) -> YawRateCalibrator
    ensures { result ≡ sampled yaw_rate dt s }
{
    YawRateCalibrator {
        straight_time: s.straight_time + dt,
        yaw_sum: s.yaw_sum + yaw_rate,
        sample_count: raise(COUNT_STOP, s.sample_count),
        ..s
    }
}

// The learner with the bias of its samples.
fn learned(s: YawRateCalibrator) -> YawRateCalibrator
    ensures { result ≡ learned s }
{
    let measured_bias = s.yaw_sum / count_float(s.sample_count);
    halted(YawRateCalibrator {
        bias: if s.valid {
            (1.0 - s.alpha) * s.bias + s.alpha * measured_bias
        } else {
            measured_bias
        },
        valid: true,
        ..s
    })
}

// What a sample leaves, where `straight` says that it counts.
#[tactic(auto, unfolding(crate::specs::YawRate::updated))]
fn updated(
    s: YawRateCalibrator,
    straight: bool,
    yaw_rate: f32,
    dt: f32,
) -> Outcome<bool, YawRateCalibrator>
    ensures { told flag result ≡ answered (updated straight yaw_rate dt s) }
{
    if !straight {
        return Outcome::answered(false, halted(s));
    }
    let next = sampled(s, yaw_rate, dt);
    let learns = (next.straight_time >= next.learn_time) & (next.sample_count > 50);
    Outcome::answered(learns, if learns { learned(next) } else { next })
}

impl YawRateCalibrator {
    // A fresh learner; for a bad parameter 3 with a fresh learner whose parameters are 0.
    pub fn new(
        min_speed: f32,
        heading_tolerance: f32,
        learn_time: f32,
        alpha: f32,
    ) -> Outcome<(), YawRateCalibrator>
        ensures { told done_reply result ≡ made min_speed heading_tolerance learn_time alpha }
    {
        let next = fresh(min_speed, heading_tolerance, learn_time, alpha);
        Outcome::answered((), next).settled(
            bare(parameters(next)).passed(),
            fresh(0.0, 0.0, 0.0, 0.0),
        )
    }

    // A course enters the ring, folded into -PI to PI.
    pub fn update_heading(self, heading: f32) -> Outcome<(), YawRateCalibrator>
        ensures { told done_reply result ≡ on_yaw_rate (update_heading heading) self }
    {
        given(is_finite(heading), takes_course(heading), parameters(self)).change(
            self,
            Outcome::answered((), headed(self, wrapped(heading))),
        )
    }

    // A yaw rate: answers whether the bias was updated.
    pub fn update(self, yaw_rate: f32, speed: f32, dt: f32) -> Outcome<bool, YawRateCalibrator>
        ensures { told flag result ≡ on_yaw_rate (update yaw_rate speed dt) self }
    {
        let straight = straight(self, speed);
        given(
            (is_finite(yaw_rate) & is_finite(speed)) & is_finite(dt),
            (is_within(yaw_rate, YAW_RATE) & takes_speed(speed)) & takes_step(dt),
            parameters(self),
        )
        .with_room(!straight | has_room(self.sample_count))
        .change(self, updated(self, straight, yaw_rate, dt))
    }

    pub fn get_bias(self) -> Result<f32, Refusal>
        ensures { said value result ≡ (on_yaw_rate get_bias self).0 }
    {
        bare(parameters(self)).read(self)?;
        Ok(self.bias)
    }

    pub fn is_valid(self) -> Result<bool, Refusal>
        ensures { said flag result ≡ (on_yaw_rate is_valid self).0 }
    {
        bare(parameters(self)).read(self)?;
        Ok(self.valid)
    }
}
