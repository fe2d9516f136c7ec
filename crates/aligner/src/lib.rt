// The heading aligner of `fusion.rs`, which learns the offset from the filter's yaw to the GPS
// course. The learner is held by value and handed back with each answer.
#![tactic(auto)]

ghost use Rattle.std.specs.Prelude.{◌≡◌};
ghost use Rattle.call.specs.Said.{said, told, answered, done_reply, flag, value};
ghost use Rattle.aligner.specs.Aligner.{update_gps_course, update, get_aligned_heading, is_valid, get_offset, get_confidence, reset, sound, parameters, effective_alpha, fresh, made, first, later, aligned, updated, on_aligner};

use call::refusal::Refusal;
use call::{Outcome, State, bare, given};
use float::wrap::{angle_diff, wrapped};
use float::{COUNT_STOP, PI, is_finite, is_within, raise};
use learner::confidence;
use learner::ranges::{
    is_alpha, is_count, is_course, is_parameter, is_stored, takes_course, takes_speed, takes_step,
};

// The age of the course while there is none.
const NO_COURSE: f32 = 999.0;

// The offset stands also while `valid` is false: what is sound looks at it then too, and a caller may
// read it.
#[derive(Clone, Copy)]
pub struct HeadingAligner {
    pub offset: f32,
    pub valid: bool,
    pub update_count: u32,
    pub alpha: f32,
    pub min_speed: f32,
    pub last_gps_course: f32,
    pub time_since_gps: f32,
    pub max_gps_age: f32,
}

impl State for HeadingAligner {
    ghost sound = { sound };

    fn is_sound(self) -> bool {
        (is_course(self.offset) & is_count(self.update_count))
            & (is_course(self.last_gps_course) & is_stored(self.time_since_gps))
    }
}

// Every parameter is in its range.
fn parameters(s: HeadingAligner) -> bool
    ensures { result ≡ parameters s }
{
    (is_alpha(s.alpha) & is_parameter(s.min_speed)) & is_parameter(s.max_gps_age)
}

// `alpha` at first, and less after 50 updates.
fn effective_alpha(alpha: f32, update_count: u32) -> f32
    ensures { result ≡ effective_alpha alpha update_count }
{
    if update_count < 50 { alpha } else { 0.02 }
}

// A fresh learner.
fn fresh(alpha: f32, min_speed: f32, max_gps_age: f32) -> HeadingAligner
    ensures { result ≡ fresh alpha min_speed max_gps_age }
{
    HeadingAligner {
        offset: 0.0,
        valid: false,
        update_count: 0,
        alpha,
        min_speed,
        last_gps_course: 0.0,
        time_since_gps: NO_COURSE,
        max_gps_age,
    }
}

// The learner with its first offset.
fn first(s: HeadingAligner, new_offset: f32) -> HeadingAligner
    ensures { result ≡ first new_offset s }
{
    HeadingAligner {
        offset: new_offset,
        valid: true,
        update_count: 1,
        ..s
    }
}

// The learner with a later offset.
fn later(s: HeadingAligner, new_offset: f32) -> HeadingAligner
    ensures { result ≡ later new_offset s }
{
    let innovation = angle_diff(new_offset, s.offset);
    let alpha = effective_alpha(s.alpha, s.update_count);
    HeadingAligner {
        offset: wrapped(s.offset + alpha * innovation),
        update_count: raise(COUNT_STOP, s.update_count),
        ..s
    }
}

// What a yaw leaves.
fn updated(s: HeadingAligner, ekf_yaw: f32, speed: f32, dt: f32) -> Outcome<bool, HeadingAligner>
    ensures { told flag result ≡ answered (updated ekf_yaw speed dt s) }
{
    let aged = HeadingAligner {
        time_since_gps: s.time_since_gps + dt,
        ..s
    };
    let idle = (speed < aged.min_speed) | (aged.time_since_gps > aged.max_gps_age);
    let new_offset = angle_diff(aged.last_gps_course, ekf_yaw);
    let next = if idle {
        aged
    } else if aged.valid {
        later(aged, new_offset)
    } else {
        first(aged, new_offset)
    };
    Outcome::answered(!idle, next)
}

// The yaw in the course's reference, or as it is while no offset is known.
fn aligned(s: HeadingAligner, ekf_yaw: f32) -> f32
    ensures { result ≡ aligned ekf_yaw s }
{
    if s.valid {
        wrapped(ekf_yaw + s.offset)
    } else {
        ekf_yaw
    }
}

impl HeadingAligner {
    // A fresh learner; for a bad parameter 3 with a fresh learner whose parameters are 0.
    pub fn new(alpha: f32, min_speed: f32, max_gps_age: f32) -> Outcome<(), HeadingAligner>
        ensures { told done_reply result ≡ made alpha min_speed max_gps_age }
    {
        let next = fresh(alpha, min_speed, max_gps_age);
        Outcome::answered((), next).settled(bare(parameters(next)).passed(), fresh(0.0, 0.0, 0.0))
    }

    // A course, which is new: it is folded into -PI to PI.
    pub fn update_gps_course(self, gps_course: f32) -> Outcome<(), HeadingAligner>
        ensures { told done_reply result ≡ on_aligner (update_gps_course gps_course) self }
    {
        let next = HeadingAligner {
            last_gps_course: wrapped(gps_course),
            time_since_gps: 0.0,
            ..self
        };
        given(
            is_finite(gps_course),
            takes_course(gps_course),
            parameters(self),
        )
        .change(self, Outcome::answered((), next))
    }

    // A yaw: answers whether the offset was updated.
    pub fn update(self, ekf_yaw: f32, speed: f32, dt: f32) -> Outcome<bool, HeadingAligner>
        ensures { told flag result ≡ on_aligner (update ekf_yaw speed dt) self }
    {
        given(
            (is_finite(ekf_yaw) & is_finite(speed)) & is_finite(dt),
            (is_within(ekf_yaw, PI) & takes_speed(speed)) & takes_step(dt),
            parameters(self),
        )
        .change(self, updated(self, ekf_yaw, speed, dt))
    }

    // The yaw in the course's reference.
    pub fn get_aligned_heading(self, ekf_yaw: f32) -> Result<f32, Refusal>
        ensures { said value result ≡ (on_aligner (get_aligned_heading ekf_yaw) self).0 }
    {
        given(is_finite(ekf_yaw), is_within(ekf_yaw, PI), parameters(self)).read(self)?;
        Ok(aligned(self, ekf_yaw))
    }

    pub fn is_valid(self) -> Result<bool, Refusal>
        ensures { said flag result ≡ (on_aligner is_valid self).0 }
    {
        bare(parameters(self)).read(self)?;
        Ok(self.valid)
    }

    pub fn get_offset(self) -> Result<f32, Refusal>
        ensures { said value result ≡ (on_aligner get_offset self).0 }
    {
        bare(parameters(self)).read(self)?;
        Ok(self.offset)
    }

    pub fn get_confidence(self) -> Result<f32, Refusal>
        ensures { said value result ≡ (on_aligner get_confidence self).0 }
    {
        bare(parameters(self)).read(self)?;
        Ok(confidence(self.update_count))
    }

    // The offset is forgotten; the last course is kept.
    pub fn reset(self) -> Outcome<(), HeadingAligner>
        ensures { told done_reply result ≡ on_aligner reset self }
    {
        let next = HeadingAligner {
            offset: 0.0,
            valid: false,
            update_count: 0,
            time_since_gps: NO_COURSE,
            ..self
        };
        bare(parameters(self)).change(self, Outcome::answered((), next))
    }
}
