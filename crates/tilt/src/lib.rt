// The tilt estimator of `fusion.rs`, which learns the mounting offset while the car stands. The
// learner is held by value and handed back with each answer.
#![tactic(auto)]

ghost use Rattle.std.specs.Prelude.{◌≡◌};
ghost use Rattle.call.specs.Said.{said, told, answered, done_reply, flag};
ghost use Rattle.tilt.specs.Answers.{offsets_reply, offsets_alike};
ghost use Rattle.tilt.specs.Tilt.{update_stationary, reset_stationary, get_offsets, sound, fresh, made, summed, learns, taken, updated, on_tilt};

use call::answer::Answer;
use call::refusal::Refusal;
use call::{Outcome, State, bare, given};
use float::root::root;
use float::{COUNT_STOP, count_float, is_finite, raise};
use learner::ranges::{
    has_room, is_count, is_parameter, is_stored, takes_acceleration, takes_step,
};

// The offset stands also while `offset_valid` is false: what is sound looks at it then too, and a caller
// keeps it.
#[derive(Clone, Copy)]
pub struct TiltEstimator {
    pub accel_x_sum: f32,
    pub accel_y_sum: f32,
    pub sample_count: u32,
    pub stationary_time: f32,
    pub offset_x: f32,
    pub offset_y: f32,
    pub offset_valid: bool,
    pub learn_time: f32,
}

// The learned offset, and whether there is one: document 01 shows both values also where there is
// none.
#[derive(Clone, Copy)]
pub struct Offsets {
    pub x: f32,
    pub y: f32,
    pub valid: bool,
}

impl Answer for Offsets {
    ghost reply = { offsets_reply };

    ghost once = { offsets_alike };
}

impl State for TiltEstimator {
    ghost sound = { sound };

    fn is_sound(self) -> bool {
        ((is_stored(self.accel_x_sum) & is_stored(self.accel_y_sum))
            & (is_count(self.sample_count) & is_stored(self.stationary_time)))
            & (is_stored(self.offset_x) & is_stored(self.offset_y))
    }
}

// A fresh learner.
fn fresh(learn_time: f32) -> TiltEstimator
    ensures { result ≡ fresh learn_time }
{
    TiltEstimator {
        accel_x_sum: 0.0,
        accel_y_sum: 0.0,
        sample_count: 0,
        stationary_time: 0.0,
        offset_x: 0.0,
        offset_y: 0.0,
        offset_valid: false,
        learn_time,
    }
}

// The learner with one sample more.
fn summed(s: TiltEstimator, ax_earth: f32, ay_earth: f32, dt: f32) -> TiltEstimator
    ensures { result ≡ summed ax_earth ay_earth dt s }
{
    TiltEstimator {
        accel_x_sum: s.accel_x_sum + ax_earth,
        accel_y_sum: s.accel_y_sum + ay_earth,
        sample_count: raise(COUNT_STOP, s.sample_count),
        stationary_time: s.stationary_time + dt,
        ..s
    }
}

// The learner takes the new offset: it stood long enough, and the change is large or the first.
fn learns(s: TiltEstimator, new_offset_x: f32, new_offset_y: f32) -> bool
    ensures { result ≡ learns new_offset_x new_offset_y s }
{
    let x = new_offset_x - s.offset_x;
    let y = new_offset_y - s.offset_y;
    let change = root(x * x + y * y);
    ((s.stationary_time >= s.learn_time) & (s.sample_count > 50))
        & ((change > 0.05) | !s.offset_valid)
}

// The learner with the new offset: `stationary_time` is kept.
fn taken(s: TiltEstimator, new_offset_x: f32, new_offset_y: f32) -> TiltEstimator
    ensures { result ≡ taken new_offset_x new_offset_y s }
{
    TiltEstimator {
        accel_x_sum: 0.0,
        accel_y_sum: 0.0,
        sample_count: 0,
        offset_x: new_offset_x,
        offset_y: new_offset_y,
        offset_valid: true,
        ..s
    }
}

// What a sample leaves.
fn updated(s: TiltEstimator, ax_earth: f32, ay_earth: f32, dt: f32) -> Outcome<bool, TiltEstimator>
    ensures { told flag result ≡ answered (updated ax_earth ay_earth dt s) }
{
    let next = summed(s, ax_earth, ay_earth, dt);
    let n = count_float(next.sample_count);
    let x = next.accel_x_sum / n;
    let y = next.accel_y_sum / n;
    let learned = learns(next, x, y);
    Outcome::answered(learned, if learned { taken(next, x, y) } else { next })
}

impl TiltEstimator {
    // A fresh learner; for a bad parameter 3 with a fresh learner whose parameter is 0.
    pub fn new(learn_time: f32) -> Outcome<(), TiltEstimator>
        ensures { told done_reply result ≡ made learn_time }
    {
        Outcome::answered((), fresh(learn_time)).settled(
            bare(is_parameter(learn_time)).passed(),
            fresh(0.0),
        )
    }

    // A sample while the car stands: answers whether the offset was just learned.
    pub fn update_stationary(
        self,
        ax_earth: f32,
        ay_earth: f32,
        dt: f32,
    ) -> Outcome<bool, TiltEstimator>
        ensures { told flag result ≡ on_tilt (update_stationary ax_earth ay_earth dt) self }
    {
        given(
            (is_finite(ax_earth) & is_finite(ay_earth)) & is_finite(dt),
            (takes_acceleration(ax_earth) & takes_acceleration(ay_earth)) & takes_step(dt),
            is_parameter(self.learn_time),
        )
        .with_room(has_room(self.sample_count))
        .change(self, updated(self, ax_earth, ay_earth, dt))
    }

    // The car moves: sums, count and time become 0.
    pub fn reset_stationary(self) -> Outcome<(), TiltEstimator>
        ensures { told done_reply result ≡ on_tilt reset_stationary self }
    {
        let next = TiltEstimator {
            accel_x_sum: 0.0,
            accel_y_sum: 0.0,
            sample_count: 0,
            stationary_time: 0.0,
            ..self
        };
        bare(is_parameter(self.learn_time)).change(self, Outcome::answered((), next))
    }

    // The learned offset and whether there is one.
    pub fn get_offsets(self) -> Result<Offsets, Refusal>
        ensures { said offsets_reply result ≡ (on_tilt get_offsets self).0 }
    {
        bare(is_parameter(self.learn_time)).read(self)?;
        Ok(Offsets {
            x: self.offset_x,
            y: self.offset_y,
            valid: self.offset_valid,
        })
    }
}
