// The yaw channel: x[2], p[2], the stored moving yaw and the yaw tallies. Its calls also take
// `r_yaw`, here r.
#![tactic(auto)]

ghost use Rattle.std.specs.Prelude.{◌≡◌};
ghost use Rattle.call.specs.Said.{said, told, value, option, answered};
ghost use Rattle.call.specs.Refusal.{number_in};
ghost use Rattle.call.specs.Port.{unread};
ghost use Rattle.channel.specs.Ranges.{is_measurement_noise};
ghost use Rattle.channel.specs.Answers.{verdict, tallies};
ghost use Rattle.yaw.specs.Yaw.{update_yaw, update_yaw_soft, lock_yaw, store_moving_yaw, get_last_moving_yaw, yaw, yaw_gate_stats, fresh_yaw, yaw_sound, yaw_gate_value, turned, yaw_away, yaw_taken, updated_yaw, on_yaw};

use call::refusal::Refusal;
use call::{Outcome, State, bare, given};
use channel::ranges::{FACTOR, GIVEN_YAW, LEAST_FACTOR, MOVING_YAW, is_measurement_noise};
use channel::{Axis, Tallies, Verdict, done};
use float::wrap::wrapped;
use float::{PI, is_between, is_finite, is_within};

// The yaw stored while moving, and whether there is one.
// No Option: a sound channel has its number in range also while there is none, and a caller's words
// hold it.
#[derive(Clone, Copy)]
pub struct MovingYaw {
    pub angle: f32,
    pub known: bool,
}

// x[2], p[2], the stored moving yaw and the yaw tallies.
#[derive(Clone, Copy)]
pub struct Yaw {
    pub angle: Axis,
    pub moving: MovingYaw,
    pub tallies: Tallies,
}

const CHI2_GATE_YAW: f32 = 12.0;

impl State for Yaw {
    ghost sound = { yaw_sound };

    fn is_sound(self) -> bool {
        self.angle.is_sound(PI) & is_within(self.moving.angle, MOVING_YAW)
    }
}

// The squared innovation over its variance.
fn gate_value(a: Axis, dy: f32, r: f32) -> f32
    ensures { result ≡ yaw_gate_value a dy r }
{
    let s = a.p + r;
    (dy * dy) / s
}

// The angle with an accepted innovation.
fn turned(a: Axis, dy: f32, r: f32) -> Axis
    ensures { result ≡ turned a dy r }
{
    let s = a.p + r;
    let k = a.p / s;
    Axis {
        x: wrapped(a.x + k * dy),
        p: a.p * (1.0 - k),
    }
}

// The channel after a rejection.
fn away(s: Yaw) -> Yaw
    ensures { result ≡ yaw_away s }
{
    Yaw {
        tallies: s.tallies.one_rejected(),
        ..s
    }
}

// The channel after an acceptance.
fn taken(s: Yaw, angle: Axis) -> Yaw
    ensures { result ≡ yaw_taken s angle }
{
    Yaw {
        angle,
        tallies: s.tallies.one_accepted(),
        ..s
    }
}

// What a measured yaw leaves by a noise of r, by the gate's verdict: both updates are this step.
fn updated(z_yaw: f32, r: f32, s: Yaw) -> Outcome<Verdict, Yaw>
    ensures { told verdict result ≡ answered (updated_yaw z_yaw r s) }
{
    let dy = wrapped(z_yaw - s.angle.x);
    let mahal_sq = gate_value(s.angle, dy, r);
    if mahal_sq > CHI2_GATE_YAW {
        Outcome::answered(Verdict::Rejected(mahal_sq), away(s))
    } else {
        Outcome::answered(
            Verdict::Accepted(mahal_sq),
            taken(s, turned(s.angle, dy, r)),
        )
    }
}

// Whether a reader may show the channel.
fn read(s: Yaw, r: f32) -> Result<(), Refusal>
    ensures { number_in result ≡ unread (is_measurement_noise r) (yaw_sound s) }
{
    bare(is_measurement_noise(r)).read(s)
}

// The channel's calls, each with `r_yaw`.
impl Yaw {
    // The channel of a fresh filter.
    pub fn fresh() -> Yaw
        ensures { result ≡ fresh_yaw }
    {
        Yaw {
            angle: Axis { x: 0.0, p: 100.0 },
            moving: MovingYaw {
                angle: 0.0,
                known: false,
            },
            tallies: Tallies::none(),
        }
    }

    // A measured yaw, by the gate.
    pub fn update(self, r: f32, z_yaw: f32) -> Outcome<Verdict, Yaw>
        ensures { told verdict result ≡ on_yaw r (update_yaw z_yaw) self }
    {
        given(
            is_finite(z_yaw),
            is_within(z_yaw, GIVEN_YAW),
            is_measurement_noise(r),
        )
        .change(self, updated(z_yaw, r, self))
    }

    // The same by a noise of r times the factor.
    pub fn update_soft(self, r: f32, z_yaw: f32, r_yaw_factor: f32) -> Outcome<Verdict, Yaw>
        ensures { told verdict result ≡ on_yaw r (update_yaw_soft z_yaw r_yaw_factor) self }
    {
        given(
            is_finite(z_yaw) & is_finite(r_yaw_factor),
            is_within(z_yaw, GIVEN_YAW) & is_between(LEAST_FACTOR, r_yaw_factor, FACTOR),
            is_measurement_noise(r),
        )
        .change(self, updated(z_yaw, r * r_yaw_factor, self))
    }

    // p[2] becomes 0.001.
    pub fn lock(self, r: f32) -> Outcome<Verdict, Yaw>
        ensures { told verdict result ≡ on_yaw r lock_yaw self }
    {
        let angle = Axis {
            p: 0.001,
            ..self.angle
        };
        bare(is_measurement_noise(r)).change(self, done(Yaw { angle, ..self }))
    }

    // The stored moving yaw, and its flag.
    pub fn store_moving(self, r: f32, v: f32) -> Outcome<Verdict, Yaw>
        ensures { told verdict result ≡ on_yaw r (store_moving_yaw v) self }
    {
        let moving = MovingYaw {
            angle: v,
            known: true,
        };
        given(
            is_finite(v),
            is_within(v, GIVEN_YAW),
            is_measurement_noise(r),
        )
        .change(self, done(Yaw { moving, ..self }))
    }

    // The stored moving yaw, or nothing.
    pub fn last_moving(self, r: f32) -> Result<Option<f32>, Refusal>
        ensures { said option result ≡ (on_yaw r get_last_moving_yaw self).0 }
    {
        read(self, r)?;
        Ok(self.moving.known.then_some(self.moving.angle))
    }

    // x[2].
    pub fn value(self, r: f32) -> Result<f32, Refusal>
        ensures { said value result ≡ (on_yaw r yaw self).0 }
    {
        read(self, r)?;
        Ok(self.angle.x)
    }

    // The yaws accepted and rejected.
    pub fn gate_stats(self, r: f32) -> Result<Tallies, Refusal>
        ensures { said tallies result ≡ (on_yaw r yaw_gate_stats self).0 }
    {
        read(self, r)?;
        Ok(self.tallies)
    }
}
