// The velocity channel: x[3], x[4], p[3], p[4] and the velocity tallies. It has no gate. Its calls
// also take `r_vel`, here r.
#![tactic(auto)]

ghost use Rattle.std.specs.Prelude.{◌≡◌};
ghost use Rattle.call.specs.Said.{said, told, value, pair_reply};
ghost use Rattle.call.specs.Refusal.{number_in};
ghost use Rattle.call.specs.Port.{unread};
ghost use Rattle.channel.specs.Ranges.{is_measurement_noise};
ghost use Rattle.channel.specs.Answers.{verdict, tallies};
ghost use Rattle.velocity.specs.Velocity.{update_velocity, update_speed, zupt, velocity, speed, velocity_gate_stats, fresh_velocity, velocity_sound, updated_velocity, speed_of, speed_noise, slowed, updated_speed, on_velocity};

use call::refusal::Refusal;
use call::{Outcome, State, bare, given};
use channel::kalman::at_least;
use channel::ranges::{GIVEN_SPEED, GIVEN_VELOCITY, VELOCITY, is_measurement_noise};
use channel::{Axis, Tallies, Verdict, done};
use float::root::root;
use float::{is_between, is_finite, is_within};

// x[3], x[4], p[3], p[4] and the velocity tallies.
#[derive(Clone, Copy)]
pub struct Velocity {
    pub x: Axis,
    pub y: Axis,
    pub tallies: Tallies,
}

impl State for Velocity {
    ghost sound = { velocity_sound };

    fn is_sound(self) -> bool {
        self.x.is_sound(VELOCITY) & self.y.is_sound(VELOCITY)
    }
}

// The Kalman update of both velocities.
fn updated(z_vx: f32, z_vy: f32, r: f32, s: Velocity) -> Velocity
    ensures { result ≡ updated_velocity z_vx z_vy r s }
{
    Velocity {
        x: s.x.corrected(z_vx, r),
        y: s.y.corrected(z_vy, r),
        tallies: s.tallies.one_accepted(),
    }
}

// The noise of a measured speed.
fn speed_noise(z_speed: f32) -> f32
    ensures { result ≡ speed_noise z_speed }
{
    if z_speed < 0.3 { 0.20 } else { 0.04 }
}

// The update by a speed, from an estimate of it and its noise.
fn slowed(z_speed: f32, v_est: f32, r_spd: f32, s: Velocity) -> Velocity
    ensures { result ≡ slowed z_speed v_est r_spd s }
{
    let h_x = s.x.x / v_est;
    let h_y = s.y.x / v_est;
    let sum = h_x * h_x * s.x.p + h_y * h_y * s.y.p + r_spd;
    let innovation = z_speed - v_est;
    let k_x = s.x.p * h_x / sum;
    let k_y = s.y.p * h_y / sum;
    Velocity {
        x: Axis {
            x: s.x.x + k_x * innovation,
            p: s.x.p - k_x * h_x * s.x.p,
        },
        y: Axis {
            x: s.y.x + k_y * innovation,
            p: s.y.p - k_y * h_y * s.y.p,
        },
        ..s
    }
}

// The update by a speed; the estimate is at least 0.05, to avoid a division by zero.
fn updated_speed(z_speed: f32, s: Velocity) -> Velocity
    ensures { result ≡ updated_speed z_speed s }
{
    slowed(
        z_speed,
        at_least(0.05, s.magnitude()),
        speed_noise(z_speed),
        s,
    )
}

// Whether a reader may show the channel.
fn read(s: Velocity, r: f32) -> Result<(), Refusal>
    ensures { number_in result ≡ unread (is_measurement_noise r) (velocity_sound s) }
{
    bare(is_measurement_noise(r)).read(s)
}

// The channel's calls, each with `r_vel`.
impl Velocity {
    // The channel of a fresh filter.
    pub fn fresh() -> Velocity
        ensures { result ≡ fresh_velocity }
    {
        let axis = Axis { x: 0.0, p: 100.0 };
        Velocity {
            x: axis,
            y: axis,
            tallies: Tallies::none(),
        }
    }

    // The magnitude of the velocity, which tests nothing.
    pub fn magnitude(self) -> f32
        ensures { result ≡ speed_of self }
    {
        root(self.x.x * self.x.x + self.y.x * self.y.x)
    }

    // A velocity, which no gate tests: it raises one tally.
    pub fn update(self, r: f32, z_vx: f32, z_vy: f32) -> Outcome<Verdict, Velocity>
        ensures { told verdict result ≡ on_velocity r (update_velocity z_vx z_vy) self }
    {
        given(
            is_finite(z_vx) & is_finite(z_vy),
            is_within(z_vx, GIVEN_VELOCITY) & is_within(z_vy, GIVEN_VELOCITY),
            is_measurement_noise(r),
        )
        .change(self, done(updated(z_vx, z_vy, r, self)))
    }

    // A speed along the velocity that is estimated; it raises no tally.
    pub fn update_speed(self, r: f32, z_speed: f32) -> Outcome<Verdict, Velocity>
        ensures { told verdict result ≡ on_velocity r (update_speed z_speed) self }
    {
        given(
            is_finite(z_speed),
            is_between(0.0, z_speed, GIVEN_SPEED),
            is_measurement_noise(r),
        )
        .change(self, done(updated_speed(z_speed, self)))
    }

    // The velocity becomes 0 and its variances 2.0.
    pub fn zupt(self, r: f32) -> Outcome<Verdict, Velocity>
        ensures { told verdict result ≡ on_velocity r zupt self }
    {
        let rest = Axis { x: 0.0, p: 2.0 };
        bare(is_measurement_noise(r)).change(
            self,
            done(Velocity {
                x: rest,
                y: rest,
                ..self
            }),
        )
    }

    // x[3] and x[4].
    pub fn values(self, r: f32) -> Result<(f32, f32), Refusal>
        ensures { said pair_reply result ≡ (on_velocity r velocity self).0 }
    {
        read(self, r)?;
        Ok((self.x.x, self.y.x))
    }

    // The size of the velocity.
    pub fn speed(self, r: f32) -> Result<f32, Refusal>
        ensures { said value result ≡ (on_velocity r speed self).0 }
    {
        read(self, r)?;
        Ok(self.magnitude())
    }

    // The velocities accepted and rejected.
    pub fn gate_stats(self, r: f32) -> Result<Tallies, Refusal>
        ensures { said tallies result ≡ (on_velocity r velocity_gate_stats self).0 }
    {
        read(self, r)?;
        Ok(self.tallies)
    }
}
