// The prediction, which looks at every number of the configuration and of the state.
ghost use Rattle.std.specs.Prelude.{◌≡◌};
ghost use Rattle.call.specs.Said.{told};
ghost use Rattle.channel.specs.Answers.{verdict};
ghost use Rattle.velocity.specs.Velocity.{speed_of};
ghost use Rattle.ekf.specs.Gained.{outset, ahead};
ghost use Rattle.ekf.specs.Predict.{turns, gained, turning, straight, shifted, sped, swung, drifted, shift_of, predicted, on_predict};

use crate::Ekf;
use bias::Bias;
use call::edition::{Edition, edition_of, is_edition};
use call::{Outcome, given};
use channel::ranges::{ACCELERATION, takes_turn};
use channel::{Axis, Verdict, done};
use float::wrap::wrapped;
use float::{is_finite, is_within};
use position::Position;
use trig::{Both, sine_and_cosine};
use velocity::Velocity;
use yaw::Yaw;

// What a prediction is given: the acceleration, the turn rate, and how long both last.
#[derive(Clone, Copy)]
pub struct Step {
    pub ax: f32,
    pub ay: f32,
    pub wz: f32,
    pub dt: f32,
}

// How far it moves the position.
#[derive(Clone, Copy)]
struct Shift {
    x: f32,
    y: f32,
}

// The turning model is taken; the speed, which takes a root, is asked for in a turn only.
fn turns(velocity: Velocity, min_speed: f32, wz: f32) -> bool
    ensures { result ≡ turns (speed_of velocity) min_speed wz }
{
    ((wz > 1.0e-4) | (wz < -1.0e-4)) && velocity.magnitude() > min_speed
}

// Sine and cosine where the turn begins: of the heading in edition 1, of 0 in edition 2.
fn outset(edition: Edition, psi: f32) -> Both
    ensures { result ≡ outset edition psi }
{
    match edition {
        Edition::First => sine_and_cosine(psi),
        Edition::Second => Both {
            sine: 0.0,
            cosine: 1.0,
        },
    }
}

// The angle where it ends.
fn ahead(edition: Edition, psi: f32, turn: f32) -> f32
    ensures { result ≡ ahead edition psi turn }
{
    match edition {
        Edition::First => psi + turn,
        Edition::Second => turn,
    }
}

// What sine and cosine gain in the turn: one difference for both editions.
#[tactic(auto, using(crate::specs::Gained::gained_is))]
fn gained(edition: Edition, psi: f32, turn: f32) -> Both
    ensures { result ≡ gained edition psi turn }
{
    let here = outset(edition, psi);
    let there = sine_and_cosine(ahead(edition, psi, turn));
    Both {
        sine: there.sine - here.sine,
        cosine: there.cosine - here.cosine,
    }
}

// The displacement of the turning model.
fn turning(edition: Edition, psi: f32, v: Velocity, step: Step) -> Shift
    ensures { result ≡ turning edition psi step.wz step.dt v.x.x v.y.x }
{
    let d = gained(edition, psi, step.wz * step.dt);
    Shift {
        x: d.sine / step.wz * v.x.x + d.cosine / step.wz * v.y.x,
        y: -d.cosine / step.wz * v.x.x + d.sine / step.wz * v.y.x,
    }
}

// The displacement of the straight model, by an acceleration without its bias.
fn straight(v: Velocity, step: Step) -> Shift
    ensures { result ≡ straight step.ax step.ay v.x.x v.y.x step.dt }
{
    Shift {
        x: v.x.x * step.dt + 0.5 * step.ax * step.dt * step.dt,
        y: v.y.x * step.dt + 0.5 * step.ay * step.dt * step.dt,
    }
}

// The displacement of the model that is taken.
fn shift_of(edition: Edition, f: Ekf, step: Step) -> Shift
    ensures { result ≡ shift_of edition f step.ax step.ay step.wz step.dt }
{
    if turns(f.velocity, f.config.min_speed, step.wz) {
        turning(edition, f.yaw.angle.x, f.velocity, step)
    } else {
        straight(f.velocity, step)
    }
}

// The position channel, moved.
fn shifted(s: Position, d: Shift, q_acc: f32, dt: f32) -> Position
    ensures { result ≡ shifted s d q_acc dt }
{
    let qx = 0.25 * q_acc * dt * dt;
    Position {
        x: Axis {
            x: s.x.x + d.x,
            p: s.x.p + qx,
        },
        y: Axis {
            x: s.y.x + d.y,
            p: s.y.p + qx,
        },
        ..s
    }
}

// The velocity channel by an acceleration without its bias.
fn sped(s: Velocity, step: Step, q_acc: f32) -> Velocity
    ensures { result ≡ sped s step.ax step.ay q_acc step.dt }
{
    let qv = q_acc * step.dt * step.dt;
    Velocity {
        x: Axis {
            x: s.x.x + step.ax * step.dt,
            p: s.x.p + qv,
        },
        y: Axis {
            x: s.y.x + step.ay * step.dt,
            p: s.y.p + qv,
        },
        ..s
    }
}

// The yaw channel, turned.
fn swung(s: Yaw, step: Step, q_gyro: f32) -> Yaw
    ensures { result ≡ swung s step.wz q_gyro step.dt }
{
    Yaw {
        angle: Axis {
            x: wrapped(s.angle.x + step.wz * step.dt),
            p: s.angle.p + q_gyro * step.dt * step.dt,
        },
        ..s
    }
}

// The bias channel, less sure.
fn drifted(s: Bias, q_bias: f32, dt: f32) -> Bias
    ensures { result ≡ drifted s q_bias dt }
{
    let q = q_bias * dt + 1.0e-6;
    Bias {
        x: Axis {
            p: s.x.p + q,
            ..s.x
        },
        y: Axis {
            p: s.y.p + q,
            ..s.y
        },
    }
}

// The filter after the time step. The yaw is turned first: edition 1 takes the sine of the same sum.
fn predicted(edition: Edition, given: Step, f: Ekf) -> Ekf
    ensures { result ≡ predicted edition given.ax given.ay given.wz given.dt f }
{
    let step = Step {
        ax: given.ax - f.bias.x.x,
        ay: given.ay - f.bias.y.x,
        ..given
    };
    let yaw = swung(f.yaw, step, f.config.q_gyro);
    let d = shift_of(edition, f, step);
    Ekf {
        config: f.config,
        position: shifted(f.position, d, f.config.q_acc, step.dt),
        velocity: sped(f.velocity, step, f.config.q_acc),
        yaw,
        bias: drifted(f.bias, f.config.q_bias, step.dt),
    }
}

// By an edition's number; another number is an argument outside its range.
pub fn predict(f: Ekf, edition: u32, step: Step) -> Outcome<Verdict, Ekf>
    ensures { told verdict result ≡ on_predict edition step.ax step.ay step.wz step.dt f }
{
    let next = predicted(edition_of(edition), step, f);
    given(
        (is_finite(step.ax) & is_finite(step.ay)) & (is_finite(step.wz) & is_finite(step.dt)),
        (is_within(step.ax, ACCELERATION) & is_within(step.ay, ACCELERATION))
            & (takes_turn(step.wz, step.dt) & is_edition(edition)),
        f.config.is_sound(),
    )
    .change(f, done(next))
}
