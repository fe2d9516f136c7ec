// The bias channel: x[5], x[6], p[5], p[6]. No configuration number belongs to it.
#![tactic(auto)]

ghost use Rattle.std.specs.Prelude.{◌≡◌};
ghost use Rattle.call.specs.Said.{said, told, pair_reply};
ghost use Rattle.channel.specs.Answers.{verdict};
ghost use Rattle.bias.specs.Bias.{update_bias, biases, fresh_bias, bias_sound, updated_bias, on_bias};

use call::refusal::Refusal;
use call::{Outcome, State, bare, given};
use channel::ranges::{ACCELERATION, BIAS};
use channel::{Axis, Verdict, done};
use float::{is_finite, is_within};

// x[5], x[6], p[5], p[6].
#[derive(Clone, Copy)]
pub struct Bias {
    pub x: Axis,
    pub y: Axis,
}

const R_BIAS: f32 = 0.05 * 0.05; // (0.05 m/s²)²

impl State for Bias {
    ghost sound = { bias_sound };

    fn is_sound(self) -> bool {
        self.x.is_sound(BIAS) & self.y.is_sound(BIAS)
    }
}

// The Kalman update of both biases.
fn updated(z_ax: f32, z_ay: f32, s: Bias) -> Bias
    ensures { result ≡ updated_bias z_ax z_ay s }
{
    Bias {
        x: s.x.corrected(z_ax, R_BIAS),
        y: s.y.corrected(z_ay, R_BIAS),
    }
}

// The channel's calls.
impl Bias {
    // The channel of a fresh filter.
    pub fn fresh() -> Bias
        ensures { result ≡ fresh_bias }
    {
        let axis = Axis { x: 0.0, p: 1.0 };
        Bias { x: axis, y: axis }
    }

    // A measured acceleration at rest, by a variance of 0.05 squared.
    pub fn update(self, z_ax: f32, z_ay: f32) -> Outcome<Verdict, Bias>
        ensures { told verdict result ≡ on_bias (update_bias z_ax z_ay) self }
    {
        given(
            is_finite(z_ax) & is_finite(z_ay),
            is_within(z_ax, ACCELERATION) & is_within(z_ay, ACCELERATION),
            true,
        )
        .change(self, done(updated(z_ax, z_ay, self)))
    }

    // x[5] and x[6].
    pub fn values(self) -> Result<(f32, f32), Refusal>
        ensures { said pair_reply result ≡ (on_bias biases self).0 }
    {
        bare(true).read(self)?;
        Ok((self.x.x, self.y.x))
    }
}
