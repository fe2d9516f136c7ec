// A number of the state with its variance, and the Kalman update of it.
ghost use Rattle.std.specs.Prelude.{◌≡◌};
ghost use Rattle.float.specs.Value.{within};
ghost use Rattle.channel.specs.Kalman.{axis_sound, corrected, at_least};

use crate::Axis;
use crate::ranges::VARIANCE;
use float::{is_between, is_within};

impl Axis {
    // The number is at most `limit` in size, and the variance is one.
    pub fn is_sound(self, limit: f32) -> bool
        ensures { result ≡ axis_sound (λ v. within v limit) self }
    {
        is_within(self.x, limit) & is_between(0.0, self.p, VARIANCE)
    }

    // The number moves by the gain times the innovation, and its variance shrinks by the gain.
    pub fn corrected(self, z: f32, r: f32) -> Axis
        ensures { result ≡ corrected self z r }
    {
        let s = self.p + r;
        let k = self.p / s;
        Axis {
            x: self.x + k * (z - self.x),
            p: self.p * (1.0 - k),
        }
    }
}

// The Rust's `v.max(low)` for a `low` that is no NaN and no zero.
pub fn at_least(low: f32, v: f32) -> f32
    ensures { result ≡ at_least low v }
{
    if v > low { v } else { low }
}
