// Step 12 of `process_imu`: the IMU acceleration and the GPS one, blended by the confidence in the
// orientation. It holds no state.
#![tactic(auto)]

ghost use Rattle.std.specs.Prelude.{◌≡◌};
ghost use Rattle.call.specs.Said.{said, pair_reply};
ghost use Rattle.blend.specs.Blend.{weights_in_range, gps_weight, blend};

use call::given;
use call::refusal::Refusal;
use float::{is_between, is_finite};
use learner::ranges::takes_acceleration;

// The GPS weights at high, medium and low confidence.
#[derive(Clone, Copy)]
pub struct Weights {
    pub gps_weight_high: f32,
    pub gps_weight_medium: f32,
    pub gps_weight_low: f32,
}

// Every weight is 0 to 1.
fn weights_in_range(w: Weights) -> bool
    ensures { result ≡ weights_in_range w }
{
    (is_between(0.0, w.gps_weight_high, 1.0) & is_between(0.0, w.gps_weight_medium, 1.0))
        & is_between(0.0, w.gps_weight_low, 1.0)
}

// The GPS weight by the confidence.
fn gps_weight(confidence: f32, w: Weights) -> f32
    ensures { result ≡ gps_weight confidence w }
{
    if confidence > 0.8 {
        w.gps_weight_high
    } else if confidence > 0.3 {
        let t = (confidence - 0.3) / 0.5;
        w.gps_weight_medium * (1.0 - t) + w.gps_weight_high * t
    } else {
        let t = confidence / 0.3;
        w.gps_weight_low * (1.0 - t) + w.gps_weight_medium * t
    }
}

// The blended acceleration and the weight; without GPS the IMU value and weight 0.
pub fn blend(
    imu: f32,
    gps: Option<f32>,
    confidence: f32,
    weights: Weights,
) -> Result<(f32, f32), Refusal>
    ensures { said pair_reply result ≡ blend imu gps confidence weights }
{
    let acceleration = gps.unwrap_or(0.0);
    given(
        (is_finite(imu) & is_finite(acceleration)) & is_finite(confidence),
        (takes_acceleration(imu) & takes_acceleration(acceleration))
            & is_between(0.0, confidence, 1.0),
        weights_in_range(weights),
    )
    .passed()?;
    match gps {
        Some(acceleration) => {
            let weight = gps_weight(confidence, weights);
            Ok(((1.0 - weight) * imu + weight * acceleration, weight))
        }
        None => Ok((imu, 0.0)),
    }
}
