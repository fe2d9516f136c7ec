// The low-pass of `filter.rs`: a second-order Butterworth filter that its caller holds by value.
#![tactic(auto)]

ghost use Rattle.std.specs.Prelude.{◌≡◌};
ghost use Rattle.call.specs.Said.{told, done_reply, value};
ghost use Rattle.lowpass.specs.Ranges.{takes_design};
ghost use Rattle.lowpass.specs.Lowpass.{process, reset_to, sound, zeros, designed, made, on_lowpass};

use call::{Outcome, State, given, tested};
use float::wrap::TURN;
use float::{is_between, is_finite, is_within};
use learner::ranges::{is_stored, takes_acceleration};
use trig::sine_and_cosine;

// 2.0 * FRAC_1_SQRT_2.
const TWO_Q: f32 = 2.0 * 0.70710678;

// Sound: coefficients in size. Parameters: the least cutoff, and the rate.
const COEFFICIENT: f32 = 4.0;

const LEAST_CUTOFF: f32 = 0.01;

const RATE: f32 = 1.0e5;

// The normalized coefficients, and the previous samples.
#[derive(Clone, Copy)]
pub struct BiquadFilter {
    pub b0: f32,
    pub b1: f32,
    pub b2: f32,
    pub a1: f32,
    pub a2: f32,
    pub x1: f32,
    pub x2: f32,
    pub y1: f32,
    pub y2: f32,
}

// The cutoff is at least 0.01 and strictly below half the rate, which is 1 to 1e5.
fn takes_design(cutoff_hz: f32, sample_rate_hz: f32) -> bool
    ensures { result ≡ takes_design cutoff_hz sample_rate_hz }
{
    ((LEAST_CUTOFF <= cutoff_hz) & is_between(1.0, sample_rate_hz, RATE))
        & (cutoff_hz < sample_rate_hz / 2.0)
}

impl State for BiquadFilter {
    ghost sound = { sound };

    fn is_sound(self) -> bool {
        (((is_within(self.b0, COEFFICIENT) & is_within(self.b1, COEFFICIENT))
            & is_within(self.b2, COEFFICIENT))
            & (is_within(self.a1, COEFFICIENT) & is_within(self.a2, COEFFICIENT)))
            & ((is_stored(self.x1) & is_stored(self.x2))
                & (is_stored(self.y1) & is_stored(self.y2)))
    }
}

// The low-pass of a cutoff and a rate, with samples of 0.
fn designed(cutoff_hz: f32, sample_rate_hz: f32) -> BiquadFilter
    ensures { result ≡ designed cutoff_hz sample_rate_hz }
{
    let omega = TURN * cutoff_hz / sample_rate_hz;
    let both = sine_and_cosine(omega);
    let cos_omega = both.cosine;
    let alpha = both.sine / TWO_Q;
    let b0 = (1.0 - cos_omega) / 2.0;
    let b1 = 1.0 - cos_omega;
    let b2 = (1.0 - cos_omega) / 2.0;
    let a0 = 1.0 + alpha;
    let a1 = -2.0 * cos_omega;
    let a2 = 1.0 - alpha;
    BiquadFilter {
        b0: b0 / a0,
        b1: b1 / a0,
        b2: b2 / a0,
        a1: a1 / a0,
        a2: a2 / a0,
        x1: 0.0,
        x2: 0.0,
        y1: 0.0,
        y2: 0.0,
    }
}

// The low-pass of zeros.
fn zeros() -> BiquadFilter
    ensures { result ≡ zeros }
{
    BiquadFilter {
        b0: 0.0,
        b1: 0.0,
        b2: 0.0,
        a1: 0.0,
        a2: 0.0,
        x1: 0.0,
        x2: 0.0,
        y1: 0.0,
        y2: 0.0,
    }
}

impl BiquadFilter {
    // A low-pass by cutoff and rate; for a bad one 3 with a low-pass of zeros.
    pub fn new_lowpass(cutoff_hz: f32, sample_rate_hz: f32) -> Outcome<(), BiquadFilter>
        ensures { told done_reply result ≡ made cutoff_hz sample_rate_hz }
    {
        let filter = designed(cutoff_hz, sample_rate_hz);
        let config = takes_design(cutoff_hz, sample_rate_hz);
        Outcome::answered((), filter).settled(
            tested(true, true, config, true, true, filter.is_sound()),
            zeros(),
        )
    }

    // One sample: answers the filtered one.
    pub fn process(self, input: f32) -> Outcome<f32, BiquadFilter>
        ensures { told value result ≡ on_lowpass (process input) self }
    {
        let output = self.b0 * input + self.b1 * self.x1 + self.b2 * self.x2
            - self.a1 * self.y1
            - self.a2 * self.y2;
        let next = BiquadFilter {
            x1: input,
            x2: self.x1,
            y1: output,
            y2: self.y1,
            ..self
        };
        given(is_finite(input), takes_acceleration(input), true).change(
            self,
            Outcome::answered(output, next),
        )
    }

    // The samples become a steady value.
    pub fn reset_to(self, value: f32) -> Outcome<(), BiquadFilter>
        ensures { told done_reply result ≡ on_lowpass (reset_to value) self }
    {
        let next = BiquadFilter {
            x1: value,
            x2: value,
            y1: value,
            y2: value,
            ..self
        };
        given(is_finite(value), takes_acceleration(value), true).change(
            self,
            Outcome::answered((), next),
        )
    }
}
