// The functions that have no record: wrap and root, the trigonometry, and the blend.
ghost use Rattle.std.specs.Prelude.{◌≡◌};
ghost use Rattle.call.specs.Said.{said, value, number};
ghost use Rattle.words.specs.Words.{puts, written};
ghost use Rattle.boundary_learners.specs.Functions.{unknown, float_call, trig_call, gps_of, weights_of, blend_call};

use blend::Weights;
use call::answer::Answer;
use call::refusal::Refusal;
use float::is_finite;

// What an unknown operation gives.
fn unknown(finite: bool) -> Result<f32, Refusal>
    ensures { said value result ≡ unknown finite }
{
    Err(if finite {
        Refusal::OutOfRange
    } else {
        Refusal::NotFinite
    })
}

// An answer of N values, which the functions without a record write alone.
trait Values<const N: usize>: Answer {
    fn write(self, values: &mut [f32; N])
        ensures { values.new ≡ puts values.old 0 (Self.reply self).values };
}

impl Values<1> for f32 {
    fn write(self, values: &mut [f32; 1]) {
        values[0] = self;
    }
}

impl Values<2> for (f32, f32) {
    fn write(self, values: &mut [f32; 2]) {
        values[0] = self.0;
        values[1] = self.1;
    }
}

// Writes an answer's values and gives 0, or the refusal's number.
fn hand<A: Values<N>, const N: usize>(answer: Result<A, Refusal>, values: &mut [f32; N]) -> u32
    ensures { (result ≡ number (said A.reply answer)) × (values.new ≡ written (said A.reply answer) values.old) }
{
    match answer {
        Ok(answer) => {
            answer.write(values);
            0
        }
        Err(refusal) => u32::from(refusal),
    }
}

// The answer to an operation of `track_float`.
fn float_answer(operation: u32, a: f32) -> Result<f32, Refusal>
    ensures { said value result ≡ float_call operation a }
{
    match operation {
        0 => float::wrap::wrap_angle(a),
        1 => float::root::square_root(a),
        _ => unknown(is_finite(a)),
    }
}

// The wrap (operation 0) or the root (1) of the argument.
pub fn track_float(operation: u32, argument: f32, answer: &mut [f32; 1]) -> u32
    ensures { (result ≡ number (float_call operation argument)) × (answer.new ≡ written (float_call operation argument) answer.old) }
{
    hand(float_answer(operation, argument), answer)
}

// The answer to an operation of `track_trig`.
fn trig_answer(operation: u32, a: f32, b: f32) -> Result<f32, Refusal>
    ensures { said value result ≡ trig_call operation a b }
{
    match operation {
        0 => trig::sin(a),
        1 => trig::cos(a),
        2 => trig::tangent::atan2(a, b),
        3 => trig::table::sin(a),
        4 => trig::table::cos(a),
        _ => unknown(is_finite(a) & is_finite(b)),
    }
}

// The sine (operation 0) or the cosine (1) of a, or the arc tangent (2) of a and b; the sine (3) or the
// cosine (4) of a, read from the tables.
pub fn track_trig(operation: u32, a: f32, b: f32, answer: &mut [f32; 1]) -> u32
    ensures { (result ≡ number (trig_call operation a b)) × (answer.new ≡ written (trig_call operation a b) answer.old) }
{
    hand(trig_answer(operation, a, b), answer)
}

fn gps_of(known: bool, acceleration: f32) -> Option<f32>
    ensures { result ≡ gps_of known acceleration }
{
    known.then_some(acceleration)
}

fn weights_of(w: &[f32; 3]) -> Weights
    ensures { result ≡ weights_of w.now }
{
    Weights {
        gps_weight_high: w[0],
        gps_weight_medium: w[1],
        gps_weight_low: w[2],
    }
}

// The blend, from the caller's memory into it.
pub fn track_blend(
    imu: f32,
    has_gps: u32,
    gps: f32,
    confidence: f32,
    weights: &[f32; 3],
    values: &mut [f32; 2],
) -> u32
    ensures { (result ≡ number (blend_call imu has_gps gps confidence weights.now)) × (values.new ≡ written (blend_call imu has_gps gps confidence weights.now) values.old) }
{
    let acceleration = gps_of(has_gps != 0, gps);
    let w = weights_of(weights);
    hand(blend::blend(imu, acceleration, confidence, w), values)
}
