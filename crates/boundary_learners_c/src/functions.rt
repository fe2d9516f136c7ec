// Made from crates/boundary_learners by tools/boundary.
ghost use Rattle.std.specs.Prelude.{◌≡◌};
ghost use Rattle.call.specs.Said.{number};
ghost use Rattle.words.specs.Words.{written};
ghost use Rattle.boundary_learners.specs.Functions.{float_call, trig_call, blend_call};

// The wrap (operation 0) or the root (1) of the argument.
#[unsafe(no_mangle)]
pub extern "C" fn track_float(operation: u32, argument: f32, answer: &mut [f32; 1]) -> u32
    ensures { (result ≡ number (float_call operation argument)) × (answer.new ≡ written (float_call operation argument) answer.old) }
{
    boundary_learners::functions::track_float(operation, argument, answer)
}

// The sine (operation 0) or the cosine (1) of a, or the arc tangent (2) of a and b; the sine (3) or the
// cosine (4) of a, read from the tables.
#[unsafe(no_mangle)]
pub extern "C" fn track_trig(operation: u32, a: f32, b: f32, answer: &mut [f32; 1]) -> u32
    ensures { (result ≡ number (trig_call operation a b)) × (answer.new ≡ written (trig_call operation a b) answer.old) }
{
    boundary_learners::functions::track_trig(operation, a, b, answer)
}

// The blend, from the caller's memory into it.
#[unsafe(no_mangle)]
pub extern "C" fn track_blend(
    imu: f32,
    has_gps: u32,
    gps: f32,
    confidence: f32,
    weights: &[f32; 3],
    values: &mut [f32; 2],
) -> u32
    ensures { (result ≡ number (blend_call imu has_gps gps confidence weights.now)) × (values.new ≡ written (blend_call imu has_gps gps confidence weights.now) values.old) }
{
    boundary_learners::functions::track_blend(imu, has_gps, gps, confidence, weights, values)
}
