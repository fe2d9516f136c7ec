// Made from crates/boundary_learners by tools/boundary.
ghost use Rattle.words.specs.Words.{Lent};
ghost use Rattle.boundary_learners.specs.Tilt.{loaded, numbers_of, counts_of, called};

#[unsafe(no_mangle)]
pub extern "C" fn track_tilt(
    operation: u32,
    numbers: &mut [f32; 6],
    counts: &mut [u32; 2],
    arguments: &[f32; 6],
    words: &[u32; 4],
    values: &mut [f32; 2],
    shown: &mut [u32; 4],
) -> u32
    ensures { Lent (called operation arguments.now words.now (loaded numbers.old counts.old)) numbers_of counts_of numbers.old counts.old values.old shown.old result numbers.new counts.new values.new shown.new }
{
    boundary_learners::tilt_estimator::track_tilt(
        operation, numbers, counts, arguments, words, values, shown,
    )
}
