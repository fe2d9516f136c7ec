// What C and Rust link of the low-pass, the learners and the functions without a record: one function
// a component, with an operation number. Each gives document 01's number, 0 for an answer. A refused
// call writes nothing. docs/BOUNDARY.md has the tables.
#![tactic(auto)]

ghost use Rattle.std.specs.Prelude.{◌≡◌};
ghost use Rattle.call.specs.Said.{said};
ghost use Rattle.tilt.specs.Answers.{offsets_reply};
ghost use Rattle.words.specs.Words.{Shown};
ghost use Rattle.boundary_learners.specs.Index.{index_word};
ghost use Rattle.boundary_learners.specs.Wide.{wide, low, high};

pub mod biquad_filter; // biquad_filter.rt: the low-pass
pub mod functions; // functions.rt: wrap and root, the trigonometry, the blend
pub mod gps_acceleration; // gps_acceleration.rt: GPS acceleration
pub mod heading_aligner; // heading_aligner.rt: the heading aligner
pub mod orientation_corrector; // orientation_corrector.rt: the orientation corrector
pub mod tilt_estimator; // tilt_estimator.rt: the tilt estimator
pub mod yaw_rate_calibrator; // yaw_rate_calibrator.rt: the yaw rate calibrator

use call::refusal::Refusal;
use tilt::Offsets;
use words::answer::Shows;

// This crate's name for saying where a learner's record lies.
pub struct Learners;

// Writes what an offset shows and gives 0, or the refusal's number. No impl of `Shows`, since that
// would have to stand beside the trait or the type.
fn show_offsets(
    answer: Result<Offsets, Refusal>,
    values: &mut [f32; 2],
    shown: &mut [u32; 4],
) -> u32
    ensures { Shown (said offsets_reply answer) values.old shown.old result values.new shown.new }
{
    match answer {
        Ok(offsets) => {
            (offsets.x, offsets.y).write(values, shown);
            shown[1] = offsets.valid as u32;
            0
        }
        Err(refusal) => u32::from(refusal),
    }
}

// A word as the ring's index.
fn index_of(word: u32) -> usize
    ensures { result ≡ word }
{
    word as usize
}

// The ring's index as a word. An answered call leaves one below 20.
fn index_word(index: usize) -> u32
    ensures { result ≡ index_word index }
{
    if index < 20 { index as u32 } else { 0 }
}

// Two words as a number of 64 bits, the low one first; the library has no such conversion.
fn wide_of(low: u32, high: u32) -> u64
    ensures { result ≡ wide low high }
{
    (low as u64) + 4294967296 * (high as u64)
}

// The low word of a number of 64 bits.
fn low_word(n: u64) -> u32
    ensures { result ≡ low n }
{
    (n % 4294967296) as u32
}

// The high word of a number of 64 bits.
fn high_word(n: u64) -> u32
    ensures { result ≡ high n }
{
    (n / 4294967296) as u32
}
