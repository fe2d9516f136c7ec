// What C and Rust link of the convoy box: a row of filters that lies in the caller's memory, the words
// of sixteen cars, and a measurement for one of them.
#![tactic(auto)]

ghost use Rattle.std.specs.Prelude.{◌≡◌};
ghost use Rattle.words.specs.Words.{Lent};
ghost use Rattle.words.specs.Filter.{loaded, numbers_of, counts_of};
ghost use Rattle.boundary_convoy.specs.Row.{asked_of, turn_of, car_in, turn_in, LentRow};

use convoy::{CARS, Measurement, row_refusal, take};
use ekf::Ekf;
use words::filter::{Counts, Numbers};
use words::record::{Stored, leave};

// A measurement by the number that the filter's own function has for it.
fn asked_of(operation: u32, z: &[f32; 6]) -> Option<Measurement>
    ensures { result ≡ asked_of operation z.now }
{
    match operation {
        2 => Some(Measurement::Position(z[0], z[1])),
        6 => Some(Measurement::Velocity(z[0], z[1])),
        7 => Some(Measurement::Speed(z[0])),
        9 => Some(Measurement::Yaw(z[0])),
        13 => Some(Measurement::Bias(z[0], z[1])),
        _ => None,
    }
}

// What is asked of a car alone, on its own words; what is no measurement gives 2.
fn ask(
    asked: Option<Measurement>,
    numbers: &mut Numbers,
    counts: &mut Counts,
    values: &mut [f32; 2],
    shown: &mut [u32; 4],
) -> u32
    ensures { Lent (turn_of asked (loaded numbers.old counts.old)) numbers_of counts_of numbers.old counts.old values.old shown.old result numbers.new counts.new values.new shown.new }
{
    match asked {
        Some(measurement) => leave(
            take(Ekf::load(numbers, counts), measurement),
            numbers,
            counts,
            values,
            shown,
        ),
        None => 2,
    }
}

// A measurement of one car in a row of `cars`: that car's words and no other's are looked at and
// written. Gives 0, or a refusal, and then nothing is written.
pub fn track_convoy(
    operation: u32,
    cars: usize,
    car: usize,
    numbers: &mut [Numbers; CARS],
    counts: &mut [Counts; CARS],
    arguments: &[f32; 6],
    values: &mut [f32; 2],
    shown: &mut [u32; 4],
) -> u32
    ensures { LentRow (turn_in cars car (asked_of operation arguments.now) (car_in numbers.old counts.old car)) car numbers.old counts.old values.old shown.old result numbers.new counts.new values.new shown.new }
{
    match row_refusal(cars, car) {
        Ok(()) => {
            let asked = asked_of(operation, arguments);
            ask(asked, &mut numbers[car], &mut counts[car], values, shown)
        }
        Err(refusal) => u32::from(refusal),
    }
}
