// The convoy box: a row of filters, one for each of up to sixteen cars, and a measurement for one of
// them. It stands above the filter and knows of it what its calls promise.
#![tactic(auto)]

ghost use Rattle.std.specs.Prelude.{◌≡◌};
ghost use Rattle.call.specs.Refusal.{number_in};
ghost use Rattle.call.specs.Said.{told};
ghost use Rattle.channel.specs.Answers.{verdict};
ghost use Rattle.convoy.specs.Row.{row_refusal};
ghost use Rattle.convoy.specs.Convoy.{taken};

use call::Outcome;
use call::refusal::Refusal;
use channel::Verdict;
use ekf::Ekf;

// How many cars a row may have.
pub const CARS: usize = 16;

// What is measured of a car, with its numbers in it.
#[derive(Clone, Copy)]
pub enum Measurement {
    Position(f32, f32),
    Velocity(f32, f32),
    Speed(f32),
    Yaw(f32),
    Bias(f32, f32),
}

// A row longer than `CARS` is refused; then a car number not below the row's length.
#[tactic(auto, unfolding(crate::specs::Row::row_refusal))]
pub fn row_refusal(length: usize, car: usize) -> Result<(), Refusal>
    ensures { number_in result ≡ row_refusal length car }
{
    if CARS < length {
        return Err(Refusal::LongRow);
    }
    if length <= car {
        return Err(Refusal::NoSuchCar);
    }
    Ok(())
}

// A measurement of a car alone.
#[tactic(auto, unfolding(crate::specs::Convoy::taken))]
pub fn take(filter: Ekf, measurement: Measurement) -> Outcome<Verdict, Ekf>
    ensures { told verdict result ≡ taken measurement filter }
{
    match measurement {
        Measurement::Position(z_x, z_y) => filter.update_position(z_x, z_y),
        Measurement::Velocity(z_vx, z_vy) => filter.update_velocity(z_vx, z_vy),
        Measurement::Speed(z_speed) => filter.update_speed(z_speed),
        Measurement::Yaw(z_yaw) => filter.update_yaw(z_yaw),
        Measurement::Bias(z_ax, z_ay) => filter.update_bias(z_ax, z_ay),
    }
}
