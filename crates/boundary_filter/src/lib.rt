// Made from docs/boundary.txt by tools/boundary.
// What C and Rust link of the filter: one function with an operation number. The filter lies in the caller's memory, 25 numbers
// and 10 counts. It gives document 01's number, 0 for an answer; a refused call writes nothing.
#![tactic(auto)]

ghost use Rattle.words.specs.Words.{Lent};
ghost use Rattle.words.specs.Filter.{loaded, numbers_of, counts_of};
ghost use Rattle.boundary_filter.specs.Filter.{called};

use bias::Bias;
use ekf::{Ekf, EkfConfig};
use position::Position;
use velocity::Velocity;
use words::answer::show;
use words::channels::Motion;
use words::filter::{Counts, Numbers, load_config};
use words::record::{Stored, leave};
use yaw::Yaw;

pub fn track_ekf(
    operation: u32,
    numbers: &mut Numbers,
    counts: &mut Counts,
    arguments: &[f32; 6],
    words: &[u32; 4],
    values: &mut [f32; 2],
    shown: &mut [u32; 4],
) -> u32
    ensures { Lent (called operation arguments.now words.now (loaded numbers.old counts.old)) numbers_of counts_of numbers.old counts.old values.old shown.old result numbers.new counts.new values.new shown.new }
{
    match operation {
        0 => leave(
            Ekf::with_config(load_config(numbers)),
            numbers,
            counts,
            values,
            shown,
        ),
        1 => leave(
            Motion::load(numbers, counts).predict(
                words[0],
                arguments[0],
                arguments[1],
                arguments[2],
                arguments[3],
            ),
            numbers,
            counts,
            values,
            shown,
        ),
        2 => leave(
            Position::load(numbers, counts).update(numbers[17], arguments[0], arguments[1]),
            numbers,
            counts,
            values,
            shown,
        ),
        3 => leave(
            Position::load(numbers, counts).lock(numbers[17]),
            numbers,
            counts,
            values,
            shown,
        ),
        4 => leave(
            Position::load(numbers, counts).skip_prediction(numbers[17]),
            numbers,
            counts,
            values,
            shown,
        ),
        5 => leave(
            Position::load(numbers, counts).reset_nis_stats(numbers[17]),
            numbers,
            counts,
            values,
            shown,
        ),
        6 => leave(
            Velocity::load(numbers, counts).update(numbers[18], arguments[0], arguments[1]),
            numbers,
            counts,
            values,
            shown,
        ),
        7 => leave(
            Velocity::load(numbers, counts).update_speed(numbers[18], arguments[0]),
            numbers,
            counts,
            values,
            shown,
        ),
        8 => leave(
            Velocity::load(numbers, counts).zupt(numbers[18]),
            numbers,
            counts,
            values,
            shown,
        ),
        9 => leave(
            Yaw::load(numbers, counts).update(numbers[19], arguments[0]),
            numbers,
            counts,
            values,
            shown,
        ),
        10 => leave(
            Yaw::load(numbers, counts).update_soft(numbers[19], arguments[0], arguments[1]),
            numbers,
            counts,
            values,
            shown,
        ),
        11 => leave(
            Yaw::load(numbers, counts).lock(numbers[19]),
            numbers,
            counts,
            values,
            shown,
        ),
        12 => leave(
            Yaw::load(numbers, counts).store_moving(numbers[19], arguments[0]),
            numbers,
            counts,
            values,
            shown,
        ),
        13 => leave(
            Bias::load(numbers, counts).update(arguments[0], arguments[1]),
            numbers,
            counts,
            values,
            shown,
        ),
        14 => leave(
            Ekf::load(numbers, counts).reset_gate_stats(),
            numbers,
            counts,
            values,
            shown,
        ),
        15 => leave(
            Ekf::with_config(EkfConfig::default()),
            numbers,
            counts,
            values,
            shown,
        ),
        16 => show(
            Position::load(numbers, counts).values(numbers[17]),
            values,
            shown,
        ),
        17 => show(
            Position::load(numbers, counts).gate_stats(numbers[17]),
            values,
            shown,
        ),
        18 => show(
            Position::load(numbers, counts).nis_avg(numbers[17]),
            values,
            shown,
        ),
        19 => show(
            Position::load(numbers, counts).gps_discrepancy(numbers[17]),
            values,
            shown,
        ),
        20 => show(
            Position::load(numbers, counts).effective_pos_sigma(numbers[17]),
            values,
            shown,
        ),
        21 => show(
            Velocity::load(numbers, counts).values(numbers[18]),
            values,
            shown,
        ),
        22 => show(
            Velocity::load(numbers, counts).speed(numbers[18]),
            values,
            shown,
        ),
        23 => show(
            Velocity::load(numbers, counts).gate_stats(numbers[18]),
            values,
            shown,
        ),
        24 => show(Yaw::load(numbers, counts).value(numbers[19]), values, shown),
        25 => show(
            Yaw::load(numbers, counts).gate_stats(numbers[19]),
            values,
            shown,
        ),
        26 => show(
            Yaw::load(numbers, counts).last_moving(numbers[19]),
            values,
            shown,
        ),
        27 => show(Bias::load(numbers, counts).values(), values, shown),
        _ => 2,
    }
}
