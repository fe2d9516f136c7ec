// GPS acceleration, from `fusion.rs`: the acceleration between two fixes, and the rate of fixes. Times
// are whole milliseconds, and any 64 bits are one. The learner is held by value and handed back with
// each answer.
#![tactic(auto)]

ghost use Rattle.std.specs.Prelude.{◌≡◌};
ghost use Rattle.call.specs.Said.{said, told, answered, done_reply, value, option};
ghost use Rattle.gps.specs.Gps.{update, update_rate, advance_time, get_rate, sound, seconds, usable, acts, takes_count, fresh, updated, rated, on_gps};

use call::refusal::Refusal;
use call::{Outcome, State, bare, given};
use float::{COUNT_STOP, count_float, is_finite};
use learner::ranges::{is_stored, takes_speed, takes_step};

// The longest interval of a rate, in milliseconds: up to it f32 has every whole number.
const LONGEST: u64 = 16777216;

// A value beside a flag stands also while the flag is false: what is sound looks at each value then
// too, and the caller holds it.
#[derive(Clone, Copy)]
pub struct GpsAcceleration {
    pub prev_speed: f32,
    pub prev_time: u64,
    pub has_prev_fix: bool,
    pub accel_lon: f32,
    pub valid: bool,
    pub gps_rate: f32,
    pub time_since_fix: f32,
    pub rate_ema: f32,
    pub last_fix_count: u32,
    pub last_rate_time: u64,
    pub has_last_rate: bool,
}

impl State for GpsAcceleration {
    ghost sound = { sound };

    // Every stored float; the times and `last_fix_count` are free.
    fn is_sound(self) -> bool {
        (is_stored(self.prev_speed) & is_stored(self.accel_lon))
            & (is_stored(self.gps_rate)
                & (is_stored(self.time_since_fix) & is_stored(self.rate_ema)))
    }
}

// An interval in seconds.
fn seconds(interval: u64) -> f32
    ensures { result ≡ seconds interval }
{
    count_float(interval.min(LONGEST) as u32) / 1000.0
}

// There is a previous fix, and its interval gives an acceleration.
fn usable(has_prev_fix: bool, interval: u64) -> bool
    ensures { result ≡ usable has_prev_fix interval }
{
    has_prev_fix & ((interval > 20) & (interval < 500))
}

// There is a previous count, and its interval gives a rate.
fn acts(has_last_rate: bool, interval: u64) -> bool
    ensures { result ≡ acts has_last_rate interval }
{
    has_last_rate & (interval >= 1000)
}

// What a fix leaves.
fn updated(s: GpsAcceleration, speed: f32, time: u64) -> Outcome<Option<f32>, GpsAcceleration>
    ensures { told option result ≡ answered (updated speed time s) }
{
    let interval = time.saturating_sub(s.prev_time);
    let fixed = GpsAcceleration {
        prev_speed: speed,
        prev_time: time,
        has_prev_fix: true,
        time_since_fix: 0.0,
        ..s
    };
    if usable(s.has_prev_fix, interval) {
        let accel_lon = (speed - s.prev_speed) / seconds(interval);
        let accelerated = GpsAcceleration {
            accel_lon,
            valid: true,
            ..fixed
        };
        Outcome::answered(Some(accel_lon), accelerated)
    } else {
        Outcome::answered(None, fixed)
    }
}

// Where a count of fixes acts, the difference of the times is in its range, and so is that of the
// counts.
fn takes_count(s: GpsAcceleration, fix_count: u32, time: u64) -> bool
    ensures { result ≡ takes_count fix_count time s }
{
    let interval = time.saturating_sub(s.last_rate_time);
    let countable = fix_count.saturating_sub(s.last_fix_count) <= COUNT_STOP;
    !acts(s.has_last_rate, interval) | ((interval <= LONGEST) & countable)
}

// The learner after a count of fixes.
fn rated(s: GpsAcceleration, fix_count: u32, time: u64) -> GpsAcceleration
    ensures { result ≡ rated fix_count time s }
{
    let interval = time.saturating_sub(s.last_rate_time);
    let counted = GpsAcceleration {
        last_fix_count: fix_count,
        last_rate_time: time,
        has_last_rate: true,
        ..s
    };
    if acts(s.has_last_rate, interval) {
        let fixes = fix_count.saturating_sub(s.last_fix_count);
        let instant_rate = count_float(fixes) / seconds(interval);
        let rate_ema = 0.3 * instant_rate + 0.7 * s.rate_ema;
        GpsAcceleration {
            gps_rate: rate_ema,
            rate_ema,
            ..counted
        }
    } else if s.has_last_rate {
        s
    } else {
        counted
    }
}

impl GpsAcceleration {
    // A fresh learner.
    pub fn new() -> GpsAcceleration
        ensures { result ≡ fresh }
    {
        GpsAcceleration {
            prev_speed: 0.0,
            prev_time: 0,
            has_prev_fix: false,
            accel_lon: 0.0,
            valid: false,
            gps_rate: 0.0,
            time_since_fix: 0.0,
            rate_ema: 0.0,
            last_fix_count: 0,
            last_rate_time: 0,
            has_last_rate: false,
        }
    }

    // A fix: answers either an acceleration or nothing.
    pub fn update(self, speed: f32, time: u64) -> Outcome<Option<f32>, GpsAcceleration>
        ensures { told option result ≡ on_gps (update speed time) self }
    {
        given(is_finite(speed), takes_speed(speed), true).change(self, updated(self, speed, time))
    }

    // A count of fixes: learns their rate.
    pub fn update_rate(self, fix_count: u32, time: u64) -> Outcome<(), GpsAcceleration>
        ensures { told done_reply result ≡ on_gps (update_rate fix_count time) self }
    {
        given(true, takes_count(self, fix_count, time), true).change(
            self,
            Outcome::answered((), rated(self, fix_count, time)),
        )
    }

    // Time without a fix.
    pub fn advance_time(self, dt: f32) -> Outcome<(), GpsAcceleration>
        ensures { told done_reply result ≡ on_gps (advance_time dt) self }
    {
        let time_since_fix = self.time_since_fix + dt;
        let next = GpsAcceleration {
            time_since_fix,
            valid: self.valid & !(time_since_fix > 0.5),
            ..self
        };
        given(is_finite(dt), takes_step(dt), true).change(self, Outcome::answered((), next))
    }

    // The rate of fixes.
    pub fn get_rate(self) -> Result<f32, Refusal>
        ensures { said value result ≡ (on_gps get_rate self).0 }
    {
        bare(true).read(self)?;
        Ok(self.gps_rate)
    }
}
