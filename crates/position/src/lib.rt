// The position channel: x[0], x[1], p[0], p[1], NIS sum and count, the last GPS pair, the position
// tallies and the run of rejections. Its calls also take `r_pos`, here r.
#![tactic(auto)]

ghost use Rattle.std.specs.Prelude.{◌≡◌};
ghost use Rattle.call.specs.Said.{said, told, value, pair_reply, answered};
ghost use Rattle.call.specs.Refusal.{number_in};
ghost use Rattle.call.specs.Port.{unread};
ghost use Rattle.channel.specs.Ranges.{is_measurement_noise};
ghost use Rattle.channel.specs.Answers.{verdict, tallies};
ghost use Rattle.position.specs.Position.{update_position, lock_position, skip_prediction, reset_nis_stats, position, position_gate_stats, get_nis_position_avg, get_gps_discrepancy, get_effective_pos_sigma, fresh_position, position_sound, position_gate_value, noted, reopened, position_away, position_taken, updated_position, with_variances, nis_average, discrepancy_of, nis_inflation, discrepancy_inflation, effective_sigma, on_position};

use call::refusal::Refusal;
use call::{Outcome, State, bare, given};
use channel::kalman::at_least;
use channel::ranges::{GIVEN_POSITION, NIS_SUM, POSITION, is_measurement_noise};
use channel::{Axis, Tallies, Verdict, done};
use float::root::root;
use float::{COUNT_STOP, count_float, is_between, is_finite, is_within};

// Gate values of accepted positions: their sum and their count.
#[derive(Clone, Copy)]
pub struct Nis {
    pub sum: f32,
    pub count: u32,
}

// The last accepted GPS position, and whether there is one.
// No Option: a sound channel has its numbers in range also while there is none, and a caller's words
// hold them.
#[derive(Clone, Copy)]
pub struct LastFix {
    pub x: f32,
    pub y: f32,
    pub known: bool,
}

// x[0], x[1], p[0], p[1] and what position updates leave behind.
#[derive(Clone, Copy)]
pub struct Position {
    pub x: Axis,
    pub y: Axis,
    pub nis: Nis,
    pub last_fix: LastFix,
    pub tallies: Tallies,
    // Fixes rejected in a row; the eighth begins a new run.
    pub run: u32,
}

const CHI2_GATE_POSITION: f32 = 16.0;

const POSITION_GATE: f32 = CHI2_GATE_POSITION * 2.0;

const POS_SIGMA_FLOOR: f32 = 2.5;

const RUN_LIMIT: u32 = 7;

const REOPENED_VARIANCE: f32 = 100.0;

impl State for Position {
    ghost sound = { position_sound };

    fn is_sound(self) -> bool {
        (self.x.is_sound(POSITION) & self.y.is_sound(POSITION))
            & (((is_between(0.0, self.nis.sum, NIS_SUM) & (self.nis.count <= COUNT_STOP))
                & (is_within(self.last_fix.x, POSITION) & is_within(self.last_fix.y, POSITION)))
                & (self.run <= RUN_LIMIT))
    }
}

// The squared innovations over their variances.
fn gate_value(s: Position, z_x: f32, z_y: f32, r: f32) -> f32
    ensures { result ≡ position_gate_value s z_x z_y r }
{
    let y_x = z_x - s.x.x;
    let y_y = z_y - s.y.x;
    let s_x = s.x.p + r;
    let s_y = s.y.p + r;
    (y_x * y_x) / s_x + (y_y * y_y) / s_y
}

// The NIS sum and count with one gate value more.
fn noted(n: Nis, mahal_sq: f32) -> Nis
    ensures { result ≡ noted n mahal_sq }
{
    if n.count < COUNT_STOP {
        Nis {
            sum: n.sum + mahal_sq,
            count: n.count + 1,
        }
    } else {
        n
    }
}

// The channel with these variances.
fn with_variances(s: Position, v: f32, w: f32) -> Position
    ensures { result ≡ with_variances v w s }
{
    Position {
        x: Axis { p: v, ..s.x },
        y: Axis { p: w, ..s.y },
        ..s
    }
}

// p[0] and p[1] become the larger of their value and 100.
fn reopened(s: Position) -> Position
    ensures { result ≡ reopened s }
{
    with_variances(
        s,
        at_least(REOPENED_VARIANCE, s.x.p),
        at_least(REOPENED_VARIANCE, s.y.p),
    )
}

// The channel after a rejection: the eighth in a row opens the gate again.
fn away(s: Position) -> Position
    ensures { result ≡ position_away s }
{
    let tallies = s.tallies.one_rejected();
    if s.run < RUN_LIMIT {
        Position {
            tallies,
            run: s.run + 1,
            ..s
        }
    } else {
        reopened(Position {
            tallies,
            run: 0,
            ..s
        })
    }
}

// The channel after an acceptance.
fn taken(s: Position, z_x: f32, z_y: f32, r: f32, mahal_sq: f32) -> Position
    ensures { result ≡ position_taken s z_x z_y r mahal_sq }
{
    Position {
        x: s.x.corrected(z_x, r),
        y: s.y.corrected(z_y, r),
        nis: noted(s.nis, mahal_sq),
        last_fix: LastFix {
            x: z_x,
            y: z_y,
            known: true,
        },
        tallies: s.tallies.one_accepted(),
        run: 0,
    }
}

// What a fix leaves, by the gate's verdict.
fn updated(z_x: f32, z_y: f32, r: f32, s: Position) -> Outcome<Verdict, Position>
    ensures { told verdict result ≡ answered (updated_position z_x z_y r s) }
{
    let mahal_sq = gate_value(s, z_x, z_y, r);
    if mahal_sq > POSITION_GATE {
        Outcome::answered(Verdict::Rejected(mahal_sq), away(s))
    } else {
        Outcome::answered(Verdict::Accepted(mahal_sq), taken(s, z_x, z_y, r, mahal_sq))
    }
}

// The average gate value, 2.0 at count 0.
fn nis_average(n: Nis) -> f32
    ensures { result ≡ nis_average n }
{
    let average = n.sum / count_float(n.count);
    if n.count > 0 { average } else { 2.0 }
}

// The distance from the last GPS pair, 0.0 without one.
fn discrepancy_of(s: Position) -> f32
    ensures { result ≡ discrepancy_of s }
{
    let dx = s.x.x - s.last_fix.x;
    let dy = s.y.x - s.last_fix.y;
    let distance = root(dx * dx + dy * dy);
    if s.last_fix.known { distance } else { 0.0 }
}

fn nis_inflation(nis_avg: f32) -> f32
    ensures { result ≡ nis_inflation nis_avg }
{
    let inflation = root(nis_avg / 2.0);
    if nis_avg > 2.0 { inflation } else { 1.0 }
}

fn discrepancy_inflation(discrepancy: f32) -> f32
    ensures { result ≡ discrepancy_inflation discrepancy }
{
    if discrepancy > 5.0 {
        1.0 + (discrepancy - 5.0) / 10.0
    } else {
        1.0
    }
}

// The base sigma, inflated by the NIS average and by the discrepancy, but at least the floor.
fn effective_sigma(s: Position) -> f32
    ensures { result ≡ effective_sigma s }
{
    let base_sigma = root(s.x.p + s.y.p);
    let inflated_sigma = base_sigma
        * nis_inflation(nis_average(s.nis))
        * discrepancy_inflation(discrepancy_of(s));
    at_least(POS_SIGMA_FLOOR, inflated_sigma)
}

// Whether a reader may show the channel.
fn read(s: Position, r: f32) -> Result<(), Refusal>
    ensures { number_in result ≡ unread (is_measurement_noise r) (position_sound s) }
{
    bare(is_measurement_noise(r)).read(s)
}

// The channel's calls, each with `r_pos`.
impl Position {
    // The channel of a fresh filter.
    pub fn fresh() -> Position
        ensures { result ≡ fresh_position }
    {
        let axis = Axis { x: 0.0, p: 100.0 };
        Position {
            x: axis,
            y: axis,
            nis: Nis { sum: 0.0, count: 0 },
            last_fix: LastFix {
                x: 0.0,
                y: 0.0,
                known: false,
            },
            tallies: Tallies::none(),
            run: 0,
        }
    }

    // A fix: rejected by the gate, which raises one tally, or accepted, taken in and kept.
    pub fn update(self, r: f32, z_x: f32, z_y: f32) -> Outcome<Verdict, Position>
        ensures { told verdict result ≡ on_position r (update_position z_x z_y) self }
    {
        given(
            is_finite(z_x) & is_finite(z_y),
            is_within(z_x, GIVEN_POSITION) & is_within(z_y, GIVEN_POSITION),
            is_measurement_noise(r),
        )
        .change(self, updated(z_x, z_y, r, self))
    }

    // p[0] and p[1] become 1.0.
    pub fn lock(self, r: f32) -> Outcome<Verdict, Position>
        ensures { told verdict result ≡ on_position r lock_position self }
    {
        bare(is_measurement_noise(r)).change(self, done(with_variances(self, 1.0, 1.0)))
    }

    // p[0] and p[1] grow by 1e-6.
    pub fn skip_prediction(self, r: f32) -> Outcome<Verdict, Position>
        ensures { told verdict result ≡ on_position r skip_prediction self }
    {
        bare(is_measurement_noise(r)).change(
            self,
            done(with_variances(self, self.x.p + 1.0e-6, self.y.p + 1.0e-6)),
        )
    }

    // The NIS sum and count become 0.
    pub fn reset_nis_stats(self, r: f32) -> Outcome<Verdict, Position>
        ensures { told verdict result ≡ on_position r reset_nis_stats self }
    {
        let nis = Nis { sum: 0.0, count: 0 };
        bare(is_measurement_noise(r)).change(self, done(Position { nis, ..self }))
    }

    // x[0] and x[1].
    pub fn values(self, r: f32) -> Result<(f32, f32), Refusal>
        ensures { said pair_reply result ≡ (on_position r position self).0 }
    {
        read(self, r)?;
        Ok((self.x.x, self.y.x))
    }

    // The fixes accepted and rejected.
    pub fn gate_stats(self, r: f32) -> Result<Tallies, Refusal>
        ensures { said tallies result ≡ (on_position r position_gate_stats self).0 }
    {
        read(self, r)?;
        Ok(self.tallies)
    }

    // The NIS sum over its count, 2.0 at count 0.
    pub fn nis_avg(self, r: f32) -> Result<f32, Refusal>
        ensures { said value result ≡ (on_position r get_nis_position_avg self).0 }
    {
        read(self, r)?;
        Ok(nis_average(self.nis))
    }

    // The distance from the last GPS pair, 0.0 without one.
    pub fn gps_discrepancy(self, r: f32) -> Result<f32, Refusal>
        ensures { said value result ≡ (on_position r get_gps_discrepancy self).0 }
    {
        read(self, r)?;
        Ok(discrepancy_of(self))
    }

    // The position sigma, inflated, at least 2.5.
    pub fn effective_pos_sigma(self, r: f32) -> Result<f32, Refusal>
        ensures { said value result ≡ (on_position r get_effective_pos_sigma self).0 }
    {
        read(self, r)?;
        Ok(effective_sigma(self))
    }
}
