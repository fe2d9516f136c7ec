// What a call of the filter changes, in the words of the whole: one channel, or what a prediction
// moves. Both flags are written as 0 or 1: so a filter is left there in which nothing else has changed.
ghost use Rattle.std.specs.Prelude.{◌≡◌};
ghost use Rattle.call.specs.Said.{told};
ghost use Rattle.call.specs.Port.{inside};
ghost use Rattle.channel.specs.Answers.{verdict};
ghost use Rattle.ekf.specs.Predict.{on_predict};
ghost use Rattle.ekf.specs.Filter.{with_position, with_velocity, with_yaw, with_bias, with_motion};
ghost use Rattle.words.specs.Filter.{loaded, numbers_of, counts_of};

use crate::filter::{COUNTS, Counts, NUMBERS, Numbers};
use crate::record::Stored;
use bias::Bias;
use call::Outcome;
use channel::{Axis, Tallies, Verdict};
use ekf::Ekf;
use position::{LastFix, Nis, Position};
use velocity::Velocity;
use yaw::{MovingYaw, Yaw};

impl Stored<(), NUMBERS, COUNTS> for Position {
    type Whole = Ekf;

    ghost loaded = { loaded };

    ghost numbers_of = { numbers_of };

    ghost counts_of = { counts_of };

    ghost part = { λ f. f.position };

    ghost put = { with_position };

    fn load(n: &Numbers, c: &Counts) -> Position {
        Position {
            x: Axis { x: n[0], p: n[7] },
            y: Axis { x: n[1], p: n[8] },
            nis: Nis {
                sum: n[21],
                count: c[6],
            },
            last_fix: LastFix {
                x: n[22],
                y: n[23],
                known: c[7] != 0,
            },
            tallies: Tallies {
                accepted: c[3],
                rejected: c[0],
            },
            run: c[9],
        }
    }

    fn store(self, n: &mut Numbers, c: &mut Counts) {
        let has_yaw = c[8] != 0;
        n[0] = self.x.x;
        n[1] = self.y.x;
        n[7] = self.x.p;
        n[8] = self.y.p;
        n[21] = self.nis.sum;
        n[22] = self.last_fix.x;
        n[23] = self.last_fix.y;
        c[0] = self.tallies.rejected;
        c[3] = self.tallies.accepted;
        c[6] = self.nis.count;
        c[7] = self.last_fix.known as u32;
        c[8] = has_yaw as u32;
        c[9] = self.run;
    }
}

impl Stored<(), NUMBERS, COUNTS> for Velocity {
    type Whole = Ekf;

    ghost loaded = { loaded };

    ghost numbers_of = { numbers_of };

    ghost counts_of = { counts_of };

    ghost part = { λ f. f.velocity };

    ghost put = { with_velocity };

    fn load(n: &Numbers, c: &Counts) -> Velocity {
        Velocity {
            x: Axis { x: n[3], p: n[10] },
            y: Axis { x: n[4], p: n[11] },
            tallies: Tallies {
                accepted: c[4],
                rejected: c[1],
            },
        }
    }

    fn store(self, n: &mut Numbers, c: &mut Counts) {
        let has_fix = c[7] != 0;
        let has_yaw = c[8] != 0;
        n[3] = self.x.x;
        n[4] = self.y.x;
        n[10] = self.x.p;
        n[11] = self.y.p;
        c[1] = self.tallies.rejected;
        c[4] = self.tallies.accepted;
        c[7] = has_fix as u32;
        c[8] = has_yaw as u32;
    }
}

impl Stored<(), NUMBERS, COUNTS> for Yaw {
    type Whole = Ekf;

    ghost loaded = { loaded };

    ghost numbers_of = { numbers_of };

    ghost counts_of = { counts_of };

    ghost part = { λ f. f.yaw };

    ghost put = { with_yaw };

    fn load(n: &Numbers, c: &Counts) -> Yaw {
        Yaw {
            angle: Axis { x: n[2], p: n[9] },
            moving: MovingYaw {
                angle: n[24],
                known: c[8] != 0,
            },
            tallies: Tallies {
                accepted: c[5],
                rejected: c[2],
            },
        }
    }

    fn store(self, n: &mut Numbers, c: &mut Counts) {
        let has_fix = c[7] != 0;
        n[2] = self.angle.x;
        n[9] = self.angle.p;
        n[24] = self.moving.angle;
        c[2] = self.tallies.rejected;
        c[5] = self.tallies.accepted;
        c[7] = has_fix as u32;
        c[8] = self.moving.known as u32;
    }
}

impl Stored<(), NUMBERS, COUNTS> for Bias {
    type Whole = Ekf;

    ghost loaded = { loaded };

    ghost numbers_of = { numbers_of };

    ghost counts_of = { counts_of };

    ghost part = { λ f. f.bias };

    ghost put = { with_bias };

    fn load(n: &Numbers, _c: &Counts) -> Bias {
        Bias {
            x: Axis { x: n[5], p: n[12] },
            y: Axis { x: n[6], p: n[13] },
        }
    }

    fn store(self, n: &mut Numbers, c: &mut Counts) {
        let has_fix = c[7] != 0;
        let has_yaw = c[8] != 0;
        n[5] = self.x.x;
        n[6] = self.y.x;
        n[12] = self.x.p;
        n[13] = self.y.p;
        c[7] = has_fix as u32;
        c[8] = has_yaw as u32;
    }
}

// A filter of which a prediction writes the states and variances alone. The biases stay.
#[derive(Clone, Copy)]
pub struct Motion {
    pub filter: Ekf,
}

impl Stored<(), NUMBERS, COUNTS> for Motion {
    type Whole = Ekf;

    ghost loaded = { loaded };

    ghost numbers_of = { numbers_of };

    ghost counts_of = { counts_of };

    ghost part = { λ f. record { filter = f } };

    ghost put = { λ f m. with_motion f m.filter };

    fn load(n: &Numbers, c: &Counts) -> Motion {
        Motion {
            filter: Ekf::load(n, c),
        }
    }

    fn store(self, n: &mut Numbers, c: &mut Counts) {
        let has_fix = c[7] != 0;
        let has_yaw = c[8] != 0;
        n[0] = self.filter.position.x.x;
        n[1] = self.filter.position.y.x;
        n[2] = self.filter.yaw.angle.x;
        n[3] = self.filter.velocity.x.x;
        n[4] = self.filter.velocity.y.x;
        n[7] = self.filter.position.x.p;
        n[8] = self.filter.position.y.p;
        n[9] = self.filter.yaw.angle.p;
        n[10] = self.filter.velocity.x.p;
        n[11] = self.filter.velocity.y.p;
        n[12] = self.filter.bias.x.p;
        n[13] = self.filter.bias.y.p;
        c[7] = has_fix as u32;
        c[8] = has_yaw as u32;
    }
}

impl Motion {
    // A prediction by an edition's number.
    pub fn predict(
        self,
        edition: u32,
        ax_earth: f32,
        ay_earth: f32,
        wz: f32,
        dt: f32,
    ) -> Outcome<Verdict, Motion>
        ensures { inside (λ m. m.filter) (told verdict result) ≡ on_predict edition ax_earth ay_earth wz dt self.filter }
    {
        let out = self.filter.predict_by(edition, ax_earth, ay_earth, wz, dt);
        Outcome {
            answer: out.answer,
            state: Motion { filter: out.state },
        }
    }
}
