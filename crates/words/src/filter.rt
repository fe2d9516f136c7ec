// A filter in the memory that a caller lends: its numbers and its counts, in the order of
// docs/BOUNDARY.md.
ghost use Rattle.std.specs.Prelude.{◌≡◌};
ghost use Rattle.words.specs.Filter.{config_of, loaded, numbers_of, counts_of};

use crate::record::Stored;
use bias::Bias;
use ekf::{Ekf, EkfConfig};
use position::Position;
use velocity::Velocity;
use yaw::Yaw;

// How many of each hold a filter.
pub const NUMBERS: usize = 25;

pub const COUNTS: usize = 10;

pub type Numbers = [f32; NUMBERS];

pub type Counts = [u32; COUNTS];

// The configuration that the words stand for.
pub fn load_config(n: &Numbers) -> EkfConfig
    ensures { result ≡ config_of n.now }
{
    EkfConfig {
        q_acc: n[14],
        q_gyro: n[15],
        q_bias: n[16],
        r_pos: n[17],
        r_vel: n[18],
        r_yaw: n[19],
        min_speed: n[20],
    }
}

impl Stored<(), NUMBERS, COUNTS> for Ekf {
    type Whole = Ekf;

    ghost loaded = { loaded };

    ghost numbers_of = { numbers_of };

    ghost counts_of = { counts_of };

    ghost part = { λ f. f };

    ghost put = { λ f g. g };

    fn load(n: &Numbers, c: &Counts) -> Ekf {
        Ekf {
            config: load_config(n),
            position: Position::load(n, c),
            velocity: Velocity::load(n, c),
            yaw: Yaw::load(n, c),
            bias: Bias::load(n, c),
        }
    }

    fn store(self, n: &mut Numbers, c: &mut Counts) {
        n[0] = self.position.x.x;
        n[1] = self.position.y.x;
        n[2] = self.yaw.angle.x;
        n[3] = self.velocity.x.x;
        n[4] = self.velocity.y.x;
        n[5] = self.bias.x.x;
        n[6] = self.bias.y.x;
        n[7] = self.position.x.p;
        n[8] = self.position.y.p;
        n[9] = self.yaw.angle.p;
        n[10] = self.velocity.x.p;
        n[11] = self.velocity.y.p;
        n[12] = self.bias.x.p;
        n[13] = self.bias.y.p;
        n[14] = self.config.q_acc;
        n[15] = self.config.q_gyro;
        n[16] = self.config.q_bias;
        n[17] = self.config.r_pos;
        n[18] = self.config.r_vel;
        n[19] = self.config.r_yaw;
        n[20] = self.config.min_speed;
        n[21] = self.position.nis.sum;
        n[22] = self.position.last_fix.x;
        n[23] = self.position.last_fix.y;
        n[24] = self.yaw.moving.angle;
        c[0] = self.position.tallies.rejected;
        c[1] = self.velocity.tallies.rejected;
        c[2] = self.yaw.tallies.rejected;
        c[3] = self.position.tallies.accepted;
        c[4] = self.velocity.tallies.accepted;
        c[5] = self.yaw.tallies.accepted;
        c[6] = self.position.nis.count;
        c[7] = self.position.last_fix.known as u32;
        c[8] = self.yaw.moving.known as u32;
        c[9] = self.position.run;
    }
}
