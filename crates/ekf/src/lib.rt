// The filter of `ekf.rs`: four channels that do not look at each other, and a prediction that looks
// at everything. A call takes the filter by value and hands it back with its answer.
#![tactic(auto)]

ghost use Rattle.std.specs.Prelude.{◌≡◌};
ghost use Rattle.call.specs.Said.{said, told, value, option, pair_reply};
ghost use Rattle.call.specs.Edition.{number_of};
ghost use Rattle.channel.specs.Answers.{verdict, tallies};
ghost use Rattle.position.specs.Position.{update_position, lock_position, skip_prediction, reset_nis_stats, position, position_gate_stats, get_nis_position_avg, get_gps_discrepancy, get_effective_pos_sigma};
ghost use Rattle.velocity.specs.Velocity.{update_velocity, update_speed, zupt, velocity, speed, velocity_gate_stats};
ghost use Rattle.yaw.specs.Yaw.{update_yaw, update_yaw_soft, lock_yaw, store_moving_yaw, get_last_moving_yaw, yaw, yaw_gate_stats};
ghost use Rattle.bias.specs.Bias.{update_bias, biases};
ghost use Rattle.ekf.specs.Filter.{call_position, call_velocity, call_yaw, call_bias, on_reset};
ghost use Rattle.ekf.specs.Making.{default_config, config_sound, fresh, made};
ghost use Rattle.ekf.specs.Predict.{filter_sound, on_predict};

mod predict; // predict.rt: the prediction

use bias::Bias;
use call::edition::Edition;
use call::refusal::Refusal;
use call::{Outcome, State, bare};
use channel::ranges::{MIN_SPEED, PROCESS_NOISE, is_measurement_noise};
use channel::{Tallies, Verdict, done};
use float::is_between;
use position::Position;
use predict::{Step, predict};
use velocity::Velocity;
use yaw::Yaw;

// The filter's tuning: process noise, measurement noise, and the least speed of the turning model.
#[derive(Clone, Copy)]
pub struct EkfConfig {
    pub q_acc: f32,
    pub q_gyro: f32,
    pub q_bias: f32,
    pub r_pos: f32,
    pub r_vel: f32,
    pub r_yaw: f32,
    pub min_speed: f32,
}

#[derive(Clone, Copy)]
pub struct Ekf {
    pub config: EkfConfig,
    pub position: Position,
    pub velocity: Velocity,
    pub yaw: Yaw,
    pub bias: Bias,
}

impl State for Ekf {
    ghost sound = { filter_sound };

    fn is_sound(self) -> bool {
        (self.position.is_sound() & self.velocity.is_sound())
            & (self.yaw.is_sound() & self.bias.is_sound())
    }
}

// The default configuration.
impl Default for EkfConfig {
    ghost is_default = { λ c. c ≡ default_config };

    fn default() -> EkfConfig {
        EkfConfig {
            q_acc: 0.40,
            q_gyro: 0.005,
            q_bias: 1.0e-3,
            r_pos: 20.0,
            r_vel: 0.2,
            r_yaw: 0.10,
            min_speed: 2.0,
        }
    }
}

impl EkfConfig {
    // Every configuration number is in its range.
    fn is_sound(self) -> bool
        ensures { result ≡ config_sound self }
    {
        ((is_between(0.0, self.q_acc, PROCESS_NOISE) & is_between(0.0, self.q_gyro, PROCESS_NOISE))
            & is_between(0.0, self.q_bias, PROCESS_NOISE))
            & (((is_measurement_noise(self.r_pos) & is_measurement_noise(self.r_vel))
                & is_measurement_noise(self.r_yaw))
                & is_between(0.0, self.min_speed, MIN_SPEED))
    }
}

// A fresh filter by the default configuration.
impl Default for Ekf {
    ghost is_default = { λ f. f ≡ fresh default_config };

    fn default() -> Ekf {
        Ekf::new()
    }
}

// Making, and what belongs to no channel.
impl Ekf {
    // Every channel as it is made.
    fn fresh(config: EkfConfig) -> Ekf
        ensures { result ≡ fresh config }
    {
        Ekf {
            config,
            position: Position::fresh(),
            velocity: Velocity::fresh(),
            yaw: Yaw::fresh(),
            bias: Bias::fresh(),
        }
    }

    // A fresh filter by the default configuration.
    pub fn new() -> Ekf
        ensures { result ≡ fresh default_config }
    {
        Ekf::fresh(EkfConfig::default())
    }

    // A fresh filter; for a bad configuration number 3 with a default filter.
    pub fn with_config(config: EkfConfig) -> Outcome<Verdict, Ekf>
        ensures { told verdict result ≡ made config }
    {
        done(Ekf::fresh(config)).settled(bare(config.is_sound()).passed(), Ekf::default())
    }

    // The time step: the turning model at speed in a turn, else the straight one. The turn's rule is
    // the edition's.
    pub fn predict(
        self,
        edition: Edition,
        ax_earth: f32,
        ay_earth: f32,
        wz: f32,
        dt: f32,
    ) -> Outcome<Verdict, Ekf>
        ensures { told verdict result ≡ on_predict (number_of edition) ax_earth ay_earth wz dt self }
    {
        self.predict_by(edition.into(), ax_earth, ay_earth, wz, dt)
    }

    // The same by an edition's number, as a log and a caller in C have it: another than 1 or 2 is an
    // argument outside its range.
    pub fn predict_by(
        self,
        edition: u32,
        ax_earth: f32,
        ay_earth: f32,
        wz: f32,
        dt: f32,
    ) -> Outcome<Verdict, Ekf>
        ensures { told verdict result ≡ on_predict edition ax_earth ay_earth wz dt self }
    {
        let step = Step {
            ax: ax_earth,
            ay: ay_earth,
            wz,
            dt,
        };
        predict(self, edition, step)
    }

    // Sets all six tallies to 0; never refused.
    pub fn reset_gate_stats(self) -> Outcome<Verdict, Ekf>
        ensures { told verdict result ≡ on_reset self }
    {
        let tallies = Tallies::none();
        let position = Position {
            tallies,
            ..self.position
        };
        let velocity = Velocity {
            tallies,
            ..self.velocity
        };
        let yaw = Yaw {
            tallies,
            ..self.yaw
        };
        done(Ekf {
            position,
            velocity,
            yaw,
            ..self
        })
    }
}

// What a channel's call leaves, with the channel put back.
fn inside<S: Copy, F: FnOnce(S) -> Ekf>(next: Outcome<Verdict, S>, put: F) -> Outcome<Verdict, Ekf>
    requires { F.IsAlwaysCallable put }
    ensures answer { result.answer ≡ next.answer }
    ensures state { F.post put next.state result.state }
{
    Outcome {
        answer: next.answer,
        state: put(next.state),
    }
}

// Calls of the position channel.
impl Ekf {
    // Takes a fix in by its gate.
    pub fn update_position(self, z_x: f32, z_y: f32) -> Outcome<Verdict, Ekf>
        ensures { told verdict result ≡ call_position (update_position z_x z_y) self }
    {
        inside(
            self.position.update(self.config.r_pos, z_x, z_y),
            |position| Ekf { position, ..self },
        )
    }

    // Makes the filter sure of its position: p[0] and p[1] become 1.0.
    pub fn lock_position(self) -> Outcome<Verdict, Ekf>
        ensures { told verdict result ≡ call_position lock_position self }
    {
        inside(
            self.position.lock(self.config.r_pos),
            |position| Ekf { position, ..self },
        )
    }

    // Instead of a prediction at rest: p[0] and p[1] grow by 1e-6.
    pub fn skip_prediction(self) -> Outcome<Verdict, Ekf>
        ensures { told verdict result ≡ call_position skip_prediction self }
    {
        inside(
            self.position.skip_prediction(self.config.r_pos),
            |position| Ekf { position, ..self },
        )
    }

    // Clears the NIS sum and count.
    pub fn reset_nis_stats(self) -> Outcome<Verdict, Ekf>
        ensures { told verdict result ≡ call_position reset_nis_stats self }
    {
        inside(
            self.position.reset_nis_stats(self.config.r_pos),
            |position| Ekf { position, ..self },
        )
    }

    // The position.
    pub fn position(self) -> Result<(f32, f32), Refusal>
        ensures { said pair_reply result ≡ (call_position position self).0 }
    {
        self.position.values(self.config.r_pos)
    }

    // The positions accepted and rejected.
    pub fn position_gate_stats(self) -> Result<Tallies, Refusal>
        ensures { said tallies result ≡ (call_position position_gate_stats self).0 }
    {
        self.position.gate_stats(self.config.r_pos)
    }

    // The average gate value of accepted positions, 2.0 without one.
    pub fn get_nis_position_avg(self) -> Result<f32, Refusal>
        ensures { said value result ≡ (call_position get_nis_position_avg self).0 }
    {
        self.position.nis_avg(self.config.r_pos)
    }

    // The distance of the position from the last GPS pair, 0.0 without one.
    pub fn get_gps_discrepancy(self) -> Result<f32, Refusal>
        ensures { said value result ≡ (call_position get_gps_discrepancy self).0 }
    {
        self.position.gps_discrepancy(self.config.r_pos)
    }

    // A position sigma that also counts the NIS average and the discrepancy, at least 2.5.
    pub fn get_effective_pos_sigma(self) -> Result<f32, Refusal>
        ensures { said value result ≡ (call_position get_effective_pos_sigma self).0 }
    {
        self.position.effective_pos_sigma(self.config.r_pos)
    }
}

// Calls of the velocity channel.
impl Ekf {
    // Takes a velocity in; there is no gate.
    pub fn update_velocity(self, z_vx: f32, z_vy: f32) -> Outcome<Verdict, Ekf>
        ensures { told verdict result ≡ call_velocity (update_velocity z_vx z_vy) self }
    {
        inside(
            self.velocity.update(self.config.r_vel, z_vx, z_vy),
            |velocity| Ekf { velocity, ..self },
        )
    }

    // Takes a speed in; there is no gate, and no tally is raised.
    pub fn update_speed(self, z_speed: f32) -> Outcome<Verdict, Ekf>
        ensures { told verdict result ≡ call_velocity (update_speed z_speed) self }
    {
        inside(
            self.velocity.update_speed(self.config.r_vel, z_speed),
            |velocity| Ekf { velocity, ..self },
        )
    }

    // Sets the velocity to zero, with variances of 2.0.
    pub fn zupt(self) -> Outcome<Verdict, Ekf>
        ensures { told verdict result ≡ call_velocity zupt self }
    {
        inside(
            self.velocity.zupt(self.config.r_vel),
            |velocity| Ekf { velocity, ..self },
        )
    }

    // The velocity.
    pub fn velocity(self) -> Result<(f32, f32), Refusal>
        ensures { said pair_reply result ≡ (call_velocity velocity self).0 }
    {
        self.velocity.values(self.config.r_vel)
    }

    // The magnitude of the velocity.
    pub fn speed(self) -> Result<f32, Refusal>
        ensures { said value result ≡ (call_velocity speed self).0 }
    {
        self.velocity.speed(self.config.r_vel)
    }

    // The velocities accepted and rejected.
    pub fn velocity_gate_stats(self) -> Result<Tallies, Refusal>
        ensures { said tallies result ≡ (call_velocity velocity_gate_stats self).0 }
    {
        self.velocity.gate_stats(self.config.r_vel)
    }
}

// Calls of the yaw channel.
impl Ekf {
    // Takes a measured yaw in by its gate.
    pub fn update_yaw(self, z_yaw: f32) -> Outcome<Verdict, Ekf>
        ensures { told verdict result ≡ call_yaw (update_yaw z_yaw) self }
    {
        inside(
            self.yaw.update(self.config.r_yaw, z_yaw),
            |yaw| Ekf { yaw, ..self },
        )
    }

    // The same, with a measurement noise of `r_yaw` times the factor.
    pub fn update_yaw_soft(self, z_yaw: f32, r_yaw_factor: f32) -> Outcome<Verdict, Ekf>
        ensures { told verdict result ≡ call_yaw (update_yaw_soft z_yaw r_yaw_factor) self }
    {
        inside(
            self.yaw.update_soft(self.config.r_yaw, z_yaw, r_yaw_factor),
            |yaw| Ekf { yaw, ..self },
        )
    }

    // Makes the filter sure of its yaw: p[2] becomes 0.001.
    pub fn lock_yaw(self) -> Outcome<Verdict, Ekf>
        ensures { told verdict result ≡ call_yaw lock_yaw self }
    {
        inside(self.yaw.lock(self.config.r_yaw), |yaw| Ekf { yaw, ..self })
    }

    // Keeps a yaw as the last one while moving.
    pub fn store_moving_yaw(self, yaw: f32) -> Outcome<Verdict, Ekf>
        ensures { told verdict result ≡ call_yaw (store_moving_yaw yaw) self }
    {
        inside(
            self.yaw.store_moving(self.config.r_yaw, yaw),
            |yaw| Ekf { yaw, ..self },
        )
    }

    // The last stored moving yaw, if there is one.
    pub fn get_last_moving_yaw(self) -> Result<Option<f32>, Refusal>
        ensures { said option result ≡ (call_yaw get_last_moving_yaw self).0 }
    {
        self.yaw.last_moving(self.config.r_yaw)
    }

    // The yaw.
    pub fn yaw(self) -> Result<f32, Refusal>
        ensures { said value result ≡ (call_yaw yaw self).0 }
    {
        self.yaw.value(self.config.r_yaw)
    }

    // The yaws accepted and rejected.
    pub fn yaw_gate_stats(self) -> Result<Tallies, Refusal>
        ensures { said tallies result ≡ (call_yaw yaw_gate_stats self).0 }
    {
        self.yaw.gate_stats(self.config.r_yaw)
    }
}

// Calls of the bias channel.
impl Ekf {
    // Learns the accelerometer biases at rest.
    pub fn update_bias(self, z_ax: f32, z_ay: f32) -> Outcome<Verdict, Ekf>
        ensures { told verdict result ≡ call_bias (update_bias z_ax z_ay) self }
    {
        inside(self.bias.update(z_ax, z_ay), |bias| Ekf { bias, ..self })
    }

    // The accelerometer biases.
    pub fn biases(self) -> Result<(f32, f32), Refusal>
        ensures { said pair_reply result ≡ (call_bias biases self).0 }
    {
        self.bias.values()
    }
}
