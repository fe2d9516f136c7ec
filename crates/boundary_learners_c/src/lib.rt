// Made from crates/boundary_learners by tools/boundary.
// What C and Rust link of it: its functions under their own names. Each takes and says what its function does.
#![tactic(auto)]

pub mod biquad_filter; // biquad_filter.rt: the low-pass
pub mod functions; // functions.rt: wrap and root, the trigonometry, the blend
pub mod gps_acceleration; // gps_acceleration.rt: GPS acceleration
pub mod heading_aligner; // heading_aligner.rt: the heading aligner
pub mod orientation_corrector; // orientation_corrector.rt: the orientation corrector
pub mod tilt_estimator; // tilt_estimator.rt: the tilt estimator
pub mod yaw_rate_calibrator; // yaw_rate_calibrator.rt: the yaw rate calibrator
