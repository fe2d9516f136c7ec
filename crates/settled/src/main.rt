// Runs document 01's settled cases, marked K, on the compiled code and writes what each gives, in
// the bits of the numbers that the case speaks of; a merge of two summaries, by document 02's C-14;
// and a car that leaves a tunnel 40 m off, by its C-19. The file stdout beside src/ has what the
// documents say; specs/Cases/Table.antt, of the merge specs/Cases.antt of buckets and of the car
// specs/Requests/Rejections.antt prove the same of the definitions.
#![tactic(auto)]

use buckets::Summary;
use call::Outcome;
use call::edition::Edition;
use call::refusal::Refusal;
use channel::Verdict;
use ekf::{Ekf, EkfConfig};
use float::bits_of;
use float::wrap::wrap_angle;
use gps::GpsAcceleration;
use lowpass::BiquadFilter;
use std::{fmt, io};

// What a call answers, a number in its bits.
trait Shown: Copy {
    fn show<W: fmt::Write>(self, f: &mut fmt::Formatter<W>) -> fmt::Result;
}

impl Shown for () {
    fn show<W: fmt::Write>(self, f: &mut fmt::Formatter<W>) -> fmt::Result {
        write!(f, "D")
    }
}

impl Shown for f32 {
    fn show<W: fmt::Write>(self, f: &mut fmt::Formatter<W>) -> fmt::Result {
        write!(f, "{:08x}", bits_of(self))
    }
}

impl Shown for Option<f32> {
    fn show<W: fmt::Write>(self, f: &mut fmt::Formatter<W>) -> fmt::Result {
        match self {
            Some(value) => value.show(f),
            None => write!(f, "nothing"),
        }
    }
}

impl Shown for Verdict {
    fn show<W: fmt::Write>(self, f: &mut fmt::Formatter<W>) -> fmt::Result {
        match self {
            Verdict::Done => write!(f, "D"),
            Verdict::Accepted(value) => write!(f, "A {:08x}", bits_of(value)),
            Verdict::Rejected(value) => write!(f, "R {:08x}", bits_of(value)),
        }
    }
}

// An answer, or a refusal by its number.
#[derive(Clone, Copy)]
struct Said<A>(Result<A, Refusal>);

impl<A: Shown> fmt::Display for Said<A> {
    fn fmt<W: fmt::Write>(&self, f: &mut fmt::Formatter<W>) -> fmt::Result {
        match self.0 {
            Ok(answer) => answer.show(f),
            Err(refusal) => write!(f, "refused {}", u32::from(refusal)),
        }
    }
}

// A fresh filter by a configuration.
fn fresh(config: EkfConfig) -> Ekf {
    Ekf::with_config(config).state
}

// x[0], p[0], p[1], the NIS sum, the tallies and the run of rejections after a position call.
fn position(rt: &impl Print, case: &str, out: Outcome<Verdict, Ekf>) -> io::Result<()> {
    let position = out.state.position;
    print!(rt; "{case} {}", Said(out.answer))?;
    print!(rt;
        " {:08x} {:08x}",
        bits_of(position.x.x),
        bits_of(position.x.p)
    )?;
    print!(rt;
        " {:08x} {:08x}",
        bits_of(position.y.p),
        bits_of(position.nis.sum)
    )?;
    let tallies = position.tallies;
    println!(rt;
        " {} {} {}",
        tallies.accepted, tallies.rejected, position.run
    )
}

fn velocity(rt: &impl Print, case: &str, out: Outcome<Verdict, Ekf>) -> io::Result<()> {
    let velocity = out.state.velocity;
    print!(rt; "{case} {}", Said(out.answer))?;
    print!(rt;
        " {:08x} {:08x}",
        bits_of(velocity.x.x),
        bits_of(velocity.y.x)
    )?;
    println!(rt;
        " {:08x} {:08x}",
        bits_of(velocity.x.p),
        bits_of(velocity.y.p)
    )
}

// K1, K2: r_pos 100, the fixes (80, 0) and (80, 1).
fn positions(rt: &impl Print) -> io::Result<()> {
    let f = fresh(EkfConfig {
        r_pos: 100.0,
        ..EkfConfig::default()
    });
    position(rt, "K1", f.update_position(80.0, 0.0))?;
    position(rt, "K2", f.update_position(80.0, 1.0))
}

// K3: p[2] 0.375, r_yaw 0.375, yaw 3.
fn yaws(rt: &impl Print) -> io::Result<()> {
    let mut f = fresh(EkfConfig {
        r_yaw: 0.375,
        ..EkfConfig::default()
    });
    f.yaw.angle.p = 0.375;
    let out = f.update_yaw(3.0);
    let angle = out.state.yaw.angle;
    println!(rt;
        "K3 {} {:08x} {:08x}",
        Said(out.answer),
        bits_of(angle.x),
        bits_of(angle.p)
    )
}

// K4: r_vel 100, velocity (10, -4). K5: speed 0 at rest.
fn velocities(rt: &impl Print) -> io::Result<()> {
    let f = fresh(EkfConfig {
        r_vel: 100.0,
        ..EkfConfig::default()
    });
    velocity(rt, "K4", f.update_velocity(10.0, -4.0))?;
    velocity(rt, "K5", Ekf::new().update_speed(0.0))
}

// K6: vx 4, q_acc 1, predict (2, 0, 0, 0.5).
fn prediction(rt: &impl Print) -> io::Result<()> {
    let mut f = fresh(EkfConfig {
        q_acc: 1.0,
        ..EkfConfig::default()
    });
    f.velocity.x.x = 4.0;
    let out = f.predict(Edition::First, 2.0, 0.0, 0.0, 0.5);
    let g = out.state;
    print!(rt; "K6 {} {:08x}", Said(out.answer), bits_of(g.position.x.x))?;
    println!(rt;
        " {:08x} {:08x}",
        bits_of(g.velocity.x.x),
        bits_of(g.position.x.p)
    )
}

// K7: PI and -PI wrap to themselves; 64.5 is refused.
fn wraps(rt: &impl Print) -> io::Result<()> {
    for angle in [3.1415927, -3.1415927, 64.5] {
        println!(rt; "K7 {}", Said(wrap_angle(angle)))?;
    }
    Ok(())
}

// K8: NaN position with r_pos 0. K9: the NIS average without fixes.
fn without_fixes(rt: &impl Print) -> io::Result<()> {
    let mut f = Ekf::new();
    f.config.r_pos = 0.0;
    println!(rt; "K8 {}", Said(f.update_position(f32::NAN, 0.0).answer))?;
    println!(rt; "K9 {}", Said(Ekf::new().get_nis_position_avg()))
}

// C-19: nine fixes 40 m off, where both variances begin with 1.
fn tunnel(rt: &impl Print) -> io::Result<()> {
    let mut f = Ekf::new().lock_position().state;
    for _ in 0..9u8 {
        let out = f.update_position(40.0, 0.0);
        position(rt, "C-19", out)?;
        f = out.state;
    }
    Ok(())
}

// K10: speed 10 at 1.0 s, 12 at 1.25 s. K11: 10 at 1.0, 12 at 1.5, then 13 at 1.75. Times are in ms.
fn accelerations(rt: &impl Print) -> io::Result<()> {
    let first = GpsAcceleration::new().update(10.0, 1000).state;
    println!(rt; "K10 {}", Said(first.update(12.0, 1250).answer))?;
    let late = first.update(12.0, 1500);
    println!(rt; "K11 {}", Said(late.answer))?;
    println!(rt; "K11 {}", Said(late.state.update(13.0, 1750).answer))
}

// K12: cutoff 100 at rate 200.
fn cutoff(rt: &impl Print) -> io::Result<()> {
    println!(rt;
        "K12 {}",
        Said(BiquadFilter::new_lowpass(100.0, 200.0).answer)
    )
}

fn summed(verdicts: &[Verdict]) -> Summary {
    verdicts.iter().fold(
        Summary::empty(),
        |summary, verdict| summary.add::<Refusal>(Ok(*verdict)).state,
    )
}

// C-14: buckets 0, 1 and 127, and the rejected, of two summaries with three verdicts that count each.
// And what an empty summary answers to an infinity, to a value above the gate, and to no verdict.
fn summaries(rt: &impl Print) -> io::Result<()> {
    let one = summed(&[
        Verdict::Accepted(0.0),
        Verdict::Accepted(32.0),
        Verdict::Rejected(64.0),
    ]);
    let other = summed(&[
        Verdict::Accepted(0.0),
        Verdict::Rejected(64.0),
        Verdict::Accepted(-0.5),
        Verdict::Rejected(64.0),
    ]);
    let both = one.merge(other);
    let [first, second, .., last] = both.buckets;
    println!(rt; "C-14 {first} {second} {last} {}", both.rejected)?;
    for verdict in [
        Verdict::Accepted(f32::INFINITY),
        Verdict::Accepted(32.25),
        Verdict::Done,
    ] {
        println!(rt;
            "C-14 {}",
            Said(Summary::empty().add::<Refusal>(Ok(verdict)).answer)
        )?;
    }
    Ok(())
}

fn main(rt: HostRuntime) -> io::Result<()> {
    positions(&rt)?;
    yaws(&rt)?;
    velocities(&rt)?;
    prediction(&rt)?;
    wraps(&rt)?;
    without_fixes(&rt)?;
    accelerations(&rt)?;
    cutoff(&rt)?;
    summaries(&rt)?;
    tunnel(&rt)
}
