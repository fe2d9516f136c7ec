// The letter's story on the compiled code: one fix at the gate before and after a yaw sample. And an
// example each of what the order theorem does not cover: something else between the two calls, and
// two calls of one channel.
#![tactic(auto)]

use call::Outcome;
use call::edition::Edition;
use call::refusal::Refusal;
use channel::Verdict;
use ekf::{Ekf, EkfConfig};
use float::bits_of;
use std::{fmt, io};

// A filter that moves, whose gate a fix at (80, 0) meets exactly (settled case K1).
fn start() -> Ekf {
    let config = EkfConfig {
        r_pos: 100.0,
        ..EkfConfig::default()
    };
    Ekf::with_config(config)
        .state
        .update_velocity(10.0, 1.0)
        .state
}

fn at_the_gate(f: Ekf) -> Outcome<Verdict, Ekf> {
    f.update_position(80.0, 0.0)
}

fn yaw_sample(f: Ekf) -> Outcome<Verdict, Ekf> {
    f.update_yaw(0.5)
}

// A verdict's letter with the bits of its gate value, or a refusal's number: the story's words, which are
// not those of the settled cases.
#[derive(Drop)]
struct Said(Result<Verdict, Refusal>);

impl fmt::Display for Said {
    fn fmt<W: fmt::Write>(&self, f: &mut fmt::Formatter<W>) -> fmt::Result {
        match self.0 {
            Ok(Verdict::Done) => write!(f, " D"),
            Ok(Verdict::Accepted(value)) => write!(f, " A {:08x}", bits_of(value)),
            Ok(Verdict::Rejected(value)) => write!(f, " R {:08x}", bits_of(value)),
            Err(refusal) => write!(f, "{}", u32::from(refusal)),
        }
    }
}

// Every number of a filter's channels, the floats by their bits: `==` takes the two zeros for one.
#[derive(Clone, Copy, PartialEq, Eq)]
struct Bits {
    axes: [(u32, u32); 7],
    tallies: [(u32, u32); 3],
    floats: [u32; 4],
    counts: [u32; 2],
    known: [bool; 2],
}

impl From<Ekf> for Bits {
    fn from(f: Ekf) -> Bits {
        let Ekf {
            position,
            velocity,
            yaw,
            bias,
            ..
        } = f;
        let axes = [
            position.x, position.y, velocity.x, velocity.y, yaw.angle, bias.x, bias.y,
        ];
        let tallies = [position.tallies, velocity.tallies, yaw.tallies];
        let fix = position.last_fix;
        Bits {
            axes: axes.map(|axis| (bits_of(axis.x), bits_of(axis.p))),
            tallies: tallies.map(|tallies| (tallies.accepted, tallies.rejected)),
            floats: [position.nis.sum, fix.x, fix.y, yaw.moving.angle].map(bits_of),
            counts: [position.nis.count, position.run],
            known: [fix.known, yaw.moving.known],
        }
    }
}

fn tell(rt: &impl Print, text: &str, f: Ekf, g: Ekf) -> io::Result<()> {
    let ending = if Bits::from(f) == Bits::from(g) {
        "the same bits"
    } else {
        "different"
    };
    println!(rt; "{text}{ending}")
}

// The two calls in both orders.
fn story(rt: &impl Print) -> io::Result<()> {
    let fix = at_the_gate(start());
    let then_yaw = yaw_sample(fix.state);
    let yaw = yaw_sample(start());
    let then_fix = at_the_gate(yaw.state);
    println!(rt;
        "fix at the gate, yaw:{}{}",
        Said(fix.answer),
        Said(then_yaw.answer)
    )?;
    println!(rt;
        "yaw, fix at the gate:{}{}",
        Said(yaw.answer),
        Said(then_fix.answer)
    )?;
    tell(rt, "both orders end in ", then_yaw.state, then_fix.state)
}

// Two calls in both orders, with something between them.
fn both_orders<F, B, G>(
    rt: &impl Print,
    text: &str,
    first: F,
    between: B,
    second: G,
) -> io::Result<()>
where
    F: Fn(Ekf) -> Ekf,
    B: Fn(Ekf) -> Ekf,
    G: Fn(Ekf) -> Ekf,
    requires first { F.IsAlwaysCallable first }
    requires between { B.IsAlwaysCallable between }
    requires second { G.IsAlwaysCallable second }
{
    let f = second(between(first(start())));
    let g = first(between(second(start())));
    tell(rt, text, f, g)
}

fn main(rt: HostRuntime) -> io::Result<()> {
    let fix = |f| at_the_gate(f).state;
    let yaw = |f| yaw_sample(f).state;
    let near = |f: Ekf| f.update_position(10.0, 0.0).state;
    let far = |f: Ekf| f.update_position(25.0, 0.0).state;
    let reset = |f: Ekf| f.reset_gate_stats().state;
    let prediction = |f: Ekf| f.predict(Edition::First, 0.0, 0.0, 0.25, 0.5).state;
    story(&rt)?;
    both_orders(&rt, "a reset of all tallies between: ", fix, reset, yaw)?;
    both_orders(&rt, "a prediction between: ", fix, prediction, yaw)?;
    both_orders(&rt, "two fixes swapped: ", near, |f| f, far)
}
