// What the filter's four channels share: a number with its variance and the update of it, a gate's
// tallies, the answers, and document 01's ranges.
#![tactic(auto)]

ghost use Rattle.std.specs.Prelude.{◌≡◌};
ghost use Rattle.call.specs.Said.{told, answered, done};
ghost use Rattle.channel.specs.Answers.{verdict, verdict_once, tallies, tallies_once};

pub mod gate; // gate.rt: the tallies of a gate
pub mod kalman; // kalman.rt: a number of the state with its variance
pub mod ranges; // ranges.rt: document 01's ranges

use call::Outcome;
use call::answer::Answer;

// A number of the state with its variance.
#[derive(Clone, Copy)]
pub struct Axis {
    pub x: f32,
    pub p: f32,
}

// What a gate has accepted and rejected.
#[derive(Clone, Copy)]
pub struct Tallies {
    pub accepted: u32,
    pub rejected: u32,
}

// What a call that changes the filter answers: done (no gate), or a gate's verdict with the gate
// value that it compared.
#[derive(Clone, Copy)]
pub enum Verdict {
    Done,
    Accepted(f32),
    Rejected(f32),
}

impl Answer for Verdict {
    ghost reply = { verdict };

    ghost once = { verdict_once };
}

// Both tallies of a gate.
impl Answer for Tallies {
    ghost reply = { tallies };

    ghost once = { tallies_once };
}

// What a call leaves that no gate decides.
pub fn done<S: Copy>(state: S) -> Outcome<Verdict, S>
    ensures { told verdict result ≡ answered (done, state) }
{
    Outcome::answered(Verdict::Done, state)
}
