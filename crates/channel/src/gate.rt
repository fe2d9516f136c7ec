// The tallies of a gate. One that has come to its stop stands still.
ghost use Rattle.std.specs.Prelude.{◌≡◌};
ghost use Rattle.channel.specs.Gate.{no_tallies, one_accepted, one_rejected};

use crate::Tallies;
use float::{TALLY_STOP, raise};

impl Tallies {
    // Nothing accepted or rejected yet.
    pub fn none() -> Tallies
        ensures { result ≡ no_tallies }
    {
        Tallies {
            accepted: 0,
            rejected: 0,
        }
    }

    // One more accepted.
    pub fn one_accepted(self) -> Tallies
        ensures { result ≡ one_accepted self }
    {
        Tallies {
            accepted: raise(TALLY_STOP, self.accepted),
            ..self
        }
    }

    // One more rejected.
    pub fn one_rejected(self) -> Tallies
        ensures { result ≡ one_rejected self }
    {
        Tallies {
            rejected: raise(TALLY_STOP, self.rejected),
            ..self
        }
    }
}
