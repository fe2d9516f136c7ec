// The editions of the turn rule, each with the number that a log and a caller in C have for it.
ghost use Rattle.std.specs.Prelude.{◌≡◌};
ghost use Rattle.call.specs.Edition.{number_of, is_edition, edition_of, Decodes};

use crate::refusal::Refusal;

// The first is the original's; the second, of request C-16, holds at every heading.
#[derive(Clone, Copy, PartialEq, Eq)]
pub enum Edition {
    First,
    Second,
}

impl From<Edition> for u32 {
    ghost from_gives = { λ e n. n ≡ number_of e };

    fn from(edition: Edition) -> u32 {
        match edition {
            Edition::First => 1,
            Edition::Second => 2,
        }
    }
}

// Another number is an argument outside its range.
impl TryFrom<u32> for Edition {
    type Error = Refusal;

    ghost try_from_gives = { Decodes };

    fn try_from(number: u32) -> Result<Edition, Refusal> {
        match number {
            1 => Ok(Edition::First),
            2 => Ok(Edition::Second),
            _ => Err(Refusal::OutOfRange),
        }
    }
}

// Whether a number is an edition's.
#[tactic(auto, using(crate::specs::Edition::known_is))]
pub fn is_edition(number: u32) -> bool
    ensures { result ≡ is_edition number }
{
    Edition::try_from(number).is_ok()
}

// The edition with a number; for a number that is none, the first.
#[tactic(auto, using(crate::specs::Edition::edition_is))]
pub fn edition_of(number: u32) -> Edition
    ensures { result ≡ edition_of number }
{
    Edition::try_from(number).unwrap_or(Edition::First)
}
