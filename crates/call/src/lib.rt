// One notion of a call: what it tests, why it is refused, and what it answers and leaves.
#![tactic(auto)]

ghost use Rattle.std.specs.Prelude.{◌≡◌, Bool, true};
ghost use Rattle.call.specs.Refusal.{refusal_of, number_of, number_in};
ghost use Rattle.call.specs.Said.{told, settled, answered, refused};
ghost use Rattle.call.specs.Port.{changes, unread};

pub mod answer; // answer.rt: what a call answers where it is not refused
pub mod edition; // edition.rt: the editions of the turn rule
pub mod refusal; // refusal.rt: why an entry point refuses

use answer::Answer;
use refusal::Refusal;

// A state, of which every number is sound or not.
pub trait State: Copy {
    ghost sound: { Self → Bool };

    // Every number of it is sound.
    fn is_sound(self) -> bool
        ensures { result ≡ sound self };
}

// What a call answers, and the state handed back.
#[derive(Clone, Copy)]
pub struct Outcome<A, S> {
    pub answer: Result<A, Refusal>,
    pub state: S,
}

// What a call tests beside the state: that its float arguments are finite and all arguments in their
// ranges, that its parameters are, and that the sample count that it raises has room.
#[derive(Clone, Copy)]
pub struct Tests {
    pub finite: bool,
    pub in_range: bool,
    pub config: bool,
    pub room: bool,
}

// The tests of a call with arguments.
#[inline(always)]
pub fn given(finite: bool, in_range: bool, config: bool) -> Tests
    ensures { result ≡ record { finite = finite; in_range = in_range; config = config; room = true } }
{
    Tests {
        finite,
        in_range,
        config,
        room: true,
    }
}

// The tests of a call without.
#[inline(always)]
pub fn bare(config: bool) -> Tests
    ensures { result ≡ record { finite = true; in_range = true; config = config; room = true } }
{
    given(true, true, config)
}

// The first test that fails: all tests at once, and one by one only where one of them fails.
pub fn tested(
    finite: bool,
    in_range: bool,
    config: bool,
    state: bool,
    room: bool,
    next: bool,
) -> Result<(), Refusal>
    ensures { number_in result ≡ refusal_of finite in_range config state room next }
{
    if finite & in_range & config & state & room & next {
        return Ok(());
    }
    if !finite {
        return Err(Refusal::NotFinite);
    }
    if !in_range {
        return Err(Refusal::OutOfRange);
    }
    if !config {
        return Err(Refusal::BadParameter);
    }
    if !state {
        return Err(Refusal::UnsoundState);
    }
    if !room {
        return Err(Refusal::CountAtStop);
    }
    Err(Refusal::UnsoundResult)
}

impl<A: Answer, S: Copy> Outcome<A, S> {
    // What a call leaves that is answered.
    #[inline(always)]
    pub fn answered(answer: A, state: S) -> Outcome<A, S>
        ensures { told A.reply result ≡ answered (A.reply answer, state) }
    {
        Outcome {
            answer: Ok(answer),
            state,
        }
    }

    // What a call leaves that is refused.
    #[inline(always)]
    pub fn refused(refusal: Refusal, state: S) -> Outcome<A, S>
        ensures { told A.reply result ≡ (refused (number_of refusal), state) }
    {
        Outcome {
            answer: Err(refusal),
            state,
        }
    }

    // The outcome where nothing is refused, else the refusal with the state `old`.
    #[inline(always)]
    pub fn settled(self, tested: Result<(), Refusal>, old: S) -> Outcome<A, S>
        ensures { told A.reply result ≡ settled (number_in tested) old (told A.reply self) }
    {
        match tested {
            Ok(()) => self,
            Err(refusal) => Outcome::refused(refusal, old),
        }
    }
}

impl Tests {
    // These tests, of a call that would raise a sample count: there is room for it.
    #[inline(always)]
    pub fn with_room(self, room: bool) -> Tests
        ensures { result ≡ record { finite = self.finite; in_range = self.in_range; config = self.config; room = room } }
    {
        Tests { room, ..self }
    }

    // What a call leaves that would answer and leave `next`. Inlined, as are the parts of it: kept apart,
    // both states would go through memory, and a fix would take half as many instructions again.
    #[inline(always)]
    pub fn change<A: Answer, S: State>(self, old: S, next: Outcome<A, S>) -> Outcome<A, S>
        ensures { told A.reply result ≡ changes S.sound self.finite self.in_range self.config self.room old (told A.reply next) }
    {
        let state = next.state;
        next.settled(
            tested(
                self.finite,
                self.in_range,
                self.config,
                old.is_sound(),
                self.room,
                state.is_sound(),
            ),
            old,
        )
    }

    // Whether a reader may show the state, which it leaves as it is.
    #[inline(always)]
    pub fn read<S: State>(self, state: S) -> Result<(), Refusal>
        ensures { number_in result ≡ refusal_of self.finite self.in_range self.config (S.sound state) true (S.sound state) }
    {
        let sound = state.is_sound();
        tested(self.finite, self.in_range, self.config, sound, true, sound)
    }

    // Whether a function that keeps no state may answer.
    #[inline(always)]
    pub fn passed(self) -> Result<(), Refusal>
        ensures { number_in result ≡ refusal_of self.finite self.in_range self.config true true true }
    {
        tested(self.finite, self.in_range, self.config, true, true, true)
    }
}
