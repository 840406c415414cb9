ghost use Rattle.std.specs.Prelude.{◌≡◌, ok_or};
ghost use Rattle.model.specs.declared.refusals.Refusal.TheVariants.{OutOfRange};
ghost use Rattle.model.specs.Votes.{graded, grade_of, after};

use crate::names::Name;
use crate::refusals::Refusal;

/// The two grades of a voice: a first vote is a voice of grade 1, a second vote one of grade 2.
#[derive(Clone, Copy, Debug, PartialEq, Eq)]
pub enum Grade {
    One = 1,
    Two = 2,
}

/// A view's second vote.
#[derive(Clone, Copy, Debug, PartialEq, Eq)]
pub enum SecondVote {
    Waiting,
    Given(Name),
    Shut,
}

/// What bears on a second vote: a quorum heard for a name, the vote shut, a view opened.
#[derive(Clone, Copy, Debug, PartialEq, Eq)]
pub enum Event {
    HeardQuorum(Name),
    Shutting,
    Opening,
}

impl TryFrom<u32> for Grade {
    type Error = Refusal;

    ghost try_from_gives = { λ number r. r ≡ ok_or (grade_of number) OutOfRange };

    fn try_from(number: u32) -> Result<Grade, Refusal> {
        match number {
            1 => Ok(Grade::One),
            2 => Ok(Grade::Two),
            _ => Err(Refusal::OutOfRange),
        }
    }
}

impl From<Grade> for u32 {
    ghost from_gives = { λ grade number. number ≡ graded grade };

    fn from(grade: Grade) -> u32 {
        grade as u32
    }
}

impl SecondVote {
    /// The second vote after an event: a waiting one is given or shut, and only a new view makes it wait again.
    pub fn step(self, event: Event) -> SecondVote
        ensures { result ≡ after self event }
    {
        match (self, event) {
            (SecondVote::Waiting, Event::HeardQuorum(name)) => SecondVote::Given(name),
            (SecondVote::Waiting, Event::Shutting) => SecondVote::Shut,
            (_, Event::Opening) => SecondVote::Waiting,
            (kept, _) => kept,
        }
    }
}
