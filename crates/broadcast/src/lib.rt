//! One view's broadcast: what it tells, what changes it, and its two makes, all-to-all and relayed.

#![tactic(auto)]

ghost use Rattle.std.specs.Prelude.{◌≡◌};
ghost use Rattle.std.specs.Option.{option_map};
ghost use Rattle.model.specs.Refusals.{number};
ghost use Rattle.model.specs.Questions.{Judged, first_no};
ghost use Rattle.model.specs.Ledgers.{under};
ghost use Rattle.model.specs.Broadcasts.{Meaning, Asking, Hearing, Keeps, ledger, complete, Completed, opened, closed};
ghost use Rattle.model.specs.Broadcasts.{OfferAnswered, HearAnswered, hear_questions};

use model::{Grade, Name, Numbers, Refusal, SecondVote};

// Two structs, each with its own `hear`: the project sets two makes that implement the traits. What they share is `Ballot` and `PerGrade`.
mod ballots;
pub mod clauses;
mod grades;
pub mod relayed;
pub mod relays;
pub mod support;
pub mod tallies;

pub use relayed::Relayed;
pub use tallies::AllToAll;

/// What a broadcast tells those who may only look.
pub trait Observe {
    /// The numbers of Start, the view, both votes and both ledgers.
    ghost meaning: { Self → Meaning };

    /// Whether mask and name fit the make.
    ghost fits: { Asking };

    /// Whether the places for them are free.
    ghost free: { Asking };

    /// The numbers of Start.
    fn numbers(&self) -> Numbers
        ensures { result ≡ (meaning self.now).numbers };

    /// The view that is open.
    fn view(&self) -> u32
        ensures { result ≡ (meaning self.now).view };

    /// The first vote, if it is cast.
    fn first(&self) -> Option<Name>
        ensures { result ≡ (meaning self.now).first };

    /// The second vote.
    fn second(&self) -> SecondVote
        ensures { result ≡ (meaning self.now).second };

    /// The mask of the stations under the name in the ledger of that grade.
    fn mask(&self, grade: Grade, name: Name) -> u32
        ensures { result ≡ under name (ledger (meaning self.now) grade) };

    // Grade, name and mask come as three: the ghost members take them so, and a struct would be opened again in each clause and each body.

    /// Why `hear` would be refused, if it would.
    fn refusal(&self, grade: Grade, name: Name, mask: u32) -> Option<Refusal>
        ensures { option_map number result ≡ first_no (hear_questions fits free (meaning self.now) grade name mask) };

    /// The same as an answer that `?` hands on.
    fn judge(&self, grade: Grade, name: Name, mask: u32) -> Result<(), Refusal>
        ensures { Judged (hear_questions fits free (meaning self.now) grade name mask) (λ _. Unit {0}) result }
    {
        match self.refusal(grade, name, mask) {
            Some(why) => Err(why),
            None => Ok(()),
        }
    }

    /// The name for which the view is complete, if it is for one.
    fn completed(&self) -> Option<Name>
        ensures { Completed (meaning self.now) result };

    /// Whether the view is complete for the name.
    fn is_complete(&self, name: Name) -> bool
        ensures { result ≡ complete (meaning self.now) name }
    {
        self.numbers().holds_quorum(self.mask(Grade::Two, name))
    }
}

/// What changes a broadcast. A refused call changes nothing.
pub trait Broadcast: Observe + Sized {
    /// What an accepted `hear` does in this make.
    ghost hears: { Hearing };

    /// A broadcast in view 1.
    fn fresh(numbers: Numbers) -> Self
        ensures { Self.Observe.meaning result ≡ opened numbers 1 };

    /// Begins a view: no vote, and nothing heard.
    fn open(&mut self, view: u32)
        ensures { Self.Observe.meaning self.new ≡ opened (Self.Observe.meaning self.old).numbers view };

    /// Casts the first vote.
    fn offer(&mut self, name: Name) -> Result<(), Refusal>
        ensures { OfferAnswered (Self.Observe.meaning self.old) name (Self.Observe.meaning self.new) result };

    /// Hears the stations of the mask for the name, and answers the mask to send, if there is one.
    fn hear(&mut self, grade: Grade, name: Name, mask: u32) -> Result<Option<u32>, Refusal>
        ensures { HearAnswered Self.Observe.fits Self.Observe.free hears
            (Self.Observe.meaning self.old) grade name mask (Self.Observe.meaning self.new) result };

    /// Shuts a waiting second vote.
    fn shut(&mut self)
        ensures { Self.Observe.meaning self.new ≡ closed (Self.Observe.meaning self.old) };

    ghost keeps: { Keeps Self.Observe.fits Self.Observe.free hears };
}
