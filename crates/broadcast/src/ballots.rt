ghost use Rattle.std.specs.Prelude.{◌≡◌};
ghost use Rattle.model.specs.Quorums.{leads, first_quorum};
ghost use Rattle.model.specs.Ledgers.{Ledger, empty};
ghost use Rattle.model.specs.Broadcasts.{OfferAnswered, opened, closed};
ghost use Rattle.broadcast.specs.Ballots.{told, counted};

use model::{Event, Grade, Name, Numbers, Refusal, SecondVote};

/// What every make keeps of its view beside the ledgers: the numbers of Start, the view that is open, and both votes.
#[derive(Clone, Copy)]
pub(crate) struct Ballot {
    pub(crate) numbers: Numbers,
    pub(crate) view: u32,
    pub(crate) first: Option<Name>,
    pub(crate) second: SecondVote,
}

impl Ballot {
    /// In view 1, with no vote.
    pub(crate) fn fresh(numbers: Numbers) -> Ballot
        ensures { told result empty empty ≡ opened numbers 1 }
    {
        Ballot {
            numbers,
            view: 1,
            first: None,
            second: SecondVote::Waiting,
        }
    }

    /// Whether this station leads the view.
    pub(crate) fn leads(&self) -> bool
        ensures { result ≡ leads self.now.numbers self.now.view }
    {
        self.numbers.leads(self.view)
    }

    /// Begins a view, with no vote.
    pub(crate) fn open(&mut self, view: u32)
        ensures { told self.new empty empty ≡ opened self.old.numbers view }
    {
        self.view = view;
        self.first = None;
        self.second = self.second.step(Event::Opening);
    }

    /// Casts the first vote.
    pub(crate) fn offer(&mut self, name: Name) -> Result<(), Refusal>
        ensures { (one two : Ledger) → OfferAnswered (told self.old one two) name (told self.new one two) result }
    {
        if self.first.is_some() {
            return Err(Refusal::AlreadyVoted);
        }
        self.first = Some(name);
        Ok(())
    }

    /// Shuts a waiting second vote.
    pub(crate) fn shut(&mut self)
        ensures { (one two : Ledger) → told self.new one two ≡ closed (told self.old one two) }
    {
        self.second = self.second.step(Event::Shutting);
    }

    /// Counts the stations under the name in the ledger of that grade, which grew from `before` to `after`: whether they are a
    /// quorum only now. If so, and it is one of first votes, a waiting second vote is given.
    pub(crate) fn count(&mut self, grade: Grade, name: Name, before: u32, after: u32) -> bool
        ensures newly { result ≡ first_quorum self.old.numbers before after }
        ensures votes { self.new ≡ counted self.old grade name before after }
    {
        let newly = self.numbers.first_quorum(before, after);
        if newly && grade == Grade::One {
            self.second = self.second.step(Event::HeardQuorum(name));
        }
        newly
    }
}
