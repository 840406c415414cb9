//! Relayed: the leader hears the others one by one, and they hear of a quorum from the leader.

ghost use Rattle.std.specs.Prelude.{◌≡◌, None};
ghost use Rattle.model.specs.Questions.{first_no};
ghost use Rattle.model.specs.Ledgers.{under};
ghost use Rattle.model.specs.Broadcasts.{ledger, entered, hear_questions};
ghost use Rattle.model.specs.Makes.{relay_fits, relay_free, relay_hears, room, suits};
ghost use Rattle.broadcast.specs.Relays.{relay};
ghost use Rattle.model.proofs.Makes.{relay_keeps};

use crate::ballots::Ballot;
use crate::grades::PerGrade;
use crate::relayed::Relayed;
use crate::support::Support;
use crate::{Broadcast, Observe};
use model::{Grade, Name, Numbers, Refusal, SecondVote};

impl Relayed {
    /// Whether mask and name fit: a leader hears one station for its own first vote, any other station a quorum.
    fn fits(&self, name: Name, mask: u32) -> bool
        ensures { result ≡ suits (relay self.now) name mask }
    {
        let numbers = self.ballot.numbers;
        if self.ballot.leads() {
            numbers.only_station(mask).is_some() && self.ballot.first == Some(name)
        } else {
            numbers.holds_quorum(mask)
        }
    }

    /// Whether the places are free: a leader's for the station, any other station's whole ledger.
    #[tactic(auto, using(crate::proofs::Supports::clear_of, crate::proofs::Supports::vacant_of))]
    fn is_free(&self, grade: Grade, mask: u32) -> bool
        ensures { result ≡ room (relay self.now) grade mask }
    {
        match self.supports.of(grade) {
            Some(held) => self.ballot.leads() && held.mask & mask == 0,
            None => true,
        }
    }

    /// Enters the stations of the mask under the name, and answers the mask of all that stand under it then.
    #[tactic(auto, using(crate::proofs::Supports::puts))]
    fn enter(&mut self, grade: Grade, name: Name, mask: u32) -> u32
        requires { first_no (hear_questions relay_fits relay_free (relay self.old) grade name mask) ≡ None }
        ensures meaning { relay self.new ≡ entered (relay self.old) grade name mask }
        ensures all { result ≡ under name (ledger (relay self.new) grade) }
    {
        let mask = self.mask(grade, name) | mask;
        *self.supports.of_mut(grade) = Some(Support { name, mask });
        mask
    }
}

impl Observe for Relayed {
    ghost meaning = { relay };

    ghost fits = { relay_fits };

    ghost free = { relay_free };

    // What a ballot tells is handed on in four methods: a method of the trait that tells all of it would ask more of other makes.
    fn numbers(&self) -> Numbers {
        self.ballot.numbers
    }

    fn view(&self) -> u32 {
        self.ballot.view
    }

    fn first(&self) -> Option<Name> {
        self.ballot.first
    }

    fn second(&self) -> SecondVote {
        self.ballot.second
    }

    #[tactic(auto, using(crate::proofs::Supports::mask_of))]
    fn mask(&self, grade: Grade, name: Name) -> u32 {
        match self.supports.of(grade) {
            Some(held) if held.name == name => held.mask,
            _ => 0,
        }
    }

    fn completed(&self) -> Option<Name> {
        let held = self.supports.two?;
        self.ballot
            .numbers
            .holds_quorum(held.mask)
            .then_some(held.name)
    }

    fn refusal(&self, grade: Grade, name: Name, mask: u32) -> Option<Refusal> {
        if !self.fits(name, mask) {
            Some(Refusal::DoesNotFit)
        } else if !self.is_free(grade, mask) {
            Some(Refusal::AlreadyEntered)
        } else {
            None
        }
    }
}

impl Broadcast for Relayed {
    ghost hears = { relay_hears };

    ghost keeps = { relay_keeps };

    fn fresh(numbers: Numbers) -> Relayed {
        Relayed {
            ballot: Ballot::fresh(numbers),
            supports: PerGrade::both(None),
        }
    }

    fn open(&mut self, view: u32) {
        self.ballot.open(view);
        self.supports = PerGrade::both(None);
    }

    fn offer(&mut self, name: Name) -> Result<(), Refusal> {
        self.ballot.offer(name)
    }

    fn hear(&mut self, grade: Grade, name: Name, mask: u32) -> Result<Option<u32>, Refusal> {
        self.judge(grade, name, mask)?;
        let before = self.mask(grade, name);
        let all = self.enter(grade, name, mask);
        let newly = self.ballot.count(grade, name, before, all);
        Ok((newly && self.ballot.leads()).then_some(all))
    }

    fn shut(&mut self) {
        self.ballot.shut();
    }
}
