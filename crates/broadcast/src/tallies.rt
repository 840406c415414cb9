//! All-to-all: every station hears every other.

ghost use Rattle.std.specs.Prelude.{◌≡◌, ◌<◌, None};
ghost use Rattle.model.specs.Questions.{first_no};
ghost use Rattle.model.specs.Ledgers.{under};
ghost use Rattle.model.specs.Broadcasts.{entered, hear_questions};
ghost use Rattle.model.specs.Makes.{tally_fits, tally_free, tally_hears};
ghost use Rattle.broadcast.specs.Tallies.{tally};
ghost use Rattle.model.proofs.Makes.{tally_keeps};

use crate::ballots::Ballot;
use crate::grades::PerGrade;
use crate::{Broadcast, Observe};
use model::{Grade, Name, Numbers, Refusal, SecondVote};

/// A broadcast that keeps a name for each station and grade. It is not copied, since a copy could vote again.
#[derive(Drop)]
pub struct AllToAll {
    ballot: Ballot,
    ledgers: PerGrade<[Option<Name>; 28]>,
}

/// The mask of the stations under the name.
fn mask_under(ledger: &[Option<Name>; 28], name: Name) -> u32
    ensures { result ≡ under name ledger.now }
{
    let mut mask: u32 = 0;
    for entry in ledger.iter().rev() {
        mask = 2 * mask + u32::from(*entry == Some(name));
    }
    mask
}

impl AllToAll {
    /// Enters the station of the mask under the name.
    fn enter(&mut self, grade: Grade, name: Name, mask: u32)
        requires { first_no (hear_questions tally_fits tally_free (tally self.old) grade name mask) ≡ None }
        ensures { tally self.new ≡ entered (tally self.old) grade name mask }
    {
        if let Some(station) = self.ballot.numbers.only_station(mask) {
            self.ledgers.of_mut(grade)[station] = Some(name);
        }
    }
}

impl Observe for AllToAll {
    ghost meaning = { tally };

    ghost fits = { tally_fits };

    ghost free = { tally_free };

    fn numbers(&self) -> Numbers {
        self.ballot.numbers
    }

    fn view(&self) -> u32 {
        self.ballot.view
    }

    fn first(&self) -> Option<Name> {
        self.ballot.first
    }

    fn second(&self) -> SecondVote {
        self.ballot.second
    }

    fn mask(&self, grade: Grade, name: Name) -> u32 {
        mask_under(self.ledgers.of(grade), name)
    }

    fn completed(&self) -> Option<Name> {
        for entry in &self.ledgers.two {
            if let Some(name) = entry
                && self.is_complete(*name)
            {
                return Some(*name);
            }
        }
        None
    }

    fn refusal(&self, grade: Grade, _name: Name, mask: u32) -> Option<Refusal> {
        let Some(station) = self.ballot.numbers.only_station(mask) else {
            return Some(Refusal::DoesNotFit);
        };
        let entry = self.ledgers.of(grade)[station];
        entry.is_some().then_some(Refusal::AlreadyEntered)
    }
}

impl Broadcast for AllToAll {
    ghost hears = { tally_hears };

    ghost keeps = { tally_keeps };

    fn fresh(numbers: Numbers) -> AllToAll {
        AllToAll {
            ballot: Ballot::fresh(numbers),
            ledgers: PerGrade::both([None; 28]),
        }
    }

    fn open(&mut self, view: u32) {
        self.ballot.open(view);
        self.ledgers = PerGrade::both([None; 28]);
    }

    fn offer(&mut self, name: Name) -> Result<(), Refusal> {
        self.ballot.offer(name)
    }

    // Both makes ask, enter and count, but what enters and what is answered differ: one body would be three calls through a trait of its own.
    fn hear(&mut self, grade: Grade, name: Name, mask: u32) -> Result<Option<u32>, Refusal> {
        self.judge(grade, name, mask)?;
        let before = self.mask(grade, name);
        self.enter(grade, name, mask);
        let after = self.mask(grade, name);
        self.ballot.count(grade, name, before, after);
        Ok(None)
    }

    fn shut(&mut self) {
        self.ballot.shut();
    }
}
