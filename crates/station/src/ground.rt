ghost use Rattle.model.specs.Questions.{Judged};
ghost use Rattle.model.specs.Claiming.{ground_questions, GroundCall};
ghost use Rattle.station.specs.Meaning.{core_of, tells};

use crate::grounds::Ground;
use crate::stations::Station;
use broadcast::{Broadcast, Observe};
use model::Refusal;
use tallies::keepers;

impl<B: Broadcast> Station<B> {
    fn judge_ground(&self) -> Result<(), Refusal>
        ensures { Judged (ground_questions (core_of B.Observe self.now)) (λ _. Unit {0}) result }
    {
        let numbers = self.cast.numbers();
        let view = self.cast.view();
        if !numbers.leads(view) || self.state.grounded {
            return Err(Refusal::NoGroundDue);
        }
        let height = self.state.highest.view;
        if height >= view {
            return Err(Refusal::NoGroundYet);
        }
        if height + 1 < view && !numbers.holds_quorum(keepers(numbers, &self.state.claims)) {
            return Err(Refusal::NoGroundYet);
        }
        Ok(())
    }

    /// Gives a ground to propose on, once in a view: the view and the highest certificate, the coming block's parent.
    pub fn ground(&mut self) -> Result<Ground, Refusal>
        ensures { GroundCall tells (core_of B.Observe self.old) (core_of B.Observe self.new) result }
    {
        self.judge_ground()?;
        self.state.grounded = true;
        Ok(Ground {
            view: self.cast.view(),
            parent: self.state.highest,
        })
    }
}
