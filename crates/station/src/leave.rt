ghost use Rattle.model.specs.Questions.{Judged};
ghost use Rattle.model.specs.Passing.{leave_questions, LeaveCall};
ghost use Rattle.station.specs.Meaning.{desk_of};

use crate::outbox::Outbox;
use crate::stations::Station;
use broadcast::{Broadcast, Observe};
use model::{LAST_VIEW, Refusal, SecondVote, Sent};

impl<B: Broadcast> Station<B> {
    fn judge_leave(&self, out: &Outbox<'_>) -> Result<(), Refusal>
        ensures { Judged (leave_questions (desk_of B.Observe self.now out.now)) (λ _. Unit {0}) result }
    {
        if !out.has_room(2) {
            return Err(Refusal::NoPlaces);
        }
        let view = self.cast.view();
        let height = self.state.highest.view;
        if self.cast.second() != SecondVote::Shut && height < view {
            return Err(Refusal::VoteOpen);
        }
        if view.max(height) >= LAST_VIEW {
            return Err(Refusal::LastView);
        }
        Ok(())
    }

    /// Opens the view after the larger of view and height, drops the kept claims, and answers the view opened. Where the height had reached the
    /// old view it sends the highest certificate.
    pub fn leave(&mut self, out: &mut Outbox<'_>) -> Result<u32, Refusal>
        ensures { LeaveCall (desk_of B.Observe self.old out.old) (desk_of B.Observe self.new out.new) result }
    {
        self.judge_leave(out)?;
        let view = self.cast.view();
        let highest = self.state.highest;
        let next = view.max(highest.view) + 1;
        if view <= highest.view {
            out.put(Sent::Certificate(highest));
        }
        self.cast.open(next);
        self.state.claims = [None; 28];
        self.state.grounded = false;
        Ok(next)
    }
}
