ghost use Rattle.std.specs.Prelude.{◌≡◌, ◌<◌};
ghost use Rattle.model.specs.Questions.{Judged};
ghost use Rattle.model.specs.Claiming.{claim_questions, ClaimCall};
ghost use Rattle.station.specs.Meaning.{core_of};

use crate::stations::Station;
use broadcast::{Broadcast, Observe};
use model::{Claim, Refusal, view_fits};

impl<B: Broadcast> Station<B> {
    // The claim's place among the kept ones.
    fn judge_claim(&self, claim: Claim) -> Result<usize, Refusal>
        ensures { Judged (claim_questions (core_of B.Observe self.now) claim) (λ place. (place ≡ claim.station) × (place < 28)) result }
    {
        if claim.station >= self.cast.numbers().stations() {
            return Err(Refusal::NoSuchStation);
        }
        if !view_fits(claim.view) || claim.height >= claim.view {
            return Err(Refusal::OutOfRange);
        }
        self.judge_view(claim.view + 1)?;
        if claim.height > self.state.highest.view {
            return Err(Refusal::ClaimTooHigh);
        }
        let place = claim.station as usize;
        if self.state.claims[place].is_some() {
            return Err(Refusal::AlreadyEntered);
        }
        Ok(place)
    }

    /// Keeps a claim of the view before the current one.
    pub fn claim(&mut self, claim: Claim) -> Result<(), Refusal>
        ensures { ClaimCall (core_of B.Observe self.old) claim (core_of B.Observe self.new) result }
    {
        let place = self.judge_claim(claim)?;
        self.state.claims[place] = Some(claim.height);
        Ok(())
    }
}
