ghost use Rattle.model.specs.Questions.{Judged};
ghost use Rattle.station.specs.Meaning.{core_of};
ghost use Rattle.station.specs.Ready.{view_questions};

use crate::stations::Station;
use broadcast::{Broadcast, Observe};
use model::Refusal;
use std::cmp::Ordering;

impl<B: Broadcast> Station<B> {
    /// Whether the view is the current one.
    pub(crate) fn judge_view(&self, view: u32) -> Result<(), Refusal>
        ensures { Judged (view_questions (core_of B.Observe self.now) view) (λ _. Unit {0}) result }
    {
        match view.cmp(&self.cast.view()) {
            Ordering::Less => Err(Refusal::PastView),
            Ordering::Equal => Ok(()),
            Ordering::Greater => Err(Refusal::FutureView),
        }
    }
}
