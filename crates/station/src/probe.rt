ghost use Rattle.model.specs.Passing.{ProbeCall};
ghost use Rattle.station.specs.Meaning.{desk_of};

use crate::outbox::Outbox;
use crate::stations::Station;
use broadcast::{Broadcast, Observe};
use model::{Claim, Probed, Refusal, Sent};

impl<B: Broadcast> Station<B> {
    /// Answers the highest certificate where the height has reached the view. Else it shuts the second vote, sends the highest certificate
    /// unless that is genesis, states its claim and answers the height.
    pub fn probe(&mut self, out: &mut Outbox<'_>) -> Result<Probed, Refusal>
        ensures { ProbeCall (desk_of B.Observe self.old out.old) (desk_of B.Observe self.new out.new) result }
    {
        if !out.has_room(2) {
            return Err(Refusal::NoPlaces);
        }
        let view = self.cast.view();
        let highest = self.state.highest;
        if view <= highest.view {
            return Ok(Probed::Adopt(highest));
        }
        self.cast.shut();
        if highest.view != 0 {
            out.put(Sent::Certificate(highest));
        }
        out.put(Sent::Claim(Claim {
            station: self.cast.numbers().own(),
            view,
            height: highest.view,
        }));
        Ok(Probed::NoAdopt(highest.view))
    }
}
