ghost use Rattle.std.specs.Prelude.{◌≡◌};
ghost use Rattle.model.specs.Passing.{TakeCall};
ghost use Rattle.places.specs.Held.{held, bound};

use model::Sent;
use places::Bounded;

/// What a station sends, oldest first, in places that the caller lends.
pub type Outbox<'a> = Bounded<'a, Sent, 32>;

/// Takes the oldest message out of the outbox, if there is one.
pub fn take(out: &mut Outbox<'_>) -> Option<Sent>
    ensures taken { TakeCall (held out.old) (held out.new) result }
    ensures bound { bound out.new ≡ bound out.old }
{
    out.oldest()
}
