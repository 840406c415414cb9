//! What holds of every broadcast, whatever its make.

ghost use Rattle.model.specs.Broadcasts.{Hears, HearAnswered};

use crate::Broadcast;
use model::{Grade, Name, Refusal};

/// Hears, and promises of it what every make keeps: no entry, view or first vote is altered, a second vote is given
/// only with a quorum, and a mask is sent only with a first vote.
pub fn hear<B: Broadcast>(
    cast: &mut B,
    grade: Grade,
    name: Name,
    mask: u32,
) -> Result<Option<u32>, Refusal>
    ensures { HearAnswered B.Observe.fits B.Observe.free Hears
        (B.Observe.meaning cast.old) grade name mask (B.Observe.meaning cast.new) result }
{
    cast.hear(grade, name, mask)
}
