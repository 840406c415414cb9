//! What holds of a station over every broadcast, whatever its make.

ghost use Rattle.model.specs.Broadcasts.{Hears};
ghost use Rattle.model.specs.StationLaws.{Follows};
ghost use Rattle.model.specs.Voting.{VoicesCall};
ghost use Rattle.book.specs.Meaning.{book_of};
ghost use Rattle.station.specs.Meaning.{core_of, desk_of};

use crate::outbox::Outbox;
use crate::stations::Station;
use book::Book;
use broadcast::Broadcast;
use model::{Refusal, Voices};

/// Hands voices to the station, and promises what every make keeps: no entry, view or first vote is altered, and a second vote is given
/// only with a quorum; so the station's view, height and votes stay or rise as they do in every call.
pub fn hear_voices<B: Broadcast>(
    station: &mut Station<B>,
    book: &Book<'_>,
    out: &mut Outbox<'_>,
    voices: Voices,
) -> Result<(), Refusal>
    ensures clauses { VoicesCall B.Observe.fits B.Observe.free Hears (desk_of B.Observe station.old out.old) (book_of book.now) voices
        (desk_of B.Observe station.new out.new) result }
    ensures follows { Follows (core_of B.Observe station.old) (core_of B.Observe station.new) }
{
    station.voices(book, out, voices)
}
