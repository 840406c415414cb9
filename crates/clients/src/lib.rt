//! Small hosts: how the core's calls are used, and what the compiler keeps a host from doing.

#![tactic(auto)]

ghost use Rattle.clients.specs.Offers.{TakesOffer};

use model::{Offer, OfferClaim, Refusal};
use words::{Message, read, read_claims};

/// Reads an offer, puts its claims into the places handed in, and then clears the words for the next message.
/// The claims are a part of the words, so the words can be cleared only once the claims are done with.
pub fn take_offer(words: &mut [u32], places: &mut [OfferClaim]) -> Result<(Offer, usize), Refusal>
    ensures { TakesOffer words.old words.new places.old places.new result }
{
    let Message::Offer { offer, claims } = read(words)? else {
        return Err(Refusal::NotWhole);
    };
    let count = read_claims(claims, places)?;
    words.fill(0);
    Ok((offer, count))
}
