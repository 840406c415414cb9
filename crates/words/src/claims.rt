ghost use Rattle.std.specs.Prelude.{◌≡◌};
ghost use Rattle.words.specs.Claims.{small_claims, WritesClaims, ReadsClaims};

use crate::judging::hold_claims;
use crate::kinds::Kind;
use crate::parts::{is_small, value_of, word_of};
use crate::writing::put;
use model::{OfferClaim, Refusal};

/// Whether each number of the claims fits its word.
fn are_small_claims(claims: &[OfferClaim]) -> bool
    ensures { result ≡ small_claims claims.now }
{
    claims
        .iter()
        .all(|claim| is_small(claim.station) && is_small(claim.height))
}

/// Writes the words of an offer's claims to the front of those handed in, and answers how many there are.
pub fn write_claims(claims: &[OfferClaim], words: &mut [u32]) -> Result<usize, Refusal>
    ensures { WritesClaims claims.now words.old words.new result }
{
    if claims.len() > 28 || !are_small_claims(claims) || words.len() < 2 * claims.len() {
        return Err(Refusal::CannotWrite);
    }
    // Counted, with no words.chunks_exact_mut(2).zip(claims): of that, std's contract says nothing about the words after the loop.
    for (i, claim) in claims.iter().enumerate() {
        put(
            words,
            2 * i,
            &[
                word_of(Kind::Station, claim.station),
                word_of(Kind::View, claim.height),
            ],
        );
    }
    Ok(2 * claims.len())
}

/// Puts the claims that the words are into the front of the places handed in, and answers how many there are.
pub fn read_claims(words: &[u32], claims: &mut [OfferClaim]) -> Result<usize, Refusal>
    ensures { ReadsClaims words.now claims.old claims.new result }
{
    if !hold_claims(words) {
        return Err(Refusal::NotWhole);
    }
    let count = words.len() / 2;
    if claims.len() < count {
        return Err(Refusal::CannotWrite);
    }
    // Counted: tried claims.iter_mut().zip(..), but the loop's invariant cannot name claims that are lent to a zip.
    for (i, pair) in words.chunks_exact(2).enumerate() {
        claims[i] = OfferClaim {
            station: value_of(pair[0]),
            height: value_of(pair[1]),
        };
    }
    Ok(count)
}
