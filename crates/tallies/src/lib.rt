//! Loops over claims: which stations claim, which have a kept claim, and whether the heights are in range.

#![tactic(auto)]

ghost use Rattle.std.specs.Prelude.{◌≡◌};
ghost use Rattle.model.specs.Claims.{claimants as claimants_of, keepers as keepers_of, heights_below, ClaimLaws};
ghost use Rattle.model.specs.Quorums.{stations};

use model::{Numbers, OfferClaim};

/// The mask of the stations with a claim of height at most `parent`, each once. Claims of others do not count.
pub fn claimants(numbers: Numbers, parent: u32, claims: &[OfferClaim]) -> u32
    ensures { result ≡ claimants_of (stations numbers) parent claims.now }
{
    let n = numbers.stations();
    let mut mask: u32 = 0;
    // A loop over the claim records that builds a mask: the form that the project sets for this count.
    for claim in claims {
        if claim.station < n && claim.height <= parent {
            mask |= 1u32 << claim.station;
        }
    }
    mask
}

/// Whether every claim has a height below `limit`.
pub fn heights_below(claims: &[OfferClaim], limit: u32) -> bool
    ensures { result ≡ heights_below limit claims.now }
{
    claims.iter().all(|claim| claim.height < limit)
}

/// The mask of the stations with a kept claim.
#[tactic(auto, using(model::proofs::Claims::keepers_none))]
pub fn keepers(numbers: Numbers, heights: &[Option<u32>; 28]) -> u32
    ensures { result ≡ keepers_of (stations numbers) heights.now }
{
    let n = numbers.stations() as usize;
    let mut mask: u32 = 0;
    for (i, height) in heights[..n].iter().enumerate() {
        if height.is_some() {
            mask |= 1u32 << i;
        }
    }
    mask
}

/// What these masks are, station by station.
pub fn claims_stand()
    ensures { ClaimLaws }
{}
