ghost use Rattle.std.specs.Prelude.{◌≡◌, Some};
ghost use Rattle.model.specs.declared.blocks.Block.TheVariants.{Backbone};
ghost use Rattle.model.specs.Questions.{Judged};
ghost use Rattle.model.specs.Voting.{offered_form, offered_fit, from_leader, parent_certified, skips_claimed, OfferCall};
ghost use Rattle.book.specs.Meaning.{book_of};
ghost use Rattle.station.specs.Meaning.{core_of, desk_of};
ghost use Rattle.station.specs.Ready.{MayVote};

use crate::outbox::Outbox;
use crate::ranges::judge_ranges;
use crate::stations::Station;
use book::Book;
use broadcast::{Broadcast, Observe};
use model::{BackboneBlock, Block, Grade, Offer, OfferClaim, Refusal};
use tallies::{claimants, heights_below};

// An offer brings at most as many claims as there may be stations.
const MOST_CLAIMS: usize = 28;

// The public call takes offer and claims as two; a struct of both would be built once, and be opened again in each line that reads one.
impl<B: Broadcast> Station<B> {
    // Whether the sender leads the view and made the block.
    #[tactic(auto, unfolding(model::specs::Voting::from_leader))]
    fn is_from_leader(&self, offer: Offer, block: BackboneBlock) -> bool
        ensures { result ≡ from_leader (core_of B.Observe self.now) offer (Some (Backbone block)) }
    {
        self.cast.numbers().leader(offer.view) == offer.station && block.author == offer.station
    }

    // Whether the parent is genesis, or the mask holds a quorum.
    #[tactic(auto, unfolding(model::specs::Voting::parent_certified))]
    fn is_parent_certified(&self, offer: Offer, block: BackboneBlock) -> bool
        ensures { result ≡ parent_certified (core_of B.Observe self.now) offer (Some (Backbone block)) }
    {
        block.parent.view == 0 || self.cast.numbers().holds_quorum(offer.mask)
    }

    // Whether the parent is of the view before, or a quorum claims to know no certificate above it.
    #[tactic(auto, unfolding(model::specs::Voting::skips_claimed))]
    fn are_skips_claimed(&self, offer: Offer, claims: &[OfferClaim], block: BackboneBlock) -> bool
        ensures { result ≡ skips_claimed (core_of B.Observe self.now) offer claims.now (Some (Backbone block)) }
    {
        let numbers = self.cast.numbers();
        let parent = block.parent.view;
        offer.view as u64 <= parent as u64 + 1
            || numbers.holds_quorum(claimants(numbers, parent, claims))
    }

    // The questions on the offer's form.
    fn judge_offered_form(&self, offer: Offer, claims: &[OfferClaim]) -> Result<(), Refusal>
        ensures { Judged (offered_form (core_of B.Observe self.now) offer claims.now) (λ _. Unit {0}) result }
    {
        if offer.station >= self.cast.numbers().stations() {
            return Err(Refusal::NoSuchStation);
        }
        judge_ranges(offer.grade, offer.view, offer.name)?;
        if claims.len() > MOST_CLAIMS || !heights_below(claims, offer.view - 1) {
            return Err(Refusal::OutOfRange);
        }
        self.judge_view(offer.view)
    }

    // The questions on its block, its claims, the vote and the outbox.
    fn judge_offered_fit(
        &self,
        book: &Book<'_>,
        out: &Outbox<'_>,
        offer: Offer,
        claims: &[OfferClaim],
    ) -> Result<(), Refusal>
        ensures { Judged (offered_fit (desk_of B.Observe self.now out.now) (book_of book.now) offer claims.now)
            (λ _. MayVote (desk_of B.Observe self.now out.now)) result }
    {
        let Some(Block::Backbone(block)) = book.find(offer.name) else {
            return Err(Refusal::NotHeld);
        };
        if block.view != offer.view {
            return Err(Refusal::NotHeld);
        }
        if !self.is_from_leader(offer, block) {
            return Err(Refusal::NotFromLeader);
        }
        if !self.is_parent_certified(offer, block) {
            return Err(Refusal::NoQuorum);
        }
        if !self.are_skips_claimed(offer, claims, block) {
            return Err(Refusal::TooFewClaims);
        }
        if self.cast.first().is_some() {
            return Err(Refusal::AlreadyVoted);
        }
        if !out.has_room(2) {
            return Err(Refusal::NoPlaces);
        }
        Ok(())
    }

    /// Casts the first vote for the leader's block, and sends it as a voice of grade 1. It takes up no certificate.
    #[tactic(auto, using(crate::proofs::Parts::offer_parts))]
    pub fn offer(
        &mut self,
        book: &Book<'_>,
        out: &mut Outbox<'_>,
        offer: Offer,
        claims: &[OfferClaim],
    ) -> Result<(), Refusal>
        ensures { OfferCall (desk_of B.Observe self.old out.old) (book_of book.now) offer claims.now
            (desk_of B.Observe self.new out.new) result }
    {
        self.judge_offered_form(offer, claims)?;
        self.judge_offered_fit(book, out, offer, claims)?;
        self.cast.offer(offer.name)?;
        out.put(self.own_voice(Grade::One, offer.name));
        Ok(())
    }
}
