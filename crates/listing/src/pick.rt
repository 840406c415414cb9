//! The next line: the first, by the order, of the marked side blocks that refer to no marked one.
ghost use Rattle.std.specs.Prelude.{◌≡◌, ℕ, ◌+◌, List, length, Decides, MatchOption, slice_index};
ghost use Rattle.model.specs.declared.blocks.SideBlock.{SideBlock as SideT};
ghost use Rattle.model.specs.Blocks.{referred};
ghost use Rattle.listing.specs.Marks.{mark, Marked, Clear, Candidate, Best};

use crate::marks::MarkedShelf;
use model::{Name, References, SideBlock};
use orders::Order;

impl<'a> MarkedShelf<'a> {
    // Whether the block of that name is marked.
    fn is_marked(&self, name: Name) -> bool
        ensures { Decides result (Marked self.now.shelf.blocks.now self.now.marked name) }
    {
        matches!(self.shelf.place_of(name), Some(place) if self.marked[place])
    }

    // Whether none of these is marked.
    fn are_clear(&self, references: References) -> bool
        ensures { Decides result (Clear self.now.shelf.blocks.now self.now.marked (referred references)) }
    {
        !references.into_iter().any(|name| self.is_marked(name))
    }

    // Whether that place is marked.
    fn has_mark(&self, place: usize) -> bool
        ensures { result ≡ mark self.now.marked place }
    {
        place < self.marked.len() && self.marked[place]
    }

    // The side block at that place, if it is marked and refers to no marked one.
    // The mark comes first: half of those waiting are listed already, and their blocks need not be read.
    fn candidate(&self, place: usize) -> Option<SideBlock>
        ensures { MatchOption result ((s : SideT) → Candidate self.now.shelf.blocks.now self.now.marked place s → ⊥) (λ s. Candidate self.now.shelf.blocks.now self.now.marked place s) }
    {
        if !self.has_mark(place) {
            return None;
        }
        let side = self.shelf.side_at(place)?;
        self.are_clear(side.references).then_some(side)
    }

    // The first, by the order, of the best so far and the candidate at the place, if there is one.
    fn better<O: Order>(
        &self,
        best: Option<(usize, SideBlock)>,
        place: usize,
    ) -> Option<(usize, SideBlock)>
        ensures { (w : List ℕ) (i : ℕ) → slice_index w i ≡ place → Best O.Order.precedes self.now.shelf.blocks.now self.now.marked w i best → Best O.Order.precedes self.now.shelf.blocks.now self.now.marked w (i + 1) result }
    {
        let Some(block) = self.candidate(place) else {
            return best;
        };
        match best {
            Some((_, first)) if O::before(&block, &first) => Some((place, block)),
            Some(_) => best,
            None => Some((place, block)),
        }
    }

    // The place and block of the next line, of those waiting.
    pub(crate) fn pick<O: Order>(&self, waiting: &[u16]) -> Option<(usize, SideBlock)>
        ensures { Best O.Order.precedes self.now.shelf.blocks.now self.now.marked waiting.now (length waiting.now) result }
    {
        waiting.iter().fold(
            None,
            |best, place| self.better::<O>(best, usize::from(*place)),
        )
    }
}
