//! A shelf with marks beside its places: first of all side blocks that references lead to, and then without the listed ones.
ghost use Rattle.std.specs.Prelude.{◌≡◌, ◌+◌, ◌<◌, List, length};
ghost use Rattle.model.specs.declared.names.Name.{Name as NameT};
ghost use Rattle.model.specs.Blocks.{referred};
ghost use Rattle.model.specs.Listing.{Reached};
ghost use Rattle.places.specs.Held.{held};
ghost use Rattle.book.specs.Places.{find};
ghost use Rattle.listing.specs.Marks.{Marks, Adds, Among, Spread, Pending, Turned, Gathered, count, Remarked};

use book::shelf::Shelf;
use model::{Name, References};
use places::Bounded;

// The blocks of a book in their places, and a mark beside each place.
// Marks and no set: the blocks are lent to be read only, and a set of names would need a heap.
#[derive(Drop)]
pub(crate) struct MarkedShelf<'a> {
    pub(crate) shelf: Shelf<'a>,
    pub(crate) marked: [bool; 4096],
}

impl<'a> MarkedShelf<'a> {
    // Sets the mark of the block of that name, or takes it away.
    fn turn(&mut self, name: Name, on: bool)
        ensures { Remarked (λ bs. Turned bs name on) self.old self.new }
    {
        if let Some(place) = self.shelf.place_of(name) {
            self.marked[place] = on;
        }
    }

    // Marks the blocks that these references name.
    fn mark_all(&mut self, references: References)
        ensures { Remarked (λ bs. Adds bs (Among (referred references))) self.old self.new }
    {
        for name in references {
            self.turn(name, true);
        }
    }

    // Marks what the block at that place refers to, if it is marked itself.
    fn spread(&mut self, place: usize)
        requires { place < length self.old.shelf.blocks.now }
        ensures { Remarked (λ bs ms more. (start : List NameT) → Spread bs start (place + 1) ms → Spread bs start place more) self.old self.new }
    {
        if !self.marked[place] {
            return;
        }
        if let Some(side) = self.shelf.side_at(place) {
            self.mark_all(side.references);
        }
    }

    // The shelf with a mark at all that these references lead to: each block is passed once, from the newest down.
    // Always in line: else the marks, 4 KiB, are made in one place and moved to another.
    #[inline(always)]
    pub(crate) fn reached(shelf: Shelf<'a>, start: References) -> MarkedShelf<'a>
        ensures shelf { result.shelf ≡ shelf.entry }
        ensures marks { Marks shelf.entry.blocks.now (Reached (find shelf.entry.blocks.now) (referred start)) result.marked }
    {
        let mut marks = MarkedShelf {
            shelf,
            marked: [false; 4096],
        };
        marks.mark_all(start);
        // A range of places: the marks change while it runs, so no iterator over them can be held.
        for place in (0..shelf.len()).rev() {
            marks.spread(place);
        }
        marks
    }

    // Takes the marks of listed blocks away.
    pub(crate) fn unmark_listed(&mut self, lines: &[Name])
        ensures { Remarked (λ bs ms less. (start : List NameT) → Marks bs (Reached (find bs) start) ms → Marks bs (Pending bs start lines.now) less) self.old self.new }
    {
        for line in lines {
            self.turn(*line, false);
        }
    }

    // The numbers of the marked places, in their order.
    pub(crate) fn gather<'p>(&self, places: &'p mut [u16; 4096]) -> Bounded<'p, u16, 4096>
        ensures count { length (held result) ≡ count self.now.marked }
        ensures all { Gathered self.now.marked (length self.now.marked) (held result) (length (held result)) }
    {
        let mut waiting = Bounded::over(places);
        for (place, marked) in self.marked.iter().enumerate() {
            if *marked {
                waiting.put(place as u16);
            }
        }
        waiting
    }
}
