ghost use Rattle.std.specs.Prelude.{◌≡◌, ◌+◌};
ghost use Rattle.model.specs.Adding.{AddCall};
ghost use Rattle.book.specs.Meaning.{book_of, count, bound, has_place, added};
ghost use Rattle.station.specs.Meaning.{core_of};

use crate::ranges::block_fits;
use crate::stations::Station;
use book::Book;
use broadcast::{Broadcast, Observe};
use model::{Added, Block, Refusal};

impl<B: Broadcast> Station<B> {
    /// Puts the block into the book, or finds it held.
    pub fn add(&self, book: &mut Book<'_>, block: Block) -> Result<Added, Refusal>
        ensures answer { AddCall (core_of B.Observe self.now) (book_of book.old) (has_place book.old) block (book_of book.new) result }
        ensures count { count book.new ≡ count book.old + added result }
        ensures bound { bound book.new ≡ bound book.old }
    {
        if block.author() >= self.cast.numbers().stations() {
            return Err(Refusal::NoSuchStation);
        }
        if !block_fits(block) {
            return Err(Refusal::OutOfRange);
        }
        book.add(block)
    }
}
