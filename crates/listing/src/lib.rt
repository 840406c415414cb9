//! Listing the blocks of a chain in their order, and looking up what holds for a sonde.

#![tactic(auto)]

ghost use Rattle.std.specs.Prelude.{◌≡◌};
ghost use Rattle.model.specs.Chains.{Extended, Listing, last_listed, OneListing, ListingsBegin, ListingsStay};
ghost use Rattle.model.specs.Examples.{WorkedListing};
ghost use Rattle.places.specs.Held.{held, bound};
ghost use Rattle.book.specs.Meaning.{book_of};

mod chain;
mod lines;
mod lookups;
mod marks;
mod pick;

use book::Book;
use chain::{last_listed, walk};
use lines::list_block;
pub use lookups::lookup;
use model::{Name, Refusal};
use orders::Order;
use places::Bounded;

/// The lines of a list, oldest first.
pub type Lines<'a> = Bounded<'a, Name, 4096>;

// Lists the block above the last listed one on the target's chain. It stands apart from `extend`, whose proof adds the theorems to this answer.
fn step<O: Order>(
    book: &Book<'_>,
    target: Name,
    lines: &mut Lines<'_>,
) -> Result<(usize, u32), Refusal>
    ensures answer { Extended O.Order.precedes (book_of book.now) target (bound lines.old) (held lines.old) (held lines.new) result }
    ensures bound { bound lines.new ≡ bound lines.old }
{
    let shelf = book.shelf();
    let last = last_listed(shelf, lines.as_slice());
    if target == last {
        return Ok((0, 0));
    }
    let block = walk(shelf, target, last).ok_or(Refusal::OffChain)?;
    let count = list_block::<O>(shelf, block, lines)?;
    Ok((count, block.view))
}

/// Appends one backbone block's lines: of the block on the target's parent chain whose parent is the last listed backbone block.
/// That is the last line that the book holds as a backbone block, genesis where there is none.
/// It answers how many lines were added and the view listed, (0, 0) where the target is listed; or `OffChain` (22), also for a target that the book
/// does not hold, or `ListFull` (23), and then nothing changes.
///
/// A list that is the listing of a chain stays one. The listing of a chain is unique and depends on the blocks alone,
/// a book that holds more blocks has the same, and it begins the listing of every chain above it.
// That the bound stays is a clause of each function that is lent the list: another could be put in its place, so no type says it.
pub fn extend<O: Order>(
    book: &Book<'_>,
    target: Name,
    lines: &mut Lines<'_>,
) -> Result<(usize, u32), Refusal>
    ensures answer { Extended O.Order.precedes (book_of book.now) target (bound lines.old) (held lines.old) (held lines.new) result }
    ensures bound { bound lines.new ≡ bound lines.old }
    ensures keeps { Listing O.Order.precedes (book_of book.now) (held lines.old) (last_listed (book_of book.now) (held lines.old)) → Listing O.Order.precedes (book_of book.now) (held lines.new) (last_listed (book_of book.now) (held lines.new)) }
    ensures unique { OneListing }
    ensures begins { ListingsBegin }
    ensures stays { ListingsStay }
    ensures worked { WorkedListing }
{
    step::<O>(book, target, lines)
}
