//! The lines of one backbone block.
ghost use Rattle.std.specs.Prelude.{◌≡◌, ◌+◌, ◌≤◌, true, List, length};
ghost use Rattle.model.specs.declared.names.Name.{Name as NameT};
ghost use Rattle.model.specs.Blocks.{referred};
ghost use Rattle.model.specs.Books.{sides_held};
ghost use Rattle.places.specs.Held.{held, bound};
ghost use Rattle.book.specs.Places.{find};
ghost use Rattle.listing.specs.Marks.{Marks, Pending, Gathered, count};
ghost use Rattle.listing.specs.Steps.{Listed, BlockListed};

use crate::Lines;
use crate::marks::MarkedShelf;
use book::shelf::Shelf;
use model::{BackboneBlock, Refusal};
use orders::Order;

// Appends the marked blocks one by one: each time the first, by the order, whose references are all listed.
fn append<O: Order>(marks: &mut MarkedShelf<'_>, waiting: &[u16], lines: &mut Lines<'_>)
    requires all { Gathered marks.old.marked (length marks.old.marked) waiting.now (length waiting.now) }
    requires room { length (held lines.old) + count marks.old.marked ≤ bound lines.old }
    ensures listed { (start : List NameT) → sides_held (find marks.old.shelf.blocks.now) start ≡ true → Marks marks.old.shelf.blocks.now (Pending marks.old.shelf.blocks.now start (held lines.old)) marks.old.marked → Listed O.Order.precedes (find marks.old.shelf.blocks.now) start (held lines.old) (held lines.new) }
    ensures bound { bound lines.new ≡ bound lines.old }
    ensures size { length (held lines.new) ≤ length (held lines.old) + count marks.old.marked }
{
    while let Some((place, block)) = marks.pick::<O>(waiting) {
        marks.marked[place] = false;
        lines.put(block.name);
    }
}

// Lists a block: its unlisted side blocks, and then the block. It answers how many lines were added;
// nothing changes where the list has too few places.
pub(crate) fn list_block<O: Order>(
    shelf: Shelf<'_>,
    block: BackboneBlock,
    lines: &mut Lines<'_>,
) -> Result<usize, Refusal>
    requires { sides_held (find shelf.blocks.now) (referred block.references) ≡ true }
    ensures listed { BlockListed O.Order.precedes (find shelf.entry.blocks.now) block (bound lines.old) (held lines.old) (held lines.new) result }
    ensures bound { bound lines.new ≡ bound lines.old }
{
    let mut marks = MarkedShelf::reached(shelf, block.references);
    marks.unmark_listed(lines.as_slice());
    let mut places = [0u16; 4096];
    let waiting = marks.gather(&mut places);
    let count = waiting.len();
    if !lines.has_room(count + 1) {
        return Err(Refusal::ListFull);
    }
    append::<O>(&mut marks, waiting.as_slice(), lines);
    lines.put(block.name);
    Ok(count + 1)
}
