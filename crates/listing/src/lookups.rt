//! What holds for a sonde after the lines of a list.
ghost use Rattle.std.specs.Prelude.{◌≡◌};
ghost use Rattle.model.specs.Lookups.{entry_effect, entries, holding, lookup_questions, EqualLookups};
ghost use Rattle.model.specs.Examples.{WorkedLookups};
ghost use Rattle.model.specs.Questions.{Answered};
ghost use Rattle.places.specs.Held.{held};
ghost use Rattle.book.specs.Places.{find};
ghost use Rattle.book.specs.Meaning.{book_of};
ghost use Rattle.listing.specs.Steps.{line_effect};

use crate::Lines;
use book::Book;
use book::shelf::Shelf;
use model::{Binding, Block, Entry, Name, Refusal, view_fits};

// A bind takes effect when nothing holds, a release when its flight holds.
fn apply(sonde: u32, held: Option<Binding>, entry: Entry) -> Option<Binding>
    ensures { result ≡ entry_effect sonde held entry }
{
    match (held, entry) {
        (
            None,
            Entry::Bind {
                sonde: bound,
                certificate,
                flight,
            },
        ) if bound == sonde => Some(Binding {
            certificate,
            flight,
        }),
        (
            Some(binding),
            Entry::Release {
                sonde: released,
                flight,
            },
        ) if released == sonde && flight == binding.flight => None,
        _ => held,
    }
}

// What one line more does: nothing, unless the book holds it as a side block.
fn follow(shelf: Shelf<'_>, sonde: u32, held: Option<Binding>, line: Name) -> Option<Binding>
    ensures { result ≡ line_effect sonde held (find shelf.entry.blocks.now line) }
{
    match shelf.find(line) {
        Some(Block::Side(side)) => apply(sonde, held, side.entry),
        _ => held,
    }
}

// What holds for the sonde after these lines.
fn follow_all(shelf: Shelf<'_>, sonde: u32, lines: &[Name]) -> Option<Binding>
    ensures { result ≡ holding sonde (entries (find shelf.entry.blocks.now) lines.now) }
{
    lines
        .iter()
        .fold(None, |held, line| follow(shelf, sonde, held, *line))
}

/// The certificate and flight that hold for the sonde after the lines of the list, if any do; `OutOfRange` (3) for a number that no sonde has.
/// Lines that the book does not hold are passed over. Equal lists give equal answers.
pub fn lookup(book: &Book<'_>, lines: &Lines<'_>, sonde: u32) -> Result<Option<Binding>, Refusal>
    ensures answer { Answered (lookup_questions sonde) (held lines.now) (held lines.now) (λ b. b ≡ holding sonde (entries (book_of book.now) (held lines.now))) result }
    ensures equal { EqualLookups }
    ensures worked { WorkedLookups }
{
    if !view_fits(sonde) {
        return Err(Refusal::OutOfRange);
    }
    Ok(follow_all(book.shelf(), sonde, lines.as_slice()))
}
