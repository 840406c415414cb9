//! What a profile program does with a lookup: it converts a sonde's raw values with the constants of its certificate, or passes the sonde over.

#![tactic(auto)]

ghost use Rattle.std.specs.Prelude.{◌≡◌};
ghost use Rattle.model.specs.Lookups.{entries, holding, lookup_questions};
ghost use Rattle.model.specs.Questions.{Answered};
ghost use Rattle.places.specs.Held.{held};
ghost use Rattle.book.specs.Meaning.{book_of};
ghost use Rattle.profile.specs.Uses.{use_of};

pub mod uses;

use book::Book;
use listing::{Lines, lookup};
use model::Refusal;
use uses::Use;

/// What to do with the sonde's values: convert them with the certificate that holds, for its flight, or pass them over where none holds;
/// `OutOfRange` (3) for a number that no sonde has.
pub fn use_of(book: &Book<'_>, lines: &Lines<'_>, sonde: u32) -> Result<Use, Refusal>
    ensures { Answered (lookup_questions sonde) (held lines.now) (held lines.now) (λ u. u ≡ use_of (holding sonde (entries (book_of book.now) (held lines.now)))) result }
{
    Ok(Use::from(lookup(book, lines, sonde)?))
}
