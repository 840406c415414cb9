ghost use Rattle.std.specs.Prelude.{◌≡◌, length};
ghost use Rattle.places.specs.Held.{held};
ghost use Rattle.book.specs.Places.{Sound};
ghost use Rattle.book.specs.Index.{Indexed};

use model::Block;
use places::Bounded;

/// The blocks that a station holds, in the first 4,096 of the places that the caller hands in, or in fewer where fewer were handed in;
/// beside them the numbers of their places, sorted by name.
/// No two have one name; each names only held blocks: side blocks as references, and as parent genesis or a backbone block of the stated, lower view.
// The index is a list of numbers and no map: a map would be on a heap, and here the caller lends the memory.
#[derive(Drop)]
pub struct Book<'a> {
    pub(crate) blocks: Bounded<'a, Block, 4096>,
    pub(crate) index: Bounded<'a, u16, 4096>,
    ghost level: { length (held index) ≡ length (held blocks) },
    ghost sound: { Sound (held blocks) },
    ghost indexed: { Indexed (held blocks) (held index) },
}
