//! The way down a parent chain.
ghost use Rattle.std.specs.Prelude.{◌≡◌, false};
ghost use Rattle.model.specs.Names.{same};
ghost use Rattle.model.specs.Chains.{last_listed};
ghost use Rattle.book.specs.Places.{find};
ghost use Rattle.listing.specs.Steps.{Walked, backbone_of};

use book::shelf::Shelf;
use model::{BackboneBlock, Block, Name};

// The backbone block of that name, if it is held.
fn backbone(shelf: Shelf<'_>, name: Name) -> Option<BackboneBlock>
    ensures { result ≡ backbone_of (find shelf.entry.blocks.now name) }
{
    match shelf.find(name)? {
        Block::Backbone(block) => Some(block),
        Block::Side(_) => None,
    }
}

// The block on the target's chain whose parent is the last listed one.
// A while let: std counts successors as endless, and a take that ends it would need a bound on the chain's length.
pub(crate) fn walk(shelf: Shelf<'_>, target: Name, last: Name) -> Option<BackboneBlock>
    requires { same target last ≡ false }
    ensures { Walked (find shelf.entry.blocks.now) target last result }
{
    let mut at = backbone(shelf, target);
    while let Some(block) = at {
        if block.parent.name == last {
            return Some(block);
        }
        at = backbone(shelf, block.parent.name);
    }
    None
}

// The last line that the book holds as a backbone block, genesis where there is none.
pub(crate) fn last_listed(shelf: Shelf<'_>, lines: &[Name]) -> Name
    ensures { result ≡ last_listed (find shelf.entry.blocks.now) lines.now }
{
    lines
        .iter()
        .rev()
        .find(|line| backbone(shelf, **line).is_some())
        .copied()
        .unwrap_or(Name::GENESIS)
}
