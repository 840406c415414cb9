//! The book's blocks in their places, to read: a name is found by halving the sorted index.
ghost use Rattle.std.specs.Prelude.{◌≡◌, ◌<◌, ◌≤◌, length, Some, MatchOption, ◌≢◌};
ghost use Rattle.std.specs.List.{slice_get};
ghost use Rattle.model.specs.declared.blocks.SideBlock.{SideBlock as SideT};
ghost use Rattle.model.specs.declared.blocks.Block.TheVariants.{Side};
ghost use Rattle.model.specs.Blocks.{referred};
ghost use Rattle.model.specs.Books.{is_side, of_view, sides_held, parent_held, named_held};
ghost use Rattle.book.specs.Places.{Sound, Placed, find};
ghost use Rattle.book.specs.Index.{Indexed, Sought, name_there};

use model::{Block, Name, Parent, References, SideBlock};

/// The blocks of a book in their places, with the index of places sorted by name. No answer of the book depends on a place;
/// a reader that marks blocks does it by their places.
// Two slices, not one of pairs: the blocks stand in the order in which they came, the index in that of their names.
// No impl Model: what marks the blocks asks where they stand, and a book under names does not say it.
#[derive(Clone, Copy)]
pub struct Shelf<'a> {
    pub(crate) blocks: &'a [Block],
    pub(crate) index: &'a [u16],
    ghost sound: { Sound blocks.now },
    ghost indexed: { Indexed blocks.now index.now },
    ghost level: { length index.now ≡ length blocks.now },
    ghost few: { length blocks.now ≤ 4096 },
}

impl<'a> Shelf<'a> {
    /// How many blocks there are.
    pub fn len(self) -> usize
        ensures { result ≡ length self.entry.blocks.now }
    {
        self.blocks.len()
    }

    /// The side block at that place, if one stands there.
    pub fn side_at(self, place: usize) -> Option<SideBlock>
        ensures { MatchOption result ((s : SideT) → slice_get self.entry.blocks.now place ≢ Some (Side s)) (λ s. slice_get self.entry.blocks.now place ≡ Some (Side s)) }
    {
        match self.blocks.get(place)? {
            Block::Side(side) => Some(*side),
            Block::Backbone(_) => None,
        }
    }

    // The name of the block at that place, or that of genesis where none stands there.
    fn name_at(self, place: u16) -> Name
        ensures { result ≡ name_there (slice_get self.entry.blocks.now place) }
    {
        self.blocks
            .get(usize::from(place))
            .map_or(Name::GENESIS, |block| block.name())
    }

    // Where the name stands in the index, or where it would.
    pub(crate) fn seek(self, name: Name) -> Result<usize, usize>
        ensures { Sought self.entry.blocks.now self.entry.index.now name result }
    {
        self.index
            .binary_search_by(|place| self.name_at(*place).cmp(&name))
    }

    /// The place of the block of that name.
    pub fn place_of(self, name: Name) -> Option<usize>
        ensures { Placed self.entry.blocks.now name result }
    {
        let k = self.seek(name).ok()?;
        Some(usize::from(self.index[k]))
    }

    /// The block of that name.
    pub fn find(self, name: Name) -> Option<Block>
        ensures { result ≡ find self.entry.blocks.now name }
    {
        let place = self.place_of(name)?;
        self.blocks.get(place).copied()
    }

    /// Whether a side block of that name is held.
    pub fn holds_side(self, name: Name) -> bool
        ensures { result ≡ is_side (find self.entry.blocks.now name) }
    {
        matches!(self.find(name), Some(Block::Side(_)))
    }

    /// Whether a backbone block of that name and view is held.
    pub fn holds_backbone(self, name: Name, view: u32) -> bool
        ensures { result ≡ of_view view (find self.entry.blocks.now name) }
    {
        matches!(self.find(name), Some(Block::Backbone(backbone)) if backbone.view == view)
    }

    // Whether each of these is a held side block.
    fn holds_sides(self, references: References) -> bool
        ensures { result ≡ sides_held (find self.entry.blocks.now) (referred references) }
    {
        references.into_iter().all(|name| self.holds_side(name))
    }

    /// Whether the parent is genesis or a held backbone block of the stated view.
    pub fn holds_parent(self, parent: Parent) -> bool
        ensures { result ≡ parent_held (find self.entry.blocks.now) parent }
    {
        if parent.name == Name::GENESIS {
            return parent.view == 0;
        }
        self.holds_backbone(parent.name, parent.view)
    }

    // Whether the blocks that this one names are held, of the needed sort and view.
    pub(crate) fn holds_named(self, block: Block) -> bool
        ensures { result ≡ named_held (find self.entry.blocks.now) block }
    {
        match block {
            Block::Side(side) => self.holds_sides(side.references),
            Block::Backbone(backbone) => {
                self.holds_sides(backbone.references) && self.holds_parent(backbone.parent)
            }
        }
    }
}
