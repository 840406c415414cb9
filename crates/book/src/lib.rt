//! The block book, in places that the caller hands in.

#![tactic(auto)]

ghost use Rattle.std.specs.Prelude.{◌≡◌, ◌+◌, min, true, [], ◌∷◌, ◌++◌, length, None};
ghost use Rattle.model.specs.declared.names.Name.{Name as NameT};
ghost use Rattle.model.specs.Questions.{Answered};
ghost use Rattle.model.specs.Books.{Whole, is_side, of_view, parent_held, in_order, add_questions, AddDone};
ghost use Rattle.book.specs.Places.{joins};
ghost use Rattle.book.specs.Meaning.{blocks_of, index_of, book_of, count, bound, has_place, Judged, added};

pub mod kept;
pub mod shelf;

pub use kept::Book;
use model::{Added, Block, Name, Parent, Refusal};
use places::Bounded;
use shelf::Shelf;

// That the bound stays is said at each change, as of a bounded list: a ghost field sees one value and cannot speak of the one before.
impl<'a> Book<'a> {
    /// An empty book over these places: for each block one of `blocks`, and one of `index`, which finds it by name.
    pub fn over(blocks: &'a mut [Block], index: &'a mut [u16]) -> Book<'a>
        ensures holds { (n : NameT) → book_of result n ≡ None }
        ensures count { count result ≡ 0 }
        ensures bound { bound result ≡ min 4096 (min (length blocks.old) (length index.old)) }
    {
        Book {
            blocks: Bounded::over(blocks),
            index: Bounded::over(index),
        }
    }

    /// The blocks in their places, to read.
    pub fn shelf(&self) -> Shelf<'_>
        ensures blocks { result.blocks.now ≡ blocks_of self.now }
        ensures index { result.index.now ≡ index_of self.now }
        ensures whole { Whole (book_of self.now) }
    {
        Shelf {
            blocks: self.blocks.as_slice(),
            index: self.index.as_slice(),
        }
    }

    /// How many blocks are held.
    pub fn len(&self) -> usize
        ensures { result ≡ count self.now }
    {
        self.blocks.len()
    }

    /// Whether there is a place for one more block.
    pub fn has_place(&self) -> bool
        ensures { result ≡ has_place self.now }
    {
        self.blocks.has_room(1) && self.index.has_room(1)
    }

    /// The block of that name, if it is held.
    pub fn find(&self, name: Name) -> Option<Block>
        ensures { result ≡ book_of self.now name }
    {
        self.shelf().find(name)
    }

    /// Whether a side block of that name is held.
    pub fn holds_side(&self, name: Name) -> bool
        ensures { result ≡ is_side (book_of self.now name) }
    {
        self.shelf().holds_side(name)
    }

    /// Whether a backbone block of that name and view is held. Genesis is not held in a book: see `holds_parent`.
    pub fn holds_backbone(&self, name: Name, view: u32) -> bool
        ensures { result ≡ of_view view (book_of self.now name) }
    {
        self.shelf().holds_backbone(name, view)
    }

    /// Whether the parent is genesis or a held backbone block of the stated view.
    pub fn holds_parent(&self, parent: Parent) -> bool
        ensures { result ≡ parent_held (book_of self.now) parent }
    {
        self.shelf().holds_parent(parent)
    }

    // The answer to a block.
    fn judge(&self, block: Block) -> Result<Added, Refusal>
        ensures { Judged (book_of self.now) (has_place self.now) block result }
    {
        if !in_order(block) {
            return Err(Refusal::OutOfRange);
        }
        if !self.shelf().holds_named(block) {
            return Err(Refusal::NotHeld);
        }
        match self.find(block.name()) {
            Some(held) if held == block => Ok(Added::Held),
            Some(_) => Err(Refusal::NameTaken),
            None if self.has_place() => Ok(Added::New),
            None => Err(Refusal::BookFull),
        }
    }

    // Puts a new block into the next place.
    fn take_up(&mut self, block: Block)
        requires joins { joins (book_of self.old) block ≡ true }
        requires room { has_place self.old ≡ true }
        ensures blocks { blocks_of self.new ≡ blocks_of self.old ++ block ∷ [] }
        ensures bound { bound self.new ≡ bound self.old }
    {
        if let Err(k) = self.shelf().seek(block.name()) {
            let place = self.len() as u16;
            self.index.insert(k, place);
            self.blocks.put(block);
        }
    }

    /// Takes the block up, or finds it held; the book then holds it. It is asked whether its numbers are in order
    /// (its name is not that of genesis, its parent's view is lower), whether the blocks that it names are held, of the needed sort and view,
    /// whether its name is new or held with this content, and whether there is a place for a new name.
    pub fn add(&mut self, block: Block) -> Result<Added, Refusal>
        ensures answer { Answered (add_questions (book_of self.old) (has_place self.old) block) (book_of self.old) (book_of self.new) (AddDone (book_of self.old) (book_of self.new) block) result }
        ensures count { count self.new ≡ count self.old + added result }
        ensures bound { bound self.new ≡ bound self.old }
    {
        let answer = self.judge(block)?;
        if answer == Added::New {
            self.take_up(block);
        }
        Ok(answer)
    }
}

// Whether the block's name is not that of genesis, and a parent is of a lower view.
fn in_order(block: Block) -> bool
    ensures { result ≡ in_order block }
{
    match block {
        Block::Side(side) => side.name != Name::GENESIS,
        Block::Backbone(backbone) => {
            backbone.name != Name::GENESIS && backbone.parent.view < backbone.view
        }
    }
}
