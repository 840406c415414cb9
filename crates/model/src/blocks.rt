ghost use Rattle.std.specs.Prelude.{◌≡◌, ℕ, [], ◌∷◌, ◌++◌, length, MatchOption};
ghost use Rattle.std.specs.Iterator.{YieldsFirst, item_count};
ghost use Rattle.model.specs.Blocks.{referred, names_left, name_of};
ghost use Rattle.model.specs.Ranges.{author_of};

use crate::names::Name;

/// What a side block enters into the register: a sonde's number is bound to a calibration certificate for a flight,
/// or released from a flight. Each number is from 1 to 2^28 - 1.
#[derive(Clone, Copy, Debug, PartialEq, Eq)]
pub enum Entry {
    Bind {
        sonde: u32,
        certificate: u32,
        flight: u32,
    },
    Release {
        sonde: u32,
        flight: u32,
    },
}

/// Up to four names of side blocks, in their order. Its cases leave no two forms for one row of names.
#[derive(Clone, Copy, Debug, PartialEq, Eq)]
pub enum References {
    Empty,
    One(Name),
    Two(Name, Name),
    Three(Name, Name, Name),
    Four(Name, Name, Name, Name),
}

/// The names of references that are still to come, first to last.
#[derive(Drop)]
pub struct Names {
    pub(crate) left: References,
}

/// A block that carries one entry.
#[derive(Clone, Copy, Debug, PartialEq, Eq)]
pub struct SideBlock {
    pub name: Name,
    pub author: u32,
    pub entry: Entry,
    pub references: References,
}

/// The backbone block below a backbone block: genesis, or one of a lower view.
#[derive(Clone, Copy, Debug, PartialEq, Eq)]
pub struct Parent {
    pub view: u32,
    pub name: Name,
}

/// A block of the chain that the stations agree on, one to a view.
#[derive(Clone, Copy, Debug, PartialEq, Eq)]
pub struct BackboneBlock {
    pub name: Name,
    pub author: u32,
    pub view: u32,
    pub parent: Parent,
    pub references: References,
}

/// A block of either sort.
#[derive(Clone, Copy, Debug, PartialEq, Eq)]
pub enum Block {
    Side(SideBlock),
    Backbone(BackboneBlock),
}

impl References {
    /// How many there are.
    pub fn len(self) -> usize
        ensures { result ≡ length (referred self) }
    {
        match self {
            References::Empty => 0,
            References::One(_) => 1,
            References::Two(_, _) => 2,
            References::Three(_, _, _) => 3,
            References::Four(_, _, _, _) => 4,
        }
    }

    /// These and then `name`, unless there are four already.
    pub fn with(self, name: Name) -> Option<References>
        ensures { MatchOption result (length (referred self) ≡ 4) (λ longer. referred longer ≡ referred self ++ name ∷ []) }
    {
        match self {
            References::Empty => Some(References::One(name)),
            References::One(a) => Some(References::Two(a, name)),
            References::Two(a, b) => Some(References::Three(a, b, name)),
            References::Three(a, b, c) => Some(References::Four(a, b, c, name)),
            References::Four(_, _, _, _) => None,
        }
    }

    /// The first and those behind it, if there is one.
    pub fn split_first(self) -> Option<(Name, References)>
        ensures { MatchOption result (referred self ≡ []) (λ p. referred self ≡ p.0 ∷ referred p.1) }
    {
        match self {
            References::Empty => None,
            References::One(a) => Some((a, References::Empty)),
            References::Two(a, b) => Some((a, References::One(b))),
            References::Three(a, b, c) => Some((a, References::Two(b, c))),
            References::Four(a, b, c, d) => Some((a, References::Three(b, c, d))),
        }
    }
}

impl IntoIterator for References {
    type Item = Name;

    type IntoIter = Names;

    ghost into_iter_gives = { λ references names. names_left names ≡ referred references };

    fn into_iter(self) -> Names {
        Names { left: self }
    }
}

impl Iterator for Names {
    type Item = Name;

    ghost next_gives = { YieldsFirst names_left };

    ghost remaining = { item_count names_left };

    // Always in line: where the names go through a loop, the row is then taken apart in place and not moved at each step.
    #[inline(always)]
    fn next(&mut self) -> Option<Name> {
        let (first, behind) = self.left.split_first()?;
        self.left = behind;
        Some(first)
    }
}

impl Block {
    /// Its name.
    pub fn name(self) -> Name
        ensures { result ≡ name_of self }
    {
        match self {
            Block::Side(side) => side.name,
            Block::Backbone(backbone) => backbone.name,
        }
    }

    /// Who made it.
    pub fn author(self) -> u32
        ensures { result ≡ author_of self }
    {
        match self {
            Block::Side(side) => side.author,
            Block::Backbone(backbone) => backbone.author,
        }
    }
}
