ghost use Rattle.std.specs.Prelude.{◌≡◌};
ghost use Rattle.model.specs.Ranges.{halves_fit};

use std::fmt;

/// The first number above the halves of a name.
const HALF_LIMIT: u64 = 0x100_0000_0000_0000;

/// A block's name: two numbers below 2^56, not both zero but for genesis. The host computes names.
#[derive(Clone, Copy, Debug, PartialEq, Eq, PartialOrd, Ord)]
pub struct Name {
    pub high: u64,
    pub low: u64,
}

impl Name {
    /// The name of genesis, the backbone block of view 0 that every station holds.
    pub const GENESIS: Name = Name { high: 0, low: 0 };

    /// Whether both halves are in range: below 2^56.
    #[tactic(auto, unfolding(crate::specs::Ranges::halves_fit))]
    pub fn halves_fit(self) -> bool
        ensures { result ≡ halves_fit self }
    {
        self.high < HALF_LIMIT && self.low < HALF_LIMIT
    }
}

impl fmt::Display for Name {
    ghost use Rattle.std.specs.Prelude.{Some};
    ghost use Rattle.model.specs.Names.{name_text};

    ghost output = { λ name. Some (name_text name) };

    /// The two numbers in decimal, with a colon between them.
    fn fmt<W: fmt::Write>(&self, f: &mut fmt::Formatter<W>) -> fmt::Result {
        write!(f, "{}:{}", self.high, self.low)
    }
}
