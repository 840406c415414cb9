ghost use Rattle.std.specs.Prelude.{◌≡◌};
ghost use Rattle.words.specs.Kinds.{kind_number};

/// What a word holds: a part of a name (a quarter), a sonde's number, a certificate's number, and so on. A height is a view.
#[derive(Debug, Clone, Copy, PartialEq, Eq)]
pub(crate) enum Kind {
    Head = 1,
    View = 2,
    NamePart = 3,
    Station = 4,
    Mask = 5,
    Sonde = 7,
    Certificate = 8,
    Flight = 9,
    Grade = 10,
}

impl From<Kind> for u32 {
    ghost from_gives = { λ kind number. number ≡ kind_number kind };

    fn from(kind: Kind) -> u32 {
        kind as u32
    }
}
