ghost use Rattle.std.specs.Prelude.{◌≡◌};

use crate::names::Name;

/// Stations that vote for a block: a mask of them, the grade of their vote, 1 or 2, and the block's view and name.
#[derive(Clone, Copy, Debug, PartialEq, Eq)]
pub struct Voices {
    // A grade stands as a number in a message: a caller may hand in any, and OutOfRange refuses all but 1 and 2.
    pub grade: u32,
    pub view: u32,
    pub name: Name,
    pub mask: u32,
}

/// Voices whose mask holds a quorum; genesis counts as one of grade 2 with mask 0.
// Fields as in Voices, but a quorum stands behind them: with one type for both, voices could be taken for a certificate.
#[derive(Clone, Copy, Debug, PartialEq, Eq)]
pub struct Certificate {
    pub grade: u32,
    pub view: u32,
    pub name: Name,
    pub mask: u32,
}

/// A station's word, given when its second vote of the view was shut, that it knew no certificate above the height.
#[derive(Clone, Copy, Debug, PartialEq, Eq)]
pub struct Claim {
    pub station: u32,
    pub view: u32,
    pub height: u32,
}

/// A claim as an offer carries it: the view is the one before the offer's.
#[derive(Clone, Copy, Debug, PartialEq, Eq)]
pub struct OfferClaim {
    pub station: u32,
    pub height: u32,
}

/// A leader's offer of its block, with the grade and mask of the parent's certificate.
#[derive(Clone, Copy, Debug, PartialEq, Eq)]
pub struct Offer {
    pub station: u32,
    pub view: u32,
    pub name: Name,
    pub grade: u32,
    pub mask: u32,
}

impl From<Voices> for Certificate {
    ghost from_gives = { λ v c. (c.grade ≡ v.grade) × (c.view ≡ v.view) × (c.name ≡ v.name) × (c.mask ≡ v.mask) };

    fn from(voices: Voices) -> Certificate {
        Certificate {
            grade: voices.grade,
            view: voices.view,
            name: voices.name,
            mask: voices.mask,
        }
    }
}

impl From<Certificate> for Voices {
    ghost from_gives = { λ c v. (v.grade ≡ c.grade) × (v.view ≡ c.view) × (v.name ≡ c.name) × (v.mask ≡ c.mask) };

    fn from(certificate: Certificate) -> Voices {
        Voices {
            grade: certificate.grade,
            view: certificate.view,
            name: certificate.name,
            mask: certificate.mask,
        }
    }
}
