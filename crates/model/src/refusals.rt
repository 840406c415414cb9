ghost use Rattle.std.specs.Prelude.{◌≡◌};
ghost use Rattle.model.specs.Refusals.{number};

use std::error::Error;
use std::fmt;

/// Why a call is refused: the question that is answered no. docs/PROTOCOL.md has the questions.
#[derive(Clone, Copy, Debug, PartialEq, Eq)]
pub enum Refusal {
    BadNumbers = 1,
    NoSuchStation = 2,
    OutOfRange = 3,
    PastView = 4,
    FutureView = 5,
    NotHeld = 6,
    NameTaken = 7,
    BookFull = 8,
    NotFromLeader = 9,
    NoQuorum = 10,
    ClaimTooHigh = 11,
    TooFewClaims = 12,
    DoesNotFit = 13,
    AlreadyEntered = 14,
    AlreadyVoted = 15,
    NoPlaces = 16,
    VoteOpen = 17,
    LastView = 18,
    NoGroundDue = 19,
    NoGroundYet = 20,
    NotOnGround = 21,
    OffChain = 22,
    ListFull = 23,
    NotWhole = 24,
    CannotWrite = 25,
}

impl Refusal {
    /// The question's number.
    // A method and no From: the number is the question's, and refusal.number() says so.
    pub fn number(self) -> u32
        ensures { result ≡ number self }
    {
        self as u32
    }
}

impl fmt::Display for Refusal {
    ghost use Rattle.std.specs.Prelude.{Some};
    ghost use Rattle.model.specs.Refusals.{reason};

    ghost output = { λ refusal. Some (reason refusal) };

    /// What it means, in a few words for a launch crew.
    fn fmt<W: fmt::Write>(&self, f: &mut fmt::Formatter<W>) -> fmt::Result {
        use Refusal::*;
        match self {
            BadNumbers => f.write_str("f must be from 1 to 9 and the own number at most 3f"),
            NoSuchStation => f.write_str("a station or mask names a station that is not there"),
            OutOfRange => f.write_str("a number is out of range"),
            PastView => f.write_str("the view is past"),
            FutureView => f.write_str("the view has not begun"),
            NotHeld => f.write_str("a named block is not held here as that sort of block"),
            NameTaken => f.write_str("another block is held under this name"),
            BookFull => f.write_str("the book has no place for another block"),
            NotFromLeader => f.write_str("the offer is not its view's leader's own"),
            NoQuorum => f.write_str("the mask holds no quorum"),
            ClaimTooHigh => f.write_str("the claim is higher than this station's own height"),
            TooFewClaims => f.write_str("too few stations claim a height as low as the parent's"),
            DoesNotFit => f.write_str("mask and name do not fit this broadcast"),
            AlreadyEntered => f.write_str("this was said here before"),
            AlreadyVoted => f.write_str("the first vote of this view is cast"),
            NoPlaces => f.write_str("the outbox or the claims lack places"),
            VoteOpen => f.write_str("the second vote is still open"),
            LastView => f.write_str("there is no further view"),
            NoGroundDue => f.write_str("this station does not lead, or had its ground"),
            NoGroundYet => f.write_str("the view below is neither certified nor claimed away"),
            NotOnGround => f.write_str("the block does not stand on this ground"),
            OffChain => f.write_str("the last listed block is not on the target's chain"),
            ListFull => f.write_str("the list has no places for the lines"),
            NotWhole => f.write_str("the words are not one whole message"),
            CannotWrite => f.write_str("the space is short, or a number or count does not fit"),
        }
    }
}

impl Error for Refusal {}
