ghost use Rattle.std.specs.Prelude.{◌≡◌, Some};
ghost use Rattle.bench.specs.declared.faults.Fault.TheVariants.{NoMemory};
ghost use Rattle.bench.specs.Reasons.{reason};

use model::Refusal;
use std::alloc::{AllocError, AllocFailed};
use std::error::Error;
use std::fmt;

/// Why a line of a script cannot be read, or not be played.
#[derive(Clone, Copy, Debug, PartialEq, Eq)]
pub enum Fault {
    UnknownCommand,
    NotANumber,
    NotAName,
    NotAClaim,
    NotAWord,
    TooManyReferences,
    TooManyClaims,
    TooManyWords,
    TooMuchSpace,
    NotAMessage,
    NoMemory,
}

impl fmt::Display for Fault {
    ghost output = { λ fault. Some (reason fault) };

    /// The reason, for whoever wrote the script.
    fn fmt<W: fmt::Write>(&self, f: &mut fmt::Formatter<W>) -> fmt::Result {
        match self {
            Fault::UnknownCommand => f.write_str("there is no such command"),
            Fault::NotANumber => f.write_str(
                "a number is wanted, decimal or hexadecimal behind 0x, of at most 32 bits",
            ),
            Fault::NotAName => f.write_str(
                "a name is wanted, HIGH:LOW, each half a number of at most 64 bits",
            ),
            Fault::NotAClaim => f.write_str(
                "a claim is wanted, STATION:HEIGHT, each a number of at most 32 bits",
            ),
            Fault::NotAWord => f.write_str("a word is wanted, hexadecimal and of at most 32 bits"),
            Fault::TooManyReferences => f.write_str("a block has at most four references"),
            Fault::TooManyClaims => f.write_str("at most 60 claims can be written down"),
            Fault::TooManyWords => f.write_str("at most 80 words can be read"),
            Fault::TooMuchSpace => f.write_str("the space is a number of words, at most 80"),
            Fault::NotAMessage => f.write_str(
                "a message is wanted: side, back, offer, voices, certificate, claim, probe or leave, with its numbers",
            ),
            Fault::NoMemory => f.write_str("there is no memory for this line"),
        }
    }
}

impl Error for Fault {}

impl From<AllocError> for Fault {
    ghost from_gives = { λ _ fault. fault ≡ NoMemory };

    fn from(_: AllocError) -> Fault {
        Fault::NoMemory
    }
}

impl<T: Drop> From<AllocFailed<T>> for Fault {
    ghost from_gives = { λ _ fault. fault ≡ NoMemory };

    fn from(_: AllocFailed<T>) -> Fault {
        Fault::NoMemory
    }
}

impl From<fmt::Error> for Fault {
    ghost from_gives = { λ _ fault. fault ≡ NoMemory };

    fn from(_: fmt::Error) -> Fault {
        Fault::NoMemory
    }
}

/// Why a line is answered with no message and no words: it is at fault itself, or what it says is refused.
#[derive(Clone, Copy)]
pub(crate) enum Objection {
    Fault(Fault),
    Refusal(Refusal),
}

impl fmt::Display for Objection {
    /// `error REASON` or `no NUMBER: REASON`.
    fn fmt<W: fmt::Write>(&self, f: &mut fmt::Formatter<W>) -> fmt::Result {
        match *self {
            Objection::Fault(fault) => write!(f, "error {fault}"),
            Objection::Refusal(refusal) => write!(f, "no {}: {refusal}", refusal.number()),
        }
    }
}

impl From<Fault> for Objection {
    fn from(fault: Fault) -> Objection {
        Objection::Fault(fault)
    }
}

impl From<Refusal> for Objection {
    fn from(refusal: Refusal) -> Objection {
        Objection::Refusal(refusal)
    }
}

impl From<AllocError> for Objection {
    fn from(error: AllocError) -> Objection {
        Objection::Fault(Fault::from(error))
    }
}
