use crate::scripts::ALPHA;
use model::{Name, Refusal, SecondVote};
use std::fmt;
use std::fmt::Display;

/// A value in the words of a launch crew.
#[derive(Clone, Copy)]
pub struct Told<T>(pub T);

impl Display for Told<Name> {
    fn fmt<W: fmt::Write>(&self, f: &mut fmt::Formatter<W>) -> fmt::Result {
        f.write_str(if self.0 == ALPHA { "ALPHA" } else { "BRAVO" })
    }
}

impl Display for Told<SecondVote> {
    fn fmt<W: fmt::Write>(&self, f: &mut fmt::Formatter<W>) -> fmt::Result {
        match self.0 {
            SecondVote::Waiting => f.write_str("waiting"),
            SecondVote::Given(name) => write!(f, "given for {}", Told(name)),
            SecondVote::Shut => f.write_str("shut"),
        }
    }
}

// Other words than a refusal's own: the stored output has these.
impl Display for Told<Refusal> {
    fn fmt<W: fmt::Write>(&self, f: &mut fmt::Formatter<W>) -> fmt::Result {
        let words = match self.0 {
            Refusal::DoesNotFit => "mask or block does not fit",
            Refusal::AlreadyEntered => "already entered",
            Refusal::AlreadyVoted => "the first vote is cast",
            _ => "another question",
        };
        let number = self.0.number();
        write!(f, "refused, {words} ({number})")
    }
}

/// The stations of a mask, with a blank before each.
#[derive(Clone, Copy)]
pub struct Stations(pub u32);

impl Display for Stations {
    fn fmt<W: fmt::Write>(&self, f: &mut fmt::Formatter<W>) -> fmt::Result {
        let mask = self.0;
        if mask == 0 {
            return f.write_str(" nobody");
        }
        for station in (0..32).filter(|station| mask >> *station & 1 == 1) {
            write!(f, " {station}")?;
        }
        Ok(())
    }
}
