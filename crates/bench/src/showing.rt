use model::{
    BackboneBlock, Claim, Entry, Offer, OfferClaim, References, Refusal, SideBlock, Voices,
};
use std::fmt;
use std::fmt::Display;
use words::{Message, read_claims};

/// A part of a message, in the words of a script.
#[derive(Clone, Copy)]
struct Shown<T>(T);

impl Display for Shown<References> {
    fn fmt<W: fmt::Write>(&self, f: &mut fmt::Formatter<W>) -> fmt::Result {
        if self.0.len() > 0 {
            f.write_str(" refs")?;
        }
        for name in self.0 {
            write!(f, " {name}")?;
        }
        Ok(())
    }
}

impl Display for Shown<&[OfferClaim]> {
    fn fmt<W: fmt::Write>(&self, f: &mut fmt::Formatter<W>) -> fmt::Result {
        if !self.0.is_empty() {
            f.write_str(" claims")?;
        }
        for claim in self.0 {
            write!(f, " {}:{}", claim.station, claim.height)?;
        }
        Ok(())
    }
}

impl Display for Shown<Entry> {
    fn fmt<W: fmt::Write>(&self, f: &mut fmt::Formatter<W>) -> fmt::Result {
        match self.0 {
            Entry::Bind {
                sonde,
                certificate,
                flight,
            } => write!(f, "bind {sonde} {certificate} {flight}"),
            Entry::Release { sonde, flight } => write!(f, "release {sonde} {flight}"),
        }
    }
}

impl Display for Shown<SideBlock> {
    fn fmt<W: fmt::Write>(&self, f: &mut fmt::Formatter<W>) -> fmt::Result {
        let block = self.0;
        write!(f, "side {} {} ", block.name, block.author)?;
        write!(f, "{}{}", Shown(block.entry), Shown(block.references))
    }
}

impl Display for Shown<BackboneBlock> {
    fn fmt<W: fmt::Write>(&self, f: &mut fmt::Formatter<W>) -> fmt::Result {
        let block = self.0;
        write!(f, "back {} {} {} ", block.name, block.author, block.view)?;
        write!(f, "{} {}", block.parent.view, block.parent.name)?;
        Shown(block.references).fmt(f)
    }
}

impl Display for Shown<Offer> {
    fn fmt<W: fmt::Write>(&self, f: &mut fmt::Formatter<W>) -> fmt::Result {
        let offer = self.0;
        write!(f, "offer {} {} {} ", offer.station, offer.view, offer.name)?;
        write!(f, "{} {:#x}", offer.grade, offer.mask)
    }
}

impl Display for Shown<Voices> {
    fn fmt<W: fmt::Write>(&self, f: &mut fmt::Formatter<W>) -> fmt::Result {
        let voices = self.0;
        write!(
            f,
            "{} {} {} {:#x}",
            voices.grade, voices.view, voices.name, voices.mask
        )
    }
}

impl Display for Shown<Claim> {
    fn fmt<W: fmt::Write>(&self, f: &mut fmt::Formatter<W>) -> fmt::Result {
        let claim = self.0;
        write!(f, "claim {} {} {}", claim.station, claim.view, claim.height)
    }
}

/// A message that was read, and the claims that its words hold.
#[derive(Clone, Copy)]
pub(crate) struct Heard<'a> {
    message: Message<'a>,
    claims: &'a [OfferClaim],
}

impl<'a> Heard<'a> {
    /// The message with its claims, which go to the front of the places lent.
    pub(crate) fn new(
        message: Message<'a>,
        places: &'a mut [OfferClaim],
    ) -> Result<Heard<'a>, Refusal> {
        let count = match message {
            Message::Offer { claims, .. } => read_claims(claims, places)?,
            _ => 0,
        };
        Ok(Heard {
            message,
            claims: &places[..count],
        })
    }
}

impl Display for Heard<'_> {
    fn fmt<W: fmt::Write>(&self, f: &mut fmt::Formatter<W>) -> fmt::Result {
        match self.message {
            Message::Side(block) => Shown(block).fmt(f),
            Message::Backbone(block) => Shown(block).fmt(f),
            Message::Offer { offer, .. } => write!(f, "{}{}", Shown(offer), Shown(self.claims)),
            Message::Voices(voices) => write!(f, "voices {}", Shown(voices)),
            Message::Certificate(certificate) => write!(
                f,
                "certificate {}",
                Shown(Voices::from(certificate))
            ),
            Message::Claim(claim) => Shown(claim).fmt(f),
            Message::Probe => f.write_str("probe"),
            Message::Leave => f.write_str("leave"),
        }
    }
}

/// The words of a message, in eight hexadecimal digits each.
#[derive(Clone, Copy)]
pub(crate) struct Words<'a>(pub(crate) &'a [u32]);

impl Display for Words<'_> {
    fn fmt<W: fmt::Write>(&self, f: &mut fmt::Formatter<W>) -> fmt::Result {
        f.write_str("words")?;
        for word in self.0 {
            write!(f, " {word:08x}")?;
        }
        Ok(())
    }
}
