use crate::faults::{Fault, Objection};
use crate::numerals::{number, short_number};
use model::{
    BackboneBlock, Certificate, Claim, Entry, Name, Offer, OfferClaim, Parent, References,
    SideBlock, Voices,
};
use std::alloc::Global;
use words::{Message, write_claims};

/// A number of at most 32 bits.
pub(crate) fn short(text: &str) -> Result<u32, Fault> {
    short_number(text).ok_or(Fault::NotANumber)
}

/// Two numbers around a colon.
fn pair<T: Drop, F: Fn(&str) -> Option<T>>(number: F, text: &str) -> Option<(T, T)>
    requires { F.IsAlwaysCallable number }
{
    let (first, second) = text.split_once(':')?;
    Some((number(first)?, number(second)?))
}

/// A name, `HIGH:LOW`.
fn name(text: &str) -> Result<Name, Fault> {
    let (high, low) = pair(number, text).ok_or(Fault::NotAName)?;
    Ok(Name { high, low })
}

/// A claim, `STATION:HEIGHT`.
fn claim_record(text: &str) -> Result<OfferClaim, Fault> {
    let (station, height) = pair(short_number, text).ok_or(Fault::NotAClaim)?;
    Ok(OfferClaim { station, height })
}

/// The row behind a keyword; an empty one where not even the keyword stands.
fn row<'a>(keyword: &str, texts: &'a [&'a str]) -> Result<&'a [&'a str], Fault> {
    match texts {
        [] => Ok(texts),
        [first, row @ ..] if *first == keyword => Ok(row),
        _ => Err(Fault::NotAMessage),
    }
}

/// The references behind a block: nothing, or `refs` and up to four names.
fn references(texts: &[&str]) -> Result<References, Fault> {
    let mut found = References::Empty;
    for text in row("refs", texts)? {
        found = found.with(name(text)?).ok_or(Fault::TooManyReferences)?;
    }
    Ok(found)
}

/// The claims behind an offer: nothing, or `claims` and up to 60 of them.
fn offer_claims(heap: Global, texts: &[&str]) -> Result<Vec<OfferClaim>, Fault> {
    let records = row("claims", texts)?;
    if records.len() > 60 {
        return Err(Fault::TooManyClaims);
    }
    records
        .iter()
        .map(|text| claim_record(text))
        .try_collect(heap)
}

/// An entry, and the texts behind it.
fn entry<'a>(texts: &'a [&'a str]) -> Result<(Entry, &'a [&'a str]), Fault> {
    match texts {
        ["bind", sonde, certificate, flight, rest @ ..] => {
            let entry = Entry::Bind {
                sonde: short(sonde)?,
                certificate: short(certificate)?,
                flight: short(flight)?,
            };
            Ok((entry, rest))
        }
        ["release", sonde, flight, rest @ ..] => {
            let entry = Entry::Release {
                sonde: short(sonde)?,
                flight: short(flight)?,
            };
            Ok((entry, rest))
        }
        _ => Err(Fault::NotAMessage),
    }
}

fn side(texts: &[&str]) -> Result<SideBlock, Fault> {
    let [own, author, rest @ ..] = texts else {
        return Err(Fault::NotAMessage);
    };
    let (entry, rest) = entry(rest)?;
    Ok(SideBlock {
        name: name(own)?,
        author: short(author)?,
        entry,
        references: references(rest)?,
    })
}

fn backbone(texts: &[&str]) -> Result<BackboneBlock, Fault> {
    let [own, author, view, below, parent, rest @ ..] = texts else {
        return Err(Fault::NotAMessage);
    };
    Ok(BackboneBlock {
        name: name(own)?,
        author: short(author)?,
        view: short(view)?,
        parent: Parent {
            view: short(below)?,
            name: name(parent)?,
        },
        references: references(rest)?,
    })
}

/// An offer, and its claims as words in the room lent.
fn offer<'a>(heap: Global, texts: &[&str], room: &'a mut [u32]) -> Result<Message<'a>, Objection> {
    let [station, view, block, grade, mask, rest @ ..] = texts else {
        return Err(Fault::NotAMessage.into());
    };
    let offer = Offer {
        station: short(station)?,
        view: short(view)?,
        name: name(block)?,
        grade: short(grade)?,
        mask: short(mask)?,
    };
    let count = write_claims(&offer_claims(heap, rest)?, room)?;
    Ok(Message::Offer {
        offer,
        claims: &room[..count],
    })
}

fn voices(texts: &[&str]) -> Result<Voices, Fault> {
    let [grade, view, block, mask] = texts else {
        return Err(Fault::NotAMessage);
    };
    Ok(Voices {
        grade: short(grade)?,
        view: short(view)?,
        name: name(block)?,
        mask: short(mask)?,
    })
}

fn claim(texts: &[&str]) -> Result<Claim, Fault> {
    let [station, view, height] = texts else {
        return Err(Fault::NotAMessage);
    };
    Ok(Claim {
        station: short(station)?,
        view: short(view)?,
        height: short(height)?,
    })
}

/// A message in the words that `read` prints; the words of an offer's claims go to the front of the room lent.
pub(crate) fn message<'a>(
    heap: Global,
    texts: &[&str],
    room: &'a mut [u32],
) -> Result<Message<'a>, Objection> {
    match texts {
        ["side", rest @ ..] => Ok(Message::Side(side(rest)?)),
        ["back", rest @ ..] => Ok(Message::Backbone(backbone(rest)?)),
        ["offer", rest @ ..] => offer(heap, rest, room),
        ["voices", rest @ ..] => Ok(Message::Voices(voices(rest)?)),
        ["certificate", rest @ ..] => Ok(Message::Certificate(Certificate::from(voices(rest)?))),
        ["claim", rest @ ..] => Ok(Message::Claim(claim(rest)?)),
        ["probe"] => Ok(Message::Probe),
        ["leave"] => Ok(Message::Leave),
        _ => Err(Fault::NotAMessage.into()),
    }
}
