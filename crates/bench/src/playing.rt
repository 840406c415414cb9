ghost use Rattle.std.specs.Prelude.{◌≡◌, IfErr};
ghost use Rattle.bench.specs.declared.faults.Fault.TheVariants.{NoMemory};

use crate::faults::{Fault, Objection};
use crate::numerals::word;
use crate::parsing::{message, short};
use crate::showing::{Heard, Words};
use model::OfferClaim;
use std::alloc::Global;
use words::{read, write};

/// The parts of a line between its blanks, up to a comment.
fn parts(heap: Global, line: &str) -> Result<Vec<&str>, Fault>
    ensures { IfErr result (λ fault. fault ≡ NoMemory) }
{
    let text = line.split_once('#').map_or(line, |(text, _)| text);
    Ok(text.split_whitespace().collect(heap)?)
}

/// `read WORD ..`: the message that the words are.
fn play_read(heap: Global, texts: &[&str]) -> Result<String, Objection> {
    if texts.len() > 80 {
        return Err(Fault::TooManyWords.into());
    }
    let words: Vec<u32> = texts
        .iter()
        .map(|text| word(text).ok_or(Fault::NotAWord))
        .try_collect(heap)?;
    let mut places = [OfferClaim {
        station: 0,
        height: 0,
    }; 28];
    let heard = Heard::new(read(&words)?, &mut places)?;
    Ok(format!(in heap; "{heard}")?)
}

/// `write SPACE MESSAGE`: the words of the message.
fn play_write(heap: Global, space: &str, texts: &[&str]) -> Result<String, Objection> {
    let space = short(space)? as usize;
    if space > 80 {
        return Err(Fault::TooMuchSpace.into());
    }
    let mut room = [0u32; 56];
    let message = message(heap, texts, &mut room)?;
    let mut words = vec![in heap; 0u32; space]?;
    let count = write(&message, &mut words)?;
    Ok(format!(in heap; "{}", Words(&words[..count]))?)
}

fn play_parts(heap: Global, parts: &[&str]) -> Result<String, Objection> {
    match parts {
        [] => Ok(String::new(heap)),
        ["read", words @ ..] => play_read(heap, words),
        ["write", space, message @ ..] => play_write(heap, space, message),
        _ => Err(Fault::UnknownCommand.into()),
    }
}

/// Plays one line of a script: the answer in one line, nothing where the line is empty or a comment,
/// and `error` with the reason where it cannot be read. Only for want of memory is there no answer.
pub fn play(heap: Global, line: &str) -> Result<String, Fault>
    ensures { IfErr result (λ fault. fault ≡ NoMemory) }
{
    let parts = parts(heap, line)?;
    play_parts(heap, &parts).or_else(|objection| Ok(format!(in heap; "{objection}")?))
}
