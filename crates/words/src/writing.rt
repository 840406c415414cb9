ghost use Rattle.std.specs.Prelude.{◌≡◌, ◌+◌, ◌≤◌, true, [], ◌∷◌, length};
ghost use Rattle.model.specs.Blocks.{referred};
ghost use Rattle.words.specs.Messages.{said, fits, body, encoded, Writes};
ghost use Rattle.words.specs.Messages.{backbone as backboneT, offer as offerT, side as sideT, voices as voicesT, claim as claimT};
ghost use Rattle.words.specs.Places.{InFront, placed};
ghost use Rattle.words.specs.Words.{small_names, small_entry, names_words, entry_words, head};
ghost use Rattle.words.specs.Types.{type_number};

use crate::judging::hold_claims;
use crate::kinds::Kind;
use crate::messages::Message;
use crate::parts::{COUNTS, is_small, word_of, words_of_name};
use crate::types::MessageType;
use model::{BackboneBlock, Claim, Entry, Name, Offer, References, Refusal, SideBlock, Voices};

/// Whether each name fits its words.
fn are_small_names(references: References) -> bool
    ensures { result ≡ small_names (referred references) }
{
    references.into_iter().all(Name::halves_fit)
}

/// Whether each number of the entry fits its word.
// One match with two tests, as station's entry_fits: a closure in a method of Entry for two calls is no plainer.
fn is_small_entry(entry: Entry) -> bool
    ensures { result ≡ small_entry entry }
{
    match entry {
        Entry::Bind {
            sonde,
            certificate,
            flight,
        } => is_small(sonde) && is_small(certificate) && is_small(flight),
        Entry::Release { sonde, flight } => is_small(sonde) && is_small(flight),
    }
}

/// Whether the numbers of voices, or of a certificate, fit their words.
#[tactic(auto, using(crate::proofs::SmallNames::halves_small))]
fn are_small_voices(voices: Voices) -> bool
    ensures { result ≡ fits (voicesT voices) }
{
    is_small(voices.grade)
        && is_small(voices.view)
        && voices.name.halves_fit()
        && is_small(voices.mask)
}

/// Whether every number and count of the message fits its words.
#[tactic(auto, using(crate::proofs::SmallNames::halves_small))]
fn can_be_written(message: &Message<'_>) -> bool
    ensures { result ≡ fits (said message.now) }
{
    match *message {
        Message::Side(b) => b.name.halves_fit()
            && is_small(b.author)
            && is_small_entry(b.entry)
            && are_small_names(b.references),
        Message::Backbone(b) => {
            b.name.halves_fit()
                && is_small(b.author)
                && is_small(b.view)
                && is_small(b.parent.view)
                && b.parent.name.halves_fit()
                && are_small_names(b.references)
        }
        Message::Offer { offer, claims } => {
            is_small(offer.station)
                && is_small(offer.view)
                && offer.name.halves_fit()
                && is_small(offer.grade)
                && is_small(offer.mask)
                && hold_claims(claims)
        }
        Message::Voices(voices) => are_small_voices(voices),
        Message::Certificate(certificate) => are_small_voices(Voices::from(certificate)),
        Message::Claim(c) => is_small(c.station) && is_small(c.view) && is_small(c.height),
        Message::Probe | Message::Leave => true,
    }
}

/// How many words the entry has.
fn count_entry_words(entry: Entry) -> usize
    ensures { result ≡ length (entry_words entry) }
{
    match entry {
        Entry::Bind { .. } => 3,
        Entry::Release { .. } => 2,
    }
}

/// How many words the message has.
#[tactic(auto, using(crate::proofs::NamesWords::length_of_names))]
fn count_words(message: &Message<'_>) -> usize
    requires { fits (said message.now) ≡ true }
    ensures { result ≡ length (encoded (said message.now)) }
{
    match *message {
        Message::Side(b) => 6 + count_entry_words(b.entry) + 4 * b.references.len(),
        Message::Backbone(b) => 12 + 4 * b.references.len(),
        Message::Offer { claims, .. } => 9 + claims.len(),
        Message::Voices(_) | Message::Certificate(_) => 8,
        Message::Claim(_) => 4,
        Message::Probe | Message::Leave => 1,
    }
}

// The place goes along with the words: a struct of both would have to say, in each clause, what stands before it.

/// Writes a part of the words over what stood from a place on.
pub(crate) fn put(words: &mut [u32], at: usize, part: &[u32])
    requires { at + length part.now ≤ length words.old }
    ensures { words.new ≡ placed at part.now words.old }
{
    words[at..at + part.len()].copy_from_slice(part);
}

/// Writes the names from a place on.
fn put_names(words: &mut [u32], at: usize, references: References)
    requires { (at + length (names_words (referred references)) ≤ length words.old) × (small_names (referred references) ≡ true) }
    ensures { words.new ≡ placed at (names_words (referred references)) words.old }
{
    for (i, name) in references.into_iter().enumerate() {
        put(words, at + 4 * i, &words_of_name(name));
    }
}

/// Writes the entry from a place on.
fn put_entry(words: &mut [u32], at: usize, entry: Entry)
    requires { (at + length (entry_words entry) ≤ length words.old) × (small_entry entry ≡ true) }
    ensures { words.new ≡ placed at (entry_words entry) words.old }
{
    match entry {
        Entry::Bind {
            sonde,
            certificate,
            flight,
        } => put(
            words,
            at,
            &[
                word_of(Kind::Sonde, sonde),
                word_of(Kind::Certificate, certificate),
                word_of(Kind::Flight, flight),
            ],
        ),
        Entry::Release { sonde, flight } => put(
            words,
            at,
            &[word_of(Kind::Sonde, sonde), word_of(Kind::Flight, flight)],
        ),
    }
}

/// The head word of a message of that type, with so many words behind it.
fn head_of(kind: MessageType, count: usize) -> u32
    requires { count ≤ 64 }
    ensures { result ≡ head (type_number kind) count }
{
    word_of(Kind::Head, u32::from(kind) * COUNTS + count as u32)
}

// Each writer asks that its own message fits and has the space: a struct for that would hold any message, and leave open which.

/// A side block: the name and the author, the entry, and the references.
fn write_side(block: SideBlock, words: &mut [u32]) -> usize
    requires { (fits (sideT block) ≡ true) × (length (encoded (sideT block)) ≤ length words.old) }
    ensures { InFront (encoded (sideT block)) words.old words.new result }
{
    let [a, b, c, d] = words_of_name(block.name);
    let author = word_of(Kind::Station, block.author);
    let names = 6 + count_entry_words(block.entry);
    let count = names + 4 * block.references.len();
    put(
        words,
        0,
        &[head_of(MessageType::Side, count - 1), a, b, c, d, author],
    );
    put_entry(words, 6, block.entry);
    put_names(words, names, block.references);
    count
}

/// A backbone block: its own name and views, the parent's name, and the references.
fn write_backbone(block: BackboneBlock, words: &mut [u32]) -> usize
    requires { (fits (backboneT block) ≡ true) × (length (encoded (backboneT block)) ≤ length words.old) }
    ensures { InFront (encoded (backboneT block)) words.old words.new result }
{
    let [a, b, c, d] = words_of_name(block.name);
    let [e, f, g, h] = words_of_name(block.parent.name);
    let author = word_of(Kind::Station, block.author);
    let view = word_of(Kind::View, block.view);
    let below = word_of(Kind::View, block.parent.view);
    let names = 4 * block.references.len();
    put(
        words,
        0,
        &[
            head_of(MessageType::Backbone, 11 + names),
            a,
            b,
            c,
            d,
            author,
            view,
            below,
            e,
            f,
            g,
            h,
        ],
    );
    put_names(words, 12, block.references);
    12 + names
}

/// An offer, with the words of its claims behind it.
fn write_offer(offer: Offer, claims: &[u32], words: &mut [u32]) -> usize
    requires { (fits (offerT offer claims.now) ≡ true) × (length (encoded (offerT offer claims.now)) ≤ length words.old) }
    ensures { InFront (encoded (offerT offer claims.now)) words.old words.new result }
{
    let [a, b, c, d] = words_of_name(offer.name);
    let station = word_of(Kind::Station, offer.station);
    let view = word_of(Kind::View, offer.view);
    put(
        words,
        0,
        &[
            head_of(MessageType::Offer, 8 + claims.len()),
            station,
            view,
            a,
            b,
            c,
            d,
            word_of(Kind::Grade, offer.grade),
            word_of(Kind::Mask, offer.mask),
        ],
    );
    put(words, 9, claims);
    9 + claims.len()
}

/// Voices and certificates have the same words behind the head.
fn write_voices(kind: MessageType, voices: Voices, words: &mut [u32]) -> usize
    requires { (fits (voicesT voices) ≡ true) × (8 ≤ length words.old) }
    ensures { InFront (head (type_number kind) 7 ∷ body (voicesT voices)) words.old words.new result }
{
    let [a, b, c, d] = words_of_name(voices.name);
    put(
        words,
        0,
        &[
            head_of(kind, 7),
            word_of(Kind::Grade, voices.grade),
            word_of(Kind::View, voices.view),
            a,
            b,
            c,
            d,
            word_of(Kind::Mask, voices.mask),
        ],
    );
    8
}

/// A claim: three numbers.
fn write_claim(claim: Claim, words: &mut [u32]) -> usize
    requires { (fits (claimT claim) ≡ true) × (4 ≤ length words.old) }
    ensures { InFront (encoded (claimT claim)) words.old words.new result }
{
    put(
        words,
        0,
        &[
            head_of(MessageType::Claim, 3),
            word_of(Kind::Station, claim.station),
            word_of(Kind::View, claim.view),
            word_of(Kind::View, claim.height),
        ],
    );
    4
}

/// A message that is its head alone.
fn write_head(kind: MessageType, words: &mut [u32]) -> usize
    requires { 1 ≤ length words.old }
    ensures { InFront (head (type_number kind) 0 ∷ []) words.old words.new result }
{
    put(words, 0, &[head_of(kind, 0)]);
    1
}

/// Writes the words of the message to the front of those handed in, and answers how many there are.
/// Words behind them stay as they were; all stay where it is refused.
// It answers how many, as the protocol has it, and no slice: the slice is the caller's.
pub fn write(message: &Message<'_>, words: &mut [u32]) -> Result<usize, Refusal>
    ensures { Writes (said message.now) words.old words.new result }
{
    if !can_be_written(message) || words.len() < count_words(message) {
        return Err(Refusal::CannotWrite);
    }
    Ok(match *message {
        Message::Side(block) => write_side(block, words),
        Message::Backbone(block) => write_backbone(block, words),
        Message::Offer { offer, claims } => write_offer(offer, claims, words),
        Message::Voices(voices) => write_voices(MessageType::Voices, voices, words),
        Message::Certificate(certificate) => {
            write_voices(MessageType::Certificate, Voices::from(certificate), words)
        }
        Message::Claim(claim) => write_claim(claim, words),
        Message::Probe => write_head(MessageType::Probe, words),
        Message::Leave => write_head(MessageType::Leave, words),
    })
}
