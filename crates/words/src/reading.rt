ghost use Rattle.std.specs.Prelude.{◌≡◌, ◌%◌, ◌≤◌, true, length, MatchOption, ◌⊎◌};
ghost use Rattle.model.specs.Blocks.{referred};
ghost use Rattle.words.specs.Layouts.{counts, kinds_of, layout_at, layout_behind, references_kinds, IsAnnouncedWrongly, IsSideLayout};
ghost use Rattle.words.specs.Messages.{Lies, backbone as backboneT, side as sideT, voices as voicesT, claim as claimT, said, fits, body, HoldsEntry, Reads};
ghost use Rattle.words.specs.Types.{type_number};
ghost use Rattle.words.specs.Words.{names_words, small_names, right_kinds};

use crate::judging::have_right_kinds;
use crate::kinds::Kind;
use crate::layouts::Layout;
use crate::messages::Message;
use crate::parts::{COUNTS, has_kind, name_from, value_of};
use crate::types::MessageType;
use model::{
    BackboneBlock, Certificate, Claim, Entry, Offer, Parent, References, Refusal, SideBlock, Voices,
};

/// The layout of a message of that type with so many words behind the head.
fn layout_of(kind: MessageType, count: usize) -> Option<Layout>
    ensures { result ≡ layout_at (type_number kind) count }
{
    match (kind, count) {
        (MessageType::Side, 8..=24) if count % 4 == 0 => Some(Layout::Bind),
        (MessageType::Side, 7..=23) if count % 4 == 3 => Some(Layout::Release),
        (MessageType::Backbone, 11..=27) if count % 4 == 3 => Some(Layout::Backbone),
        (MessageType::Offer, 8..=64) if count % 2 == 0 => Some(Layout::Offer),
        (MessageType::Voices, 7) => Some(Layout::Voices),
        (MessageType::Certificate, 7) => Some(Layout::Certificate),
        (MessageType::Claim, 3) => Some(Layout::Claim),
        (MessageType::Probe, 0) => Some(Layout::Probe),
        (MessageType::Leave, 0) => Some(Layout::Leave),
        _ => None,
    }
}

/// The layout that a head word announces over a count of words behind it.
fn announced(head: u32, count: usize) -> Option<Layout>
    ensures { result ≡ layout_behind head count }
{
    if !has_kind(head, Kind::Head) || (head % COUNTS) as usize != count {
        return None;
    }
    let kind = MessageType::try_from(value_of(head) / COUNTS).ok()?;
    layout_of(kind, count)
}

/// The words behind a head: as many as their layout takes, and of its kinds.
#[derive(Clone, Copy)]
struct Body<'a> {
    layout: Layout,
    words: &'a [u32],
    ghost counted: { counts layout (length words.now) ≡ true },
    ghost judged: { right_kinds (kinds_of layout) words.now ≡ true },
}

/// The references that the words hold, four words each.
fn references(words: &[u32]) -> References
    requires { (length words.now ≤ 16) × (length words.now % 4 ≡ 0) × (right_kinds references_kinds words.now ≡ true) }
    ensures { (names_words (referred result) ≡ words.now) × (small_names (referred result) ≡ true) }
{
    let mut found = References::Empty;
    let mut left = words;
    while let [a, b, c, d, behind @ ..] = left {
        let Some(more) = found.with(name_from([*a, *b, *c, *d])) else {
            unreachable()
        };
        found = more;
        left = behind;
    }
    found
}

impl<'a> Body<'a> {
    /// The words, if they lie as the head word announces.
    fn behind(head: u32, words: &'a [u32]) -> Option<Self>
        ensures { MatchOption result (IsAnnouncedWrongly head words.now) (λ b. (layout_behind head (length words.now) ≡ Some b.layout) × (b.words.now ≡ words.now)) }
    {
        let layout = announced(head, words.len())?;
        // An if: a Body may be made only where the test holds, and then_some makes it before.
        if have_right_kinds(layout, words) {
            Some(Body { layout, words })
        } else {
            None
        }
    }

    /// The entry of a side block, and the words of its references.
    fn entry(self) -> (Entry, &'a [u32])
        requires { IsSideLayout self.layout }
        ensures { HoldsEntry self.entry.layout result.0 result.1.now self.entry.words.now }
    {
        match (self.layout, self.words) {
            (Layout::Bind, [_, _, _, _, _, sonde, certificate, flight, names @ ..]) => {
                let entry = Entry::Bind {
                    sonde: value_of(*sonde),
                    certificate: value_of(*certificate),
                    flight: value_of(*flight),
                };
                (entry, names)
            }
            (Layout::Release, [_, _, _, _, _, sonde, flight, names @ ..]) => {
                let entry = Entry::Release {
                    sonde: value_of(*sonde),
                    flight: value_of(*flight),
                };
                (entry, names)
            }
            _ => unreachable(),
        }
    }

    fn side(self) -> SideBlock
        requires { IsSideLayout self.layout }
        ensures { Lies self.entry.layout (sideT result) self.entry.words.now }
    {
        let [a, b, c, d, author, ..] = self.words else {
            unreachable()
        };
        let (entry, names) = self.entry();
        SideBlock {
            name: name_from([*a, *b, *c, *d]),
            author: value_of(*author),
            entry,
            references: references(names),
        }
    }

    fn backbone(self) -> BackboneBlock
        requires { self.layout ≡ Layout.Backbone }
        ensures { Lies self.entry.layout (backboneT result) self.entry.words.now }
    {
        let [a, b, c, d, author, view, below, e, f, g, h, names @ ..] = self.words else {
            unreachable()
        };
        BackboneBlock {
            name: name_from([*a, *b, *c, *d]),
            author: value_of(*author),
            view: value_of(*view),
            parent: Parent {
                view: value_of(*below),
                name: name_from([*e, *f, *g, *h]),
            },
            references: references(names),
        }
    }

    fn offer(self) -> Message<'a>
        requires { self.layout ≡ Layout.Offer }
        ensures { Lies self.entry.layout (said result) self.entry.words.now }
    {
        let [station, view, a, b, c, d, grade, mask, claims @ ..] = self.words else {
            unreachable()
        };
        let offer = Offer {
            station: value_of(*station),
            view: value_of(*view),
            name: name_from([*a, *b, *c, *d]),
            grade: value_of(*grade),
            mask: value_of(*mask),
        };
        Message::Offer { offer, claims }
    }

    /// What the words of voices say, or those of a certificate, which are the same.
    fn voices(self) -> Voices
        requires { (self.layout ≡ Layout.Voices) ⊎ (self.layout ≡ Layout.Certificate) }
        ensures { (fits (voicesT result) ≡ true) × (body (voicesT result) ≡ self.entry.words.now) }
    {
        let [grade, view, a, b, c, d, mask] = self.words else {
            unreachable()
        };
        Voices {
            grade: value_of(*grade),
            view: value_of(*view),
            name: name_from([*a, *b, *c, *d]),
            mask: value_of(*mask),
        }
    }

    fn claim(self) -> Claim
        requires { self.layout ≡ Layout.Claim }
        ensures { Lies self.entry.layout (claimT result) self.entry.words.now }
    {
        let [station, view, height] = self.words else {
            unreachable()
        };
        Claim {
            station: value_of(*station),
            view: value_of(*view),
            height: value_of(*height),
        }
    }

    /// The message that lies so behind its head.
    fn message(self) -> Message<'a>
        ensures { Lies self.entry.layout (said result) self.entry.words.now }
    {
        match self.layout {
            Layout::Bind | Layout::Release => Message::Side(self.side()),
            Layout::Backbone => Message::Backbone(self.backbone()),
            Layout::Offer => self.offer(),
            Layout::Voices => Message::Voices(self.voices()),
            Layout::Certificate => Message::Certificate(Certificate::from(self.voices())),
            Layout::Claim => Message::Claim(self.claim()),
            Layout::Probe => Message::Probe,
            Layout::Leave => Message::Leave,
        }
    }
}

/// The message that the words are. It looks at type, count and kinds only: numbers out of range are for the calls to refuse.
pub fn read(words: &[u32]) -> Result<Message<'_>, Refusal>
    ensures { Reads words.now result }
{
    let [head, rest @ ..] = words else {
        return Err(Refusal::NotWhole);
    };
    let body = Body::behind(*head, rest).ok_or(Refusal::NotWhole)?;
    Ok(body.message())
}
