ghost use Rattle.std.specs.Prelude.{◌≡◌, ℕ, ◌-◌, ◌%◌, ◌≤◌, ◌==◌, ◌++◌, map, zip, true, length};
ghost use Rattle.std.specs.List.{list_all};
ghost use Rattle.words.specs.Claims.{are_claims};
ghost use Rattle.words.specs.Kinds.{kind_number};
ghost use Rattle.words.specs.Layouts.{counts, kinds_of, tail_kinds};
ghost use Rattle.words.specs.Words.{kind, right_kinds};

use crate::kinds::Kind::{self, Certificate, Flight, Grade, Mask, NamePart, Sonde, Station, View};
use crate::layouts::Layout;
use crate::parts::has_kind;

const BIND: [Kind; 8] = [
    NamePart,
    NamePart,
    NamePart,
    NamePart,
    Station,
    Sonde,
    Certificate,
    Flight,
];

const RELEASE: [Kind; 7] = [
    NamePart, NamePart, NamePart, NamePart, Station, Sonde, Flight,
];

const BACKBONE: [Kind; 11] = [
    NamePart, NamePart, NamePart, NamePart, Station, View, View, NamePart, NamePart, NamePart,
    NamePart,
];

const OFFER: [Kind; 8] = [
    Station, View, NamePart, NamePart, NamePart, NamePart, Grade, Mask,
];

const VOICES: [Kind; 7] = [Grade, View, NamePart, NamePart, NamePart, NamePart, Mask];

const CLAIM: [Kind; 3] = [Station, View, View];

/// The kinds of the words that stand first behind a head.
fn front(layout: Layout) -> &'static [Kind]
    ensures kinds { map kind_number result.now ++ tail_kinds layout ≡ kinds_of layout }
    ensures count { (n : ℕ) → counts layout n ≡ true → (length result.now ≤ n) × (n - length result.now ≤ length (tail_kinds layout)) × ((n - length result.now) % 2 ≡ 0) }
{
    match layout {
        Layout::Bind => &BIND,
        Layout::Release => &RELEASE,
        Layout::Backbone => &BACKBONE,
        Layout::Offer => &OFFER,
        Layout::Voices | Layout::Certificate => &VOICES,
        Layout::Claim => &CLAIM,
        Layout::Probe | Layout::Leave => &[],
    }
}

/// Whether the words have the kinds, one by one, as far as both go.
fn have_kinds(words: &[u32], kinds: &[Kind]) -> bool
    ensures { result ≡ list_all (λ p. kind p.0 == kind_number p.1) (zip words.now kinds.now) }
{
    words
        .iter()
        .zip(kinds)
        .all(|(word, kind)| has_kind(*word, *kind))
}

/// Whether each word is a part of a name.
fn are_name_parts(words: &[u32]) -> bool
    ensures { result ≡ list_all (λ w. kind w == 3) words.now }
{
    words.iter().all(|word| has_kind(*word, NamePart))
}

/// Whether the words are those of claims.
pub(crate) fn hold_claims(words: &[u32]) -> bool
    ensures { result ≡ are_claims words.now }
{
    words.len() <= 56
        && words.len() % 2 == 0
        && words.chunks_exact(2).all(|pair| has_kind(pair[0], Station) && has_kind(pair[1], View))
}

/// Whether the words behind the front are references', or claims'; layouts of other messages have none.
fn have_tail_kinds(layout: Layout, words: &[u32]) -> bool
    requires { (length words.now ≤ length (tail_kinds layout)) × (length words.now % 2 ≡ 0) }
    ensures { result ≡ right_kinds (tail_kinds layout) words.now }
{
    match layout {
        Layout::Bind | Layout::Release | Layout::Backbone => are_name_parts(words),
        Layout::Offer => hold_claims(words),
        _ => true,
    }
}

/// Whether the words behind a head have the kinds of their layout.
#[tactic(auto, using(crate::proofs::RightKinds::front_and_tail, std::proofs::lemmas::List::take_rest))]
pub(crate) fn have_right_kinds(layout: Layout, words: &[u32]) -> bool
    requires { counts layout (length words.now) ≡ true }
    ensures { result ≡ right_kinds (kinds_of layout) words.now }
{
    let kinds = front(layout);
    have_kinds(words, kinds) && have_tail_kinds(layout, &words[kinds.len()..])
}
