ghost use Rattle.std.specs.Prelude.{◌≡◌, ◌+◌, ◌*◌, ◌/◌, ◌%◌, ◌<◌, true, ◌==◌, slice_index};
ghost use Rattle.words.specs.Kinds.{kind_number};
ghost use Rattle.words.specs.Words.{kind as kindT, value, word, small, small_name, name_words};

use crate::kinds::Kind;
use model::Name;

/// One more than the largest value of a word.
const VALUES: u32 = 0x1000_0000;

/// Whether the word is of that kind.
pub(crate) fn has_kind(w: u32, kind: Kind) -> bool
    ensures { result ≡ (kindT w == kind_number kind) }
{
    w / VALUES == u32::from(kind)
}

/// One more than the largest count that a head can say; the message's type stands above the count.
pub(crate) const COUNTS: u32 = 0x10_0000;

/// The value of the word, without its kind.
pub(crate) fn value_of(w: u32) -> u32
    ensures { (result ≡ value w) × (result < 268435456) }
{
    w % VALUES
}

/// The word of that kind and value.
pub(crate) fn word_of(kind: Kind, value: u32) -> u32
    requires { small value ≡ true }
    ensures { result ≡ word (kind_number kind) value }
{
    u32::from(kind) * VALUES + value
}

/// Whether the number fits a word.
pub(crate) fn is_small(v: u32) -> bool
    ensures { result ≡ small v }
{
    v < VALUES
}

/// The number that two words' values make, the high 28 bits first.
fn half(high: u32, low: u32) -> u64
    ensures { result ≡ value high * 268435456 + value low }
{
    u64::from(value_of(high)) * u64::from(VALUES) + u64::from(value_of(low))
}

/// The name that four words make.
pub(crate) fn name_from(words: [u32; 4]) -> Name
    requires { (kindT (slice_index words 0) ≡ 3) × (kindT (slice_index words 1) ≡ 3) × (kindT (slice_index words 2) ≡ 3) × (kindT (slice_index words 3) ≡ 3) }
    ensures words { name_words result ≡ words }
    ensures small { small_name result ≡ true }
{
    let [a, b, c, d] = words;
    Name {
        high: half(a, b),
        low: half(c, d),
    }
}

/// A half of a name, in two words.
fn half_words(half: u64) -> (u32, u32)
    requires { half < 72057594037927936 }
    ensures { (result.0 ≡ word 3 (half / 268435456)) × (result.1 ≡ word 3 (half % 268435456)) }
{
    (
        word_of(Kind::NamePart, (half / u64::from(VALUES)) as u32),
        word_of(Kind::NamePart, (half % u64::from(VALUES)) as u32),
    )
}

/// A name in its four words.
pub(crate) fn words_of_name(name: Name) -> [u32; 4]
    requires { small_name name ≡ true }
    ensures { result ≡ name_words name }
{
    let (a, b) = half_words(name.high);
    let (c, d) = half_words(name.low);
    [a, b, c, d]
}
