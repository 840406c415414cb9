ghost use Rattle.std.specs.Prelude.{◌≡◌, ◌≤◌};
ghost use Rattle.bench.specs.Numerals.{radix, value_of, numeral_in, numeral, word_numeral, short};

/// The base of digits that have no `0x` before them.
#[derive(Clone, Copy)]
enum Base {
    Ten = 10,
    Sixteen = 16,
}

impl Base {
    /// How many digits it has.
    fn radix(self) -> u32
        ensures exact { result ≡ radix self }
        ensures low { 2 ≤ result }
        ensures high { result ≤ 16 }
    {
        self as u32
    }
}

/// The number that a row of digits stands for: at least one digit, and no sign.
fn value(base: Base, digits: &str) -> Option<u64>
    ensures { result ≡ value_of (radix base) digits.now }
{
    if digits.starts_with('+') {
        return None;
    }
    u64::from_str_radix(digits, base.radix()).ok()
}

/// The number that a numeral of a base stands for, hexadecimal behind `0x`; none where 64 bits do not hold it.
fn numeral(base: Base, text: &str) -> Option<u64>
    ensures { result ≡ numeral_in (radix base) text.now }
{
    match text.strip_prefix("0x") {
        Some(digits) => value(Base::Sixteen, digits),
        None => value(base, text),
    }
}

/// The same where 32 bits hold it.
fn short_of(base: Base, text: &str) -> Option<u32>
    ensures { result ≡ short (numeral_in (radix base) text.now) }
{
    u32::try_from(numeral(base, text)?).ok()
}

/// The number that a numeral stands for: decimal, or hexadecimal behind `0x`; none where 64 bits do not hold it.
pub fn number(text: &str) -> Option<u64>
    ensures { result ≡ numeral text.now }
{
    numeral(Base::Ten, text)
}

/// The same where 32 bits hold it.
pub fn short_number(text: &str) -> Option<u32>
    ensures { result ≡ short (numeral text.now) }
{
    short_of(Base::Ten, text)
}

/// A word of 32 bits, hexadecimal with or without `0x`.
pub fn word(text: &str) -> Option<u32>
    ensures { result ≡ short (word_numeral text.now) }
{
    short_of(Base::Sixteen, text)
}
