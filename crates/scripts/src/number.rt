//! The digits of a text and the number that a word writes.
ghost use Rattle.std.specs.Prelude.{◌≡◌, ℕ, ◌<◌, Some, decimal};
ghost use Rattle.scripts.specs.Numbers.{radix, digit_of, digits_of, written, numeral_of, number_of};

/// The base that a number is written in.
#[derive(Clone, Copy, PartialEq, Eq, Debug)]
pub enum Base {
    Ten = 10,
    Sixteen = 16,
}

impl Base {
    pub fn radix(self) -> u8
        ensures { result ≡ radix self }
    {
        self as u8
    }
}

/// The value of a digit; letters of either case.
pub fn digit(byte: u8, base: Base) -> Option<u8>
    ensures { result ≡ digit_of base byte }
{
    let value = char::from(byte).to_digit(base.radix().into())?;
    u8::try_from(value).ok()
}

// The number that the digits of a text write, 0 where there is none.
fn digits(text: &[u8], base: Base) -> Option<u32>
    ensures { result ≡ written base (digits_of base text.now) }
{
    let mut value: u32 = 0;
    // By `try_fold` it was tried, and its one goal did not close.
    for byte in text {
        let one = digit(*byte, base)?;
        // In 64 bits, where to ask once whether there is room suffices: `checked_mul` and `checked_add` ask twice.
        let longer = u64::from(value) * u64::from(base.radix()) + u64::from(one);
        value = u32::try_from(longer).ok()?;
    }
    Some(value)
}

// The number that a text of digits writes, which has at least one.
fn numeral(text: &[u8], base: Base) -> Option<u32>
    ensures { result ≡ numeral_of base text.now }
{
    if text.is_empty() {
        return None;
    }
    digits(text, base)
}

/// The number that a word writes: decimal, or hexadecimal after `0x`, and at most 4294967295.
pub fn number(word: &[u8]) -> Option<u32>
    ensures value { result ≡ number_of word.now }
    ensures back { (n : ℕ) → n < 4294967296 → word.now ≡ decimal n → result ≡ Some n }
{
    match word.strip_prefix(b"0x") {
        Some(digits) => numeral(digits, Base::Sixteen),
        None => numeral(word, Base::Ten),
    }
}
