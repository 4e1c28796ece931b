//! Decimal numbers, as words of a text.

ghost use Rattle.std.specs.Prelude.{◌≡◌};
ghost use Rattle.std.specs.List.{list_all};
ghost use Rattle.text_lines.specs.Numbers as spec;

/// A word of one byte, or of more that do not begin with a zero.
fn begins_well(word: &[u8]) -> bool
    ensures { result ≡ spec.begins_well word.now }
{
    match word {
        [] => false,
        [_] => true,
        // A number has one spelling: a text that is read and written again keeps its bytes.
        [first, ..] => *first != b'0',
    }
}

/// Whether each byte is a digit; there may be none.
pub fn is_all_digits(word: &[u8]) -> bool
    ensures { result ≡ list_all spec.is_digit word.now }
{
    word.iter().all(|byte| byte.is_ascii_digit())
}

/// Whether a word is a decimal number of any length: digits, at least one, and no zero before another.
pub fn is_decimal(word: &[u8]) -> bool
    ensures { result ≡ spec.is_decimal word.now }
{
    begins_well(word) && is_all_digits(word)
}

/// The decimal number that a word is; None where it is none, or more than `most`.
pub fn number(word: &[u8], most: u32) -> Option<u32>
    ensures { result ≡ spec.number_within most word.now }
{
    if !is_decimal(word) {
        return None;
    }
    let mut value = 0;
    for byte in word {
        // In 64 bits ten times a `u32` and a digit can't overflow.
        let more = u64::from(value) * 10 + u64::from(*byte - b'0');
        if more > u64::from(most) {
            return None;
        }
        value = more as u32;
    }
    Some(value)
}
