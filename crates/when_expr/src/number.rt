//! The whole numbers of 64 signed bits that words are. Each stands as its distance from the least one, so that unsigned
//! numbers compare as the numbers do.

ghost use Rattle.std.specs.Prelude.{◌≡◌};
ghost use Rattle.when_expr.specs.Truth.{digits_from, up_to_limit, magnitude as magnitude_of, below_zero, from_zero, word_number};

// How zero stands.
const ZERO_POINT: u64 = 9_223_372_036_854_775_808;

#[tactic(auto, using(crate::proofs::Digits::grown_too_large, crate::proofs::Digits::no_digit, crate::proofs::Digits::one_digit))]
fn digits(text: &[u8]) -> Option<u64>
    ensures { result ≡ up_to_limit (digits_from 0 text.now) }
{
    let mut value: u64 = 0;
    for i in 0..text.len() {
        let byte = text[i];
        if !byte.is_ascii_digit() {
            return None;
        }
        if value > ZERO_POINT / 10 {
            return None;
        }
        value = 10 * value + (byte - b'0') as u64;
    }
    if value <= ZERO_POINT {
        Some(value)
    } else {
        None
    }
}

fn magnitude(text: &[u8]) -> Option<u64>
    ensures { result ≡ magnitude_of text.now }
{
    if text.is_empty() { None } else { digits(text) }
}

/// The number that a word is: an optional minus sign, and digits.
pub(crate) fn number_of(text: &[u8]) -> Option<u64>
    ensures { result ≡ word_number text.now }
{
    match text {
        [] => None,
        [b'-', rest @ ..] => match magnitude(rest) {
            Some(value) if value <= ZERO_POINT => Some(ZERO_POINT - value),
            _ => None,
        },
        _ => match magnitude(text) {
            Some(value) if value < ZERO_POINT => Some(ZERO_POINT + value),
            _ => None,
        },
    }
}
