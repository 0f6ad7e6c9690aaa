//! Spans of time in whole seconds.

ghost use Rattle.std.specs.Prelude.{◌≡◌, ◌<◌, ◌^◌, [], ◌∷◌, IsTrue};
ghost use Rattle.std.specs.List.{list_all, prefix_len};
ghost use Rattle.std.specs.Char.{is_ascii_digit};
ghost use Rattle.std.specs.Str.Parse.{digits_value};
ghost use Rattle.time_text.specs.Durations.{is_number, front_part, after_part, within_most, seconds_of_parts, duration_of, IsReading};

use base_types::limits::MOST_SECONDS;
use thiserror::Error;

const MOST_DIGITS: usize = 8;

const HOUR: u64 = 3600;

const MINUTE: u64 = 60;

/// Why a text is no span of time.
#[derive(Clone, Copy, Debug, PartialEq, Eq, Error)]
pub enum DurationRefused {
    #[error("not a duration")]
    BadForm,
    #[error("longer than 365 days")]
    TooLong,
}

/// The seconds that a text says: 1 to 8 digits alone, or such numbers with `h`, `m` and `s`, each at most once, in this
/// order, at least one of them.
pub fn read_duration(text: &str) -> Result<u64, DurationRefused>
    ensures meant { result ≡ duration_of text.now }

    // Stated apart from the way of reading: an answer is the grammar's, and each text of the grammar is read.
    ensures grammar { IsReading text.now result }
{
    read_seconds(text.as_bytes())
}

fn read_seconds(text: &[u8]) -> Result<u64, DurationRefused>
    ensures { result ≡ duration_of text.now }
{
    if text.is_empty() {
        return Err(DurationRefused::BadForm);
    }
    if holds_number(text) {
        return within(number(text));
    }
    read_parts(text)
}

fn read_parts(text: &[u8]) -> Result<u64, DurationRefused>
    ensures { result ≡ seconds_of_parts text.now }
{
    let (hours, from_minutes) = split_part(text, b"h");
    let (minutes, from_seconds) = split_part(from_minutes, b"m");
    let (seconds, rest) = split_part(from_seconds, b"s");
    if !rest.is_empty() {
        return Err(DurationRefused::BadForm);
    }
    within(HOUR * hours + MINUTE * minutes + seconds)
}

// The number of a unit at the front of a text, 0 where none stands there, and what follows it.
fn split_part<'a>(text: &'a [u8], unit: &[u8]) -> (u64, &'a [u8])
    ensures number { result.0 ≡ front_part unit.now text.now }
    ensures rest { result.1.now ≡ after_part unit.now text.now }
    ensures short { result.0 < 10 ^ 8 }
{
    let (digits, rest) = text.split_at(front_len(text));
    if holds_number(digits) && rest.starts_with(unit) {
        (number(digits), &rest[unit.len()..])
    } else {
        (0, text)
    }
}

fn front_len(text: &[u8]) -> usize
    ensures { result ≡ prefix_len is_ascii_digit text.now }
{
    text.iter().take_while(|byte| byte.is_ascii_digit()).count()
}

fn holds_number(text: &[u8]) -> bool
    ensures { result ≡ is_number text.now }
{
    !text.is_empty() && text.len() <= MOST_DIGITS && are_digits(text)
}

fn are_digits(text: &[u8]) -> bool
    ensures { result ≡ list_all is_ascii_digit text.now }
{
    text.iter().all(|byte| byte.is_ascii_digit())
}

fn number(digits: &[u8]) -> u64
    requires { IsTrue (is_number digits.now) }
    ensures value { result ≡ digits_value 10 digits.now }
    ensures short { result < 10 ^ 8 }
{
    let mut number = 0;
    for digit in digits {
        number = number * 10 + (digit - b'0') as u64;
    }
    number
}

fn within(seconds: u64) -> Result<u64, DurationRefused>
    ensures { result ≡ within_most seconds }
{
    if seconds <= MOST_SECONDS {
        Ok(seconds)
    } else {
        Err(DurationRefused::TooLong)
    }
}
