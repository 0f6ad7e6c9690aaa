//! The numbers of a sequence (field reference, `Sequence`).

ghost use Rattle.std.specs.Prelude.{◌≡◌, ◌≤◌, ◌^◌, IfOk};
ghost use Rattle.std.specs.List.{list_all};
ghost use Rattle.std.specs.Char.{is_ascii_digit};
ghost use Rattle.fanout.specs.Faults.{Tells};
ghost use Rattle.fanout.specs.Inside.Rows.{IsNear};
ghost use Rattle.fanout.specs.Sequences.{are_digits, natural_of, whole_of};

use crate::FanRefused;

const MOST_DIGITS: usize = 13;

const MOST_NUMBER: u64 = 1_000_000_000_000;

// An optional minus sign and 1 to 13 digits, from minus to plus 1,000,000,000,000.
pub(crate) fn read_whole(text: &str) -> Result<i64, FanRefused>
    ensures told { Tells (λ z. z) result (whole_of text.now) }
    ensures near { IfOk result IsNear }
{
    match text.strip_prefix('-') {
        Some(digits) => Ok(-(read_natural(digits)? as i64)),
        None => Ok(read_natural(text)? as i64),
    }
}

fn read_natural(text: &str) -> Result<u64, FanRefused>
    ensures told { Tells (λ n. n) result (natural_of text.now) }
    ensures high { IfOk result (λ n. n ≤ 10 ^ 12) }
{
    if !has_digits(text.as_bytes()) {
        return Err(FanRefused::BadNumber);
    }
    let Ok(number) = text.parse::<u64>() else {
        return Err(FanRefused::BadNumber);
    };
    if number > MOST_NUMBER {
        return Err(FanRefused::BadNumber);
    }
    Ok(number)
}

fn has_digits(text: &[u8]) -> bool
    ensures { result ≡ are_digits text.now }
{
    !text.is_empty() && text.len() <= MOST_DIGITS && all_digits(text)
}

fn all_digits(text: &[u8]) -> bool
    ensures { result ≡ list_all is_ascii_digit text.now }
{
    text.iter().all(|byte| byte.is_ascii_digit())
}
