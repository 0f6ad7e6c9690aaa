//! The format of a sequence's numbers (field reference, `Sequence.format`).

ghost use Rattle.std.specs.Prelude.{◌≡◌, ◌++◌, ◌-◌, option_map, replicate, length, decimal, OnOk, IfOk};
ghost use Rattle.fanout.specs.Faults.{Tells};
ghost use Rattle.fanout.specs.Sequences.{format_of, padded, written};
ghost use Rattle.fanout.specs.Inside.Shapes.{parts_of_shape, AfterFront, AfterBack, number_behind, width_read};

use crate::FanRefused;
use base_types::{Memory, Text, TryCopy};
use std::alloc::Global;

// A format that is read: text, the place of the number with its width, and text.
#[derive(Drop)]
pub(crate) struct Format {
    pub before: Text,
    pub width: usize,
    pub after: Text,
}

// Text with exactly one `%d` or `%0Nd`, and `%%` for a percent sign.
pub(crate) fn read_format(alloc: Global, text: &str) -> Result<Format, FanRefused>
    ensures { Tells parts_of_shape result (format_of text.now) }
{
    let (before, width, rest) = read_front(alloc, text)?;
    let after = read_back(alloc, rest)?;
    Ok(Format {
        before,
        width,
        after,
    })
}

// What stands before the number, the number's width, and what follows it.
fn read_front(alloc: Global, text: &str) -> Result<(Text, usize, &str), FanRefused>
    ensures { AfterFront result text.now }
{
    let mut before = Text::new(alloc)?;
    let mut rest = text;
    loop {
        let Some((plain, behind)) = rest.split_once('%') else {
            return Err(FanRefused::BadFormat);
        };
        before.push(plain)?;
        let Some(more) = behind.strip_prefix('%') else {
            let Some((width, after)) = read_width(behind) else {
                return Err(FanRefused::BadFormat);
            };
            return Ok((before, width, after));
        };
        before.push("%")?;
        rest = more;
    }
}

// What stands after the number, where no further one is.
fn read_back(alloc: Global, text: &str) -> Result<Text, FanRefused>
    ensures { AfterBack result text.now }
{
    let mut after = Text::new(alloc)?;
    let mut rest = text;
    while let Some((plain, behind)) = rest.split_once('%') {
        after.push(plain)?;
        after.push("%")?;
        let Some(more) = behind.strip_prefix('%') else {
            return Err(FanRefused::BadFormat);
        };
        rest = more;
    }
    after.push(rest)?;
    Ok(after)
}

// The width of a number behind its percent sign, and what follows it.
fn read_width(text: &str) -> Option<(usize, &str)>
    ensures { number_behind text.now ≡ option_map width_read result }
{
    if let Some(rest) = text.strip_prefix('d') {
        return Some((0, rest));
    }
    let wide = text.strip_prefix('0')?;
    let digit = *wide.as_bytes().first()?;
    if digit < b'1' || digit > b'9' {
        return None;
    }
    let rest = wide.strip_prefix(digit as char)?.strip_prefix('d')?;
    Some(((digit - b'0') as usize, rest))
}

// A number as a format writes it.
pub(crate) fn write_number(format: &Format, number: i64) -> Result<Text, Memory>
    ensures { IfOk result (λ text. text ≡ written (parts_of_shape format.now) number) }
{
    let mut text = format.before.copy()?;
    push_number(&mut text, format.width, number)?;
    text.push(format.after.as_str())?;
    Ok(text)
}

// A minus sign counts as one of the width.
fn push_number(text: &mut Text, width: usize, number: i64) -> Result<(), Memory>
    ensures { OnOk result (text.new ≡ text.old ++ padded width number) }
{
    if number < 0 {
        text.push("-")?;
        push_padded(text, width.saturating_sub(1), number.unsigned_abs())
    } else {
        push_padded(text, width, number.unsigned_abs())
    }
}

fn push_padded(text: &mut Text, width: usize, number: u64) -> Result<(), Memory>
    ensures { OnOk result (text.new ≡ text.old
        ++ (replicate (width - length (decimal number)) 48 ++ decimal number)) }
{
    let digits = format!(in text.allocator(); "{number}")?;
    push_zeros(text, width.saturating_sub(digits.len()))?;
    text.push(digits.as_str())
}

fn push_zeros(text: &mut Text, count: usize) -> Result<(), Memory>
    ensures { OnOk result (text.new ≡ text.old ++ replicate count 48) }
{
    for _ in 0..count {
        text.push("0")?;
    }
    Ok(())
}
