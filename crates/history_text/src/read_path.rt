//! A path, read from its text.

ghost use Rattle.std.specs.Prelude.{◌≡◌, ◌==◌, map, IfOk, option_map};
ghost use Rattle.std.specs.List.{slice_split};
ghost use Rattle.history_text.specs.Inside.Reading as reads;

use crate::fault::Fault;
use std::alloc::{AllocError, Global};
use tree_types::{Path, Sel, Sels};

// The number of 32 bits that these are the digits of.
fn number_of(digits: &[u8]) -> Option<u32>
    ensures { result ≡ reads.number_after 0 digits.now }
{
    let mut number: u32 = 0;
    for digit in digits {
        if !digit.is_ascii_digit() {
            return None;
        }
        let next = 10 * u64::from(number) + u64::from(*digit - b'0');
        if next >= 1 << 32 {
            return None;
        }
        number = next as u32;
    }
    Some(number)
}

fn sel_by(letter: u8, number: u32) -> Option<Sel>
    ensures { result ≡ reads.sel_by letter number }
{
    match letter {
        b'g' => Some(Sel::Group(number)),
        b's' => Some(Sel::Step(number)),
        b't' => Some(Sel::Task(number)),
        b'i' => Some(Sel::Item(number)),
        b'a' => Some(Sel::Attempt(number)),
        _ => None,
    }
}

fn numbered(part: &[u8]) -> Option<Sel>
    ensures { result ≡ reads.numbered part.now }
{
    match part {
        [] => None,
        [letter, digits @ ..] => match number_of(digits) {
            Some(number) => sel_by(*letter, number),
            None => None,
        },
    }
}

fn sel_of(part: &str) -> Option<Sel>
    ensures { result ≡ reads.sel_of part.now }
{
    match part {
        "main" => Some(Sel::Main),
        "exit" => Some(Sel::Exit),
        _ => numbered(part.as_bytes()),
    }
}

fn parts_of(alloc: Global, text: &str) -> Result<Vec<&str>, AllocError>
    ensures { IfOk result (λ v. map (λ x. x.now) v.items ≡ slice_split (λ b. b == 47) text.now) }
{
    text.split('/').collect(alloc)
}

fn sels_of(alloc: Global, parts: &[&str]) -> Result<Sels, Fault>
    ensures { reads.Gives (λ sels. sels) result
        (reads.all_of reads.sel_of (map (λ part. part.now) parts.now)) }
{
    let mut sels = Sels::new(alloc)?;
    for part in parts {
        match sel_of(part) {
            Some(sel) => sels.push(sel)?,
            None => return Err(Fault::Other),
        }
    }
    Ok(sels)
}

/// The path that a text is of.
pub(crate) fn path_of(alloc: Global, text: &str) -> Result<Path, Fault>
    ensures { reads.Gives (λ path. path) result (reads.path_of text.now) }
{
    if text.is_empty() {
        return Ok(Path {
            sels: Sels::new(alloc)?,
        });
    }
    let parts = parts_of(alloc, text)?;
    Ok(Path {
        sels: sels_of(alloc, parts.as_slice())?,
    })
}
