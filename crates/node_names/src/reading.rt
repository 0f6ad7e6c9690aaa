//! The way that a name leads through.

ghost use Rattle.std.specs.Prelude.{◌≡◌, ◌≢◌, ℕ, ◌^◌, ◌<◌, ◌∷◌, ◌++◌, true, MatchOption, IfOk, decimal};
ghost use Rattle.std.specs.List.{list_all, prefix_len};
ghost use Rattle.base_types.specs.Bytes.{is_name_byte};
ghost use Rattle.node_names.specs.Names.{IsWay};
ghost use Rattle.node_names.specs.Inside.Reading.{Stops, BeginsWith, BeginsWithNone};

use crate::{Seg, Segs};
use base_types::{Memory, Text, is_name, is_name_byte};
use std::alloc::Global;

// How many bytes of a step's name a text begins with.
fn name_len(text: &[u8]) -> usize
    ensures { result ≡ prefix_len is_name_byte text.now }
{
    text.iter().take_while(|byte| is_name_byte(**byte)).count()
}

// The bytes of a step's name that a text begins with, and the text behind them.
fn split_name(text: &str) -> (&str, &str)
    ensures whole { text.now ≡ result.0.now ++ result.1.now }
    ensures name { list_all is_name_byte result.0.now ≡ true }
    ensures stops { Stops is_name_byte result.1.now }
{
    text.split_at(name_len(text.as_bytes()))
}

// The number of 32 bits that these are the digits of.
fn number_of(digits: &str) -> Option<u32>
    ensures { MatchOption result
        ((n : ℕ) → n < 2 ^ 32 → digits.now ≢ decimal n)
        (λ n. digits.now ≡ decimal n) }
{
    let bytes = digits.as_bytes();
    if bytes.is_empty() {
        return None;
    }
    // `parse` reads a sign and leading zeros too, which are not how a number is written.
    if bytes[0] == b'+' {
        return None;
    }
    if bytes[0] == b'0' {
        return if bytes.len() == 1 { Some(0) } else { None };
    }
    digits.parse().ok()
}

// The exit hook, or the step, whose name stands behind a dot.
fn call_at(alloc: Global, after: &str) -> Result<Option<(Seg, &str)>, Memory>
    ensures { IfOk result (λ found. MatchOption found
        (BeginsWithNone (46 ∷ after.now))
        (λ x. BeginsWith x.0 (46 ∷ after.now) x.1.now)) }
{
    let (name, rest) = split_name(after);
    if name == "onExit" {
        return Ok(Some((Seg::Exit, rest)));
    }
    if !is_name(name) {
        return Ok(None);
    }
    Ok(Some((Seg::Call(Text::from_text(alloc, name)?), rest)))
}

// The group whose number stands behind a bracket.
fn group_at(after: &str) -> Option<(Seg, &str)>
    ensures { MatchOption result
        (BeginsWithNone (91 ∷ after.now))
        (λ x. BeginsWith x.0 (91 ∷ after.now) x.1.now) }
{
    let Some((digits, rest)) = after.split_once(']') else {
        return None;
    };
    let Some(number) = number_of(digits) else {
        return None;
    };
    Some((Seg::Group(number), rest))
}

// The item, or the attempt, that stands behind a parenthesis.
fn item_at(alloc: Global, after: &str) -> Result<Option<(Seg, &str)>, Memory>
    ensures { IfOk result (λ found. MatchOption found
        (BeginsWithNone (40 ∷ after.now))
        (λ x. BeginsWith x.0 (40 ∷ after.now) x.1.now)) }
{
    let Some((inside, rest)) = after.split_once(')') else {
        return Ok(None);
    };
    let Some((digits, text)) = inside.split_once(':') else {
        return Ok(attempt_of(inside, rest));
    };
    if text.contains('(') {
        return Ok(None);
    }
    let Some(number) = number_of(digits) else {
        return Ok(None);
    };
    Ok(Some((Seg::Item(number, Text::from_text(alloc, text)?), rest)))
}

fn attempt_of<'a>(digits: &str, rest: &'a str) -> Option<(Seg, &'a str)>
    ensures { MatchOption result
        ((n : ℕ) → n < 2 ^ 32 → digits.now ≢ decimal n)
        (λ x. (n : ℕ) × (n < 2 ^ 32) × (x.0 ≡ Seg.Attempt n) × (digits.now ≡ decimal n) × (x.1.now ≡ rest.now)) }
{
    number_of(digits).map(|number| (Seg::Attempt(number), rest))
}

// The first segment of a text of suffixes, and the text behind it.
fn first_seg(alloc: Global, text: &str) -> Result<Option<(Seg, &str)>, Memory>
    ensures { IfOk result (λ found. MatchOption found
        (BeginsWithNone text.now)
        (λ x. BeginsWith x.0 text.now x.1.now)) }
{
    if let Some(after) = text.strip_prefix('.') {
        return call_at(alloc, after);
    }
    if let Some(after) = text.strip_prefix('[') {
        return Ok(group_at(after));
    }
    if let Some(after) = text.strip_prefix('(') {
        return item_at(alloc, after);
    }
    Ok(None)
}

/// The way from a root to the node of this name; `None` where no node below the root has the name.
pub fn segs_of(alloc: Global, root: &Text, name: &Text) -> Result<Option<Segs>, Memory>
    ensures { IfOk result (IsWay root.now name.now) }
{
    let Some(suffixes) = name.as_str().strip_prefix(root.as_str()) else {
        return Ok(None);
    };
    let mut rest = suffixes;
    let mut way = Segs::new(alloc);
    while !rest.is_empty() {
        match first_seg(alloc, rest) {
            Ok(Some((seg, after))) => {
                way.push(seg)?;
                rest = after;
            }
            Ok(None) => return Ok(None),
            Err(refused) => return Err(refused),
        }
    }
    Ok(Some(way))
}
