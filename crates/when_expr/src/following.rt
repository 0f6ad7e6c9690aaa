//! What a byte makes of an operand that has begun.

ghost use Rattle.std.specs.Prelude.{◌≡◌, ◌++◌, ◌∷◌, [], IfOk, option_map};
ghost use Rattle.when_expr.specs.Expression.{literal};
ghost use Rattle.when_expr.specs.declared.inner.Inner.TheVariants as inside;
ghost use Rattle.when_expr.specs.Inside.Operands.{letter, on_term, on_second, on_order, on_word, on_quote, literal_word, literal_of as side_literal, long_order, begin, stop};

use crate::inner::{Inner, Letter, Mark, Place};
use crate::steps::{Comparison, Draft, Side};
use base_types::{Bytes, Memory};
use connectives::Next;
use std::alloc::Global;

fn letter_at(byte: u8) -> Letter
    ensures { result ≡ letter byte }
{
    match byte {
        b' ' | b'\t' => Letter::Blank,
        b'\'' | b'"' => Letter::Quote,
        b'!' => Letter::Bang,
        b'(' => Letter::Opening,
        b')' | b'&' | b'|' => Letter::Ending,
        b'=' => Letter::Equals,
        b'<' => Letter::Less,
        b'>' => Letter::Greater,
        _ => Letter::OfWord,
    }
}

fn with_byte(bytes: Bytes, byte: u8) -> Result<Bytes, Memory>
    ensures { IfOk result (λ longer. longer ≡ bytes ++ byte ∷ []) }
{
    let mut bytes = bytes;
    bytes.push(byte)?;
    Ok(bytes)
}

pub(crate) fn before_first(alloc: Global, byte: u8) -> Result<Option<Inner>, Memory>
    ensures { IfOk result (λ inner. inner ≡ begin byte) }
{
    match letter_at(byte) {
        Letter::OfWord => {
            let word = with_byte(Bytes::new(alloc), byte)?;
            Ok(Some(Inner::InWord(word, Place::First)))
        }
        Letter::Quote => Ok(Some(Inner::InQuote(byte, Bytes::new(alloc), Place::First))),
        Letter::Blank
        | Letter::Bang
        | Letter::Opening
        | Letter::Ending
        | Letter::Equals
        | Letter::Less
        | Letter::Greater => Ok(None),
    }
}

// The literal that a word may be, where no order follows.
fn literal_of(word: &[u8]) -> Option<bool>
    ensures { option_map literal result ≡ literal_word word.now }
{
    if word == b"true".as_slice() {
        return Some(true);
    }
    if word == b"false".as_slice() {
        return Some(false);
    }
    None
}

pub(crate) fn term_literal(side: &Side) -> Option<bool>
    ensures { option_map literal result ≡ side_literal side.now }
{
    match side {
        Side::Quoted(_) => None,
        Side::Word(text) => literal_of(text.as_slice()),
    }
}

fn behind_term(alloc: Global, kind: Letter, side: Side) -> Result<Next<Draft, Inner>, Memory>
    ensures { IfOk result (λ next. next ≡ on_term kind side) }
{
    match kind {
        Letter::Blank => Ok(Next::Inside(Inner::HasTerm(side))),
        Letter::Equals => Ok(Next::Inside(Inner::InOrder(Mark::Equals, side))),
        Letter::Bang => Ok(Next::Inside(Inner::InOrder(Mark::Bang, side))),
        Letter::Less => Ok(Next::Inside(Inner::InOrder(Mark::Less, side))),
        Letter::Greater => Ok(Next::Inside(Inner::InOrder(Mark::Greater, side))),
        Letter::Ending => match term_literal(&side) {
            None => Ok(Next::Stuck),
            Some(value) => Ok(Next::Before(Draft::literal(alloc, value)?)),
        },
        Letter::OfWord | Letter::Quote | Letter::Opening => Ok(Next::Stuck),
    }
}

pub(crate) fn after_term(alloc: Global, byte: u8, side: Side) -> Result<Next<Draft, Inner>, Memory>
    ensures { IfOk result (λ next. next ≡ on_term (letter byte) side) }
{
    behind_term(alloc, letter_at(byte), side)
}

pub(crate) fn before_second(
    alloc: Global,
    byte: u8,
    left: Side,
    comparison: Comparison,
) -> Result<Next<Draft, Inner>, Memory>
    ensures { IfOk result (λ next. next ≡ on_second (letter byte) byte left comparison) }
{
    match letter_at(byte) {
        Letter::OfWord => {
            let word = with_byte(Bytes::new(alloc), byte)?;
            let place = Place::Second(left, comparison);
            Ok(Next::Inside(Inner::InWord(word, place)))
        }
        Letter::Blank => Ok(Next::Inside(Inner::WantsTerm(left, comparison))),
        Letter::Quote => {
            let place = Place::Second(left, comparison);
            Ok(Next::Inside(Inner::InQuote(byte, Bytes::new(alloc), place)))
        }
        Letter::Bang
        | Letter::Opening
        | Letter::Ending
        | Letter::Equals
        | Letter::Less
        | Letter::Greater => Ok(Next::Stuck),
    }
}

fn long_comparison(mark: Mark) -> Comparison
    ensures { result ≡ long_order mark }
{
    match mark {
        Mark::Equals => Comparison::Equal,
        Mark::Bang => Comparison::Unequal,
        Mark::Less => Comparison::AtMost,
        Mark::Greater => Comparison::AtLeast,
    }
}

pub(crate) fn in_order(
    alloc: Global,
    byte: u8,
    mark: Mark,
    left: Side,
) -> Result<Next<Draft, Inner>, Memory>
    ensures { IfOk result (λ next. next ≡ on_order (letter byte) byte mark left) }
{
    if let Letter::Equals = letter_at(byte) {
        let comparison = long_comparison(mark);
        return Ok(Next::Inside(Inner::WantsTerm(left, comparison)));
    }
    match mark {
        Mark::Equals | Mark::Bang => Ok(Next::Stuck),
        Mark::Less => before_second(alloc, byte, left, Comparison::Below),
        Mark::Greater => before_second(alloc, byte, left, Comparison::Above),
    }
}

pub(crate) fn after_word(
    alloc: Global,
    byte: u8,
    word: Bytes,
    place: Place,
) -> Result<Next<Draft, Inner>, Memory>
    ensures { IfOk result (λ next. next ≡ on_word (letter byte) byte word place) }
{
    let kind = letter_at(byte);
    if let Letter::OfWord = kind {
        return Ok(Next::Inside(Inner::InWord(with_byte(word, byte)?, place)));
    }
    let right = Side::Word(word);
    match place {
        Place::First => behind_term(alloc, kind, right),
        Place::Second(left, comparison) => {
            Ok(Next::Before(Draft::test(alloc, left, comparison, right)?))
        }
    }
}

pub(crate) fn after_quote(
    alloc: Global,
    byte: u8,
    quote: u8,
    text: Bytes,
    place: Place,
) -> Result<Next<Draft, Inner>, Memory>
    ensures { IfOk result (λ next. next ≡ on_quote byte quote text place) }
{
    if byte != quote {
        return Ok(Next::Inside(Inner::InQuote(quote, with_byte(text, byte)?, place)));
    }
    let right = Side::Quoted(text);
    match place {
        Place::First => Ok(Next::Inside(Inner::HasTerm(right))),
        Place::Second(left, comparison) => {
            Ok(Next::Ended(Draft::test(alloc, left, comparison, right)?))
        }
    }
}

pub(crate) fn finish_word(alloc: Global, word: Bytes, place: Place) -> Result<Option<Draft>, Memory>
    ensures { IfOk result (λ said. said ≡ stop (inside.InWord word place)) }
{
    match place {
        Place::First => match literal_of(word.as_slice()) {
            None => Ok(None),
            Some(value) => Ok(Some(Draft::literal(alloc, value)?)),
        },
        Place::Second(left, comparison) => {
            let right = Side::Word(word);
            Ok(Some(Draft::test(alloc, left, comparison, right)?))
        }
    }
}
