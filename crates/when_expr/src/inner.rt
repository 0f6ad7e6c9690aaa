//! What is open inside an operand of a `when`.

use crate::steps::{Comparison, Side};
use base_types::Bytes;

/// What a byte is to operands.
#[derive(Clone, Copy, Debug, PartialEq, Eq)]
pub(crate) enum Letter {
    OfWord,
    Blank,
    Quote,
    Bang,
    Opening,
    /// A sign behind an operand: `)`, `&` or `|`.
    Ending,
    Equals,
    Less,
    Greater,
}

/// The first byte of an order.
#[derive(Clone, Copy, Debug, PartialEq, Eq)]
pub(crate) enum Mark {
    Equals,
    Bang,
    Less,
    Greater,
}

/// Which side of a test is read: the first, or the second of a test so far.
#[derive(Drop)]
pub(crate) enum Place {
    First,
    Second(Side, Comparison),
}

/// What is open inside an operand.
#[derive(Drop)]
pub(crate) enum Inner {
    InQuote(u8, Bytes, Place),
    InWord(Bytes, Place),
    /// Behind a first term.
    HasTerm(Side),
    /// Behind the first byte of an order.
    InOrder(Mark, Side),
    /// The second term is to come.
    WantsTerm(Side, Comparison),
}
