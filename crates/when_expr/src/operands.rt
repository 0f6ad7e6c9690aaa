//! The reading of an operand of a `when`: a test of two terms, or a literal.

use crate::following::{
    after_quote, after_term, after_word, before_first, before_second, finish_word, in_order,
    term_literal,
};
use crate::inner::Inner;
use crate::steps::Draft;
use base_types::Memory;
use connectives::{Next, Operand};
use std::alloc::Global;

impl Operand<Draft> for Inner {
    ghost use Rattle.when_expr.specs.Inside.Operands.{when_machine};

    ghost machine = { when_machine };

    fn begin(alloc: Global, byte: u8) -> Result<Option<Inner>, Memory> {
        before_first(alloc, byte)
    }

    fn go_on(self, alloc: Global, byte: u8) -> Result<Next<Draft, Inner>, Memory> {
        match self {
            Inner::InQuote(quote, text, place) => after_quote(alloc, byte, quote, text, place),
            Inner::InWord(word, place) => after_word(alloc, byte, word, place),
            Inner::HasTerm(side) => after_term(alloc, byte, side),
            Inner::InOrder(mark, left) => in_order(alloc, byte, mark, left),
            Inner::WantsTerm(left, comparison) => before_second(alloc, byte, left, comparison),
        }
    }

    fn stop(self, alloc: Global) -> Result<Option<Draft>, Memory> {
        match self {
            Inner::InWord(word, place) => finish_word(alloc, word, place),
            Inner::HasTerm(side) => match term_literal(&side) {
                None => Ok(None),
                Some(value) => Ok(Some(Draft::literal(alloc, value)?)),
            },
            Inner::InQuote(_, _, _) | Inner::InOrder(_, _) | Inner::WantsTerm(_, _) => Ok(None),
        }
    }
}
