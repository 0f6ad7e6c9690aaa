//! What a byte makes of an operand that has begun.

ghost use Rattle.std.specs.Prelude.{◌≡◌, ◌<◌, ◌++◌, ◌∷◌, [], IfOk};
ghost use Rattle.depends_expr.specs.Inside.Operands.{on_name, on_result, spelled, words};

use crate::operands::Inner;
use crate::spelling::{begins_outcome, outcome_of};
use crate::steps::Draft;
use base_types::limits::LONGEST_NAME;
use base_types::{Bytes, Memory, Text, is_name_byte};
use connectives::Next;
use std::alloc::Global;

// The text of one ASCII byte more.
pub(crate) fn with_byte(text: Text, byte: u8) -> Result<Text, Memory>
    requires { byte < 128 }
    ensures { IfOk result (λ longer. longer ≡ text ++ byte ∷ []) }
{
    let mut string = text.into_string()?;
    string.push(byte as char)?;
    Ok(Text::from_string(string)?)
}

pub(crate) fn in_name(alloc: Global, byte: u8, name: Text) -> Result<Next<Draft, Inner>, Memory>
    ensures { IfOk result (λ next. next ≡ on_name name byte) }
{
    if is_name_byte(byte) {
        if name.len() < LONGEST_NAME {
            Ok(Next::Inside(Inner::InName(with_byte(name, byte)?)))
        } else {
            Ok(Next::Stuck)
        }
    } else if byte == b'.' {
        Ok(Next::Inside(Inner::InResult(name, Bytes::new(alloc))))
    } else {
        Ok(Next::Before(Draft::bare(alloc, name)?))
    }
}

pub(crate) fn in_result(
    alloc: Global,
    byte: u8,
    name: Text,
    part: Bytes,
) -> Result<Next<Draft, Inner>, Memory>
    ensures { IfOk result (λ next. next ≡ on_result (spelled (part ++ byte ∷ []) words) name (part ++ byte ∷ [])) }
{
    let mut part = part;
    part.push(byte)?;
    match outcome_of(part.as_slice()) {
        Some(outcome) => Ok(Next::Ended(Draft::has(alloc, name, outcome)?)),
        None => {
            if begins_outcome(part.as_slice()) {
                Ok(Next::Inside(Inner::InResult(name, part)))
            } else {
                Ok(Next::Stuck)
            }
        }
    }
}
