//! The reading of an operand of a `depends`: a name, or a result of it.

use crate::following::{in_name, in_result, with_byte};
use crate::steps::Draft;
use base_types::{Bytes, Memory, Text, is_name_byte};
use connectives::{Next, Operand};
use std::alloc::Global;

/// What is open inside an operand.
#[derive(Drop)]
pub(crate) enum Inner {
    InName(Text),
    /// In the result of a name, behind the dot.
    InResult(Text, Bytes),
}

impl Operand<Draft> for Inner {
    ghost use Rattle.depends_expr.specs.Inside.Operands.{depends_machine};

    ghost machine = { depends_machine };

    fn begin(alloc: Global, byte: u8) -> Result<Option<Inner>, Memory> {
        if is_name_byte(byte) {
            Ok(Some(Inner::InName(with_byte(Text::new(alloc)?, byte)?)))
        } else {
            Ok(None)
        }
    }

    fn go_on(self, alloc: Global, byte: u8) -> Result<Next<Draft, Inner>, Memory> {
        match self {
            Inner::InName(name) => in_name(alloc, byte, name),
            Inner::InResult(name, part) => in_result(alloc, byte, name, part),
        }
    }

    fn stop(self, alloc: Global) -> Result<Option<Draft>, Memory> {
        match self {
            Inner::InName(name) => Ok(Some(Draft::bare(alloc, name)?)),
            Inner::InResult(_, _) => Ok(None),
        }
    }
}
