//! How a language reads its operands.

ghost use Rattle.std.specs.Prelude.{◌≡◌, IfOk};
ghost use Rattle.connectives.specs.Reading.{Machine};

use crate::state::Next;
use base_types::Memory;
use std::alloc::Global;

/// What is open inside an operand, of a language whose texts say a `D`.
pub trait Operand<D>: Drop {
    ghost machine: { Machine D Self };

    /// Begins an operand by a byte that is neither space nor connective.
    fn begin(alloc: Global, byte: u8) -> Result<Option<Self>, Memory>
        ensures { IfOk result (λ inner. inner ≡ machine.begin byte) };

    fn go_on(self, alloc: Global, byte: u8) -> Result<Next<D, Self>, Memory>
        ensures { IfOk result (λ next. next ≡ machine.go_on self byte) };

    /// The operand of a text that ends here.
    fn stop(self, alloc: Global) -> Result<Option<D>, Memory>
        ensures { IfOk result (λ said. said ≡ machine.stop self) };
}
