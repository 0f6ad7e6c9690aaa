//! What a task's `depends` says, as a grammar.

ghost use Rattle.std.specs.Prelude.{◌≡◌};
ghost use Rattle.depends_expr.specs.Meaning.{depends_of};

use base_types::Memory;
use depends_expr::{Depends, DependsRefused, parse_depends};
use field_kinds::Grammar;
use std::alloc::Global;

/// The grammar of what tasks depend on.
#[derive(Drop)]
pub struct DependsText;

impl Grammar for DependsText {
    type Meaning = Depends;

    ghost meaning = { depends_of };

    fn read(alloc: Global, text: &str) -> Result<Option<Depends>, Memory> {
        match parse_depends(alloc, text) {
            Ok(depends) => Ok(Some(depends)),
            Err(DependsRefused::Memory) => Err(Memory),
            Err(DependsRefused::Bad { .. }) => Ok(None),
        }
    }
}
