//! Steps whose names are replaced by positions in a list of names.

ghost use Rattle.std.specs.Prelude.{◌≡◌, IfOk, OnOk};
ghost use Rattle.depends_expr.specs.Inside.Numbering.{NumbersStep, Numbers};

use crate::names::NameTable;
use crate::steps::Step;
use base_types::{List, Memory, Text, TryCopy};
use std::alloc::Global;

fn number_step(table: &mut NameTable, step: &Step<Text>) -> Result<Step<usize>, Memory>
    ensures { IfOk result (λ numbered. NumbersStep table.old table.new numbered step.now) }
{
    match step {
        Step::Bare(name) => Ok(Step::Bare(table.position(name.copy()?)?)),
        Step::Has(name, outcome) => Ok(Step::Has(table.position(name.copy()?)?, *outcome)),
        Step::Not => Ok(Step::Not),
        Step::And => Ok(Step::And),
        Step::Or => Ok(Step::Or),
    }
}

/// The steps with positions, and the names.
pub(crate) fn number(
    alloc: Global,
    steps: &[Step<Text>],
) -> Result<(NameTable, List<Step<usize>>), Memory>
    ensures { IfOk result (λ numbered. Numbers numbered.0 numbered.1 steps.now) }
{
    let mut table = NameTable::new(alloc);
    let mut numbered = List::with_capacity(alloc, steps.len())?;
    for step in steps {
        numbered.push(number_step(&mut table, step)?)?;
    }
    Ok((table, numbered))
}
