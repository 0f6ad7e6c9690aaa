//! What a task's `depends` says.

ghost use Rattle.std.specs.Prelude.{◌≡◌, ◌≢◌, ℕ, ◌<◌, ◌≤◌, List as Seq, length, map, IfOk, IfErr, Some, slice_get};
ghost use Rattle.depends_expr.specs.declared.results.TaskResult.{TaskResult as Results};
ghost use Rattle.depends_expr.specs.declared.refused.DependsRefused.TheVariants as refused;
ghost use Rattle.depends_expr.specs.Truth.{truth, names_of};
ghost use Rattle.connectives.specs.Grammar.{IsBadAt};
ghost use Rattle.depends_expr.specs.Grammar.{IsDepends, depends_language};
ghost use Rattle.depends_expr.specs.Inside.View.{peak};

use crate::evaluation::evaluate;
use crate::numbering::number;
use crate::operands::Inner;
use crate::steps::{Draft, Step};
use crate::{DependsRefused, TaskResult};
use base_types::{List, Memory, Names, TryCopy};
use connectives::read;
use std::alloc::Global;
use std::marker::Model;

/// An expression over the results of tasks, and the names of these tasks.
#[derive(Debug, Drop)]
pub struct Depends {
    names: Names,
    steps: List<Step<usize>>,
}

impl Model for Depends {
    ghost use Rattle.depends_expr.specs.Expression.{Expression, expression_code};

    ghost Value = { Expression };

    ghost coded = { expression_code };

    ghost use Rattle.depends_expr.specs.Inside.View.{named_expression, IsWhole};

    ghost view = { λ a. named_expression a.names a.steps };

    ghost invariant = { λ a. IsWhole a.names a.steps };
}

impl TryCopy for Depends {
    fn copy(&self) -> Result<Depends, Memory> {
        Ok(Depends {
            names: self.names.copy()?,
            steps: self.steps.copy()?,
        })
    }
}

impl Depends {
    #[tactic(auto, using(crate::proofs::Numberings::numbers_whole))]
    fn from_draft(alloc: Global, draft: Draft) -> Result<Depends, Memory>
        requires { peak draft ≤ 131 }
        ensures { IfOk result (λ depends. depends ≡ draft) }
    {
        let (table, steps) = number(alloc, draft.steps.as_slice())?;
        let names = table.names(alloc)?;
        Ok(Depends { names, steps })
    }

    /// How many tasks it names.
    pub fn names(&self) -> usize
        ensures { result ≡ length (names_of self.now) }
    {
        self.names.len()
    }

    /// The name at a position from 0. Each stands once, by the first place at which it is named.
    pub fn name(&self, position: usize) -> &str
        requires { position < length (names_of self.now) }
        ensures { slice_get (names_of self.now) position ≡ Some result.now }
    {
        self.names.get(position).as_str()
    }
}

/// Reads a `depends`. Chains of `&&` and of `||` are nested to the left.
#[tactic(auto, using(crate::proofs::OperandFacts::meant, crate::proofs::OperandFacts::bad))]
pub fn parse_depends(alloc: Global, text: &str) -> Result<Depends, DependsRefused>
    // What is read is of the grammar, and says what the text says.
    ensures ok { IfOk result (λ depends. IsDepends text.now depends) }
    // A text is refused where it is not of the grammar, at its fault, or where there is no memory.
    ensures bad { IfErr result (λ e. e ≢ refused.Memory →
        (place : ℕ) × (e ≡ refused.Bad place) × IsBadAt depends_language text.now place) }
{
    match read::<Draft, Inner>(alloc, text.as_bytes())? {
        Ok(draft) => Ok(Depends::from_draft(alloc, draft)?),
        Err(place) => Err(DependsRefused::Bad { place }),
    }
}

/// Whether the expression is true, where the results are those of the tasks that it names, in the order of the names.
#[tactic(auto, using(crate::proofs::Evaluations::whole_value, crate::proofs::Evaluations::whole_fits))]
pub fn eval(depends: &Depends, results: &[TaskResult]) -> bool
    requires { length results.now ≡ length (names_of depends.now) }
    // whatever gives each name its result
    ensures { (of : Seq ℕ → Results) →
        map of (names_of depends.now) ≡ results.now → result ≡ truth of depends.now }
{
    evaluate(depends.steps.as_slice(), results)
}
