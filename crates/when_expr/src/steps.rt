//! Conditions in postfix order, each connective behind its operands: so no chain of `&&` or `||`, however long, makes a
//! recursion.

ghost use Rattle.std.specs.Prelude.{◌≡◌, ◌++◌, ◌∷◌, [], IfOk};
ghost use Rattle.when_expr.specs.Expression.{literal, test};
ghost use Rattle.when_expr.specs.Inside.Postfix.{term_of, order_of};

use base_types::{Bytes, Memory, TryCopy};
use std::alloc::Global;
use std::marker::Model;

/// How a test compares its sides.
#[derive(Clone, Copy, Debug, PartialEq, Eq)]
pub(crate) enum Comparison {
    Equal,
    Unequal,
    Below,
    AtMost,
    Above,
    AtLeast,
}

/// A side of a test.
#[derive(Debug, Drop)]
pub(crate) enum Side {
    Quoted(Bytes),
    Word(Bytes),
}

fn copy_of(bytes: &Bytes) -> Result<Bytes, Memory>
    ensures { IfOk result (λ copy. copy ≡ bytes.now) }
{
    Bytes::from_slice(bytes.allocator(), bytes.as_slice())
}

impl TryCopy for Side {
    fn copy(&self) -> Result<Side, Memory> {
        match self {
            Side::Quoted(text) => Ok(Side::Quoted(copy_of(text)?)),
            Side::Word(text) => Ok(Side::Word(copy_of(text)?)),
        }
    }
}

/// A step of a condition in postfix order.
#[derive(Debug, Drop)]
pub(crate) enum Step {
    Literal(bool),
    Test(Side, Comparison, Side),
    Not,
    And,
    Or,
}

impl TryCopy for Step {
    fn copy(&self) -> Result<Step, Memory> {
        match self {
            Step::Literal(value) => Ok(Step::Literal(*value)),
            Step::Test(left, comparison, right) => {
                Ok(Step::Test(left.copy()?, *comparison, right.copy()?))
            }
            Step::Not => Ok(Step::Not),
            Step::And => Ok(Step::And),
            Step::Or => Ok(Step::Or),
        }
    }
}

/// A condition while its text is read.
#[derive(Drop)]
pub(crate) struct Draft {
    pub(crate) steps: Vec<Step>,
}

impl Model for Draft {
    ghost use Rattle.std.specs.Prelude.{◌≡◌};
    ghost use Rattle.when_expr.specs.Expression.{Condition, condition_code};

    ghost Value = { Condition };

    ghost coded = { condition_code };

    ghost use Rattle.when_expr.specs.Inside.Postfix.{postfix, condition_of};

    ghost view = { λ a. condition_of a.steps.items };

    ghost invariant = { λ a. a.steps.items ≡ postfix (condition_of a.steps.items) };
}

impl Draft {
    pub(crate) fn literal(alloc: Global, value: bool) -> Result<Draft, Memory>
        ensures { IfOk result (λ draft. draft ≡ literal value) }
    {
        let mut steps = Vec::new(alloc);
        steps.push(Step::Literal(value))?;
        Ok(Draft { steps })
    }

    #[tactic(auto, using(crate::proofs::Postfixes::test_steps))]
    pub(crate) fn test(
        alloc: Global,
        left: Side,
        comparison: Comparison,
        right: Side,
    ) -> Result<Draft, Memory>
        ensures { IfOk result (λ draft. draft ≡ test (term_of left) (order_of comparison) (term_of right)) }
    {
        let mut steps = Vec::new(alloc);
        steps.push(Step::Test(left, comparison, right))?;
        Ok(Draft { steps })
    }
}

impl connectives::Draft for Draft {
    ghost use Rattle.when_expr.specs.Grammar.{when_joins};

    ghost joins = { when_joins };

    #[tactic(auto, using(crate::proofs::Postfixes::negated_steps))]
    fn negated(self) -> Result<Draft, Memory> {
        let mut steps = self.steps;
        steps.push(Step::Not)?;
        Ok(Draft { steps })
    }

    #[tactic(auto, using(crate::proofs::Postfixes::all_steps))]
    fn all_of(self, right: Draft) -> Result<Draft, Memory> {
        let steps = joined(self.steps, right.steps, Step::And)?;
        Ok(Draft { steps })
    }

    #[tactic(auto, using(crate::proofs::Postfixes::any_steps))]
    fn any_of(self, right: Draft) -> Result<Draft, Memory> {
        let steps = joined(self.steps, right.steps, Step::Or)?;
        Ok(Draft { steps })
    }
}

// Steps, more steps, and a last one.
fn joined(left: Vec<Step>, right: Vec<Step>, last: Step) -> Result<Vec<Step>, Memory>
    ensures { IfOk result (λ steps. steps.items ≡ left.items ++ (right.items ++ last ∷ [])) }
{
    let mut steps = left;
    let mut more = right;
    steps.append(&mut more)?;
    steps.push(last)?;
    Ok(steps)
}
