//! Expressions in postfix order, each connective behind its operands: so no chain of `&&` or `||`, however long, makes a
//! recursion.

ghost use Rattle.std.specs.Prelude.{◌≡◌, ◌++◌, ◌∷◌, [], IfOk};
ghost use Rattle.depends_expr.specs.Expression.{bare, has};
ghost use Rattle.depends_expr.specs.Grammar.{spelling};
ghost use Rattle.depends_expr.specs.Inside.Postfix.{word_of};

use base_types::{Memory, Text, TryCopy};
use std::alloc::Global;
use std::marker::Model;

/// A result that an expression can ask for.
#[derive(Clone, Copy, Debug, PartialEq, Eq)]
pub(crate) enum Outcome {
    Succeeded,
    Failed,
    Errored,
    Skipped,
    Omitted,
    Daemoned,
    AnySucceeded,
    AllFailed,
}

/// All of them.
pub(crate) const OUTCOMES: [Outcome; 8] = [
    Outcome::Succeeded,
    Outcome::Failed,
    Outcome::Errored,
    Outcome::Skipped,
    Outcome::Omitted,
    Outcome::Daemoned,
    Outcome::AnySucceeded,
    Outcome::AllFailed,
];

impl Outcome {
    /// As it is written.
    pub(crate) fn text(self) -> &'static [u8]
        ensures { result.now ≡ spelling (word_of self) }
    {
        match self {
            Outcome::Succeeded => b"Succeeded",
            Outcome::Failed => b"Failed",
            Outcome::Errored => b"Errored",
            Outcome::Skipped => b"Skipped",
            Outcome::Omitted => b"Omitted",
            Outcome::Daemoned => b"Daemoned",
            Outcome::AnySucceeded => b"AnySucceeded",
            Outcome::AllFailed => b"AllFailed",
        }
    }
}

/// A step of an expression in postfix order, which names a task by an `N`.
#[derive(Debug, Drop)]
pub(crate) enum Step<N> {
    Bare(N),
    Has(N, Outcome),
    Not,
    And,
    Or,
}

impl TryCopy for Step<usize> {
    fn copy(&self) -> Result<Step<usize>, Memory> {
        match self {
            Step::Bare(name) => Ok(Step::Bare(*name)),
            Step::Has(name, outcome) => Ok(Step::Has(*name, *outcome)),
            Step::Not => Ok(Step::Not),
            Step::And => Ok(Step::And),
            Step::Or => Ok(Step::Or),
        }
    }
}

/// An expression while its text is read.
#[derive(Drop)]
pub(crate) struct Draft {
    pub(crate) steps: Vec<Step<Text>>,
}

impl Model for Draft {
    ghost use Rattle.std.specs.Prelude.{◌≡◌};
    ghost use Rattle.depends_expr.specs.Expression.{Expression, expression_code};

    ghost Value = { Expression };

    ghost coded = { expression_code };

    ghost use Rattle.depends_expr.specs.Inside.Postfix.{postfix, expression_of};

    ghost view = { λ a. expression_of a.steps.items };

    ghost invariant = { λ a. a.steps.items ≡ postfix (expression_of a.steps.items) };
}

impl Draft {
    pub(crate) fn bare(alloc: Global, name: Text) -> Result<Draft, Memory>
        ensures { IfOk result (λ draft. draft ≡ bare name) }
    {
        let mut steps = Vec::new(alloc);
        steps.push(Step::Bare(name))?;
        Ok(Draft { steps })
    }

    pub(crate) fn has(alloc: Global, name: Text, outcome: Outcome) -> Result<Draft, Memory>
        ensures { IfOk result (λ draft. draft ≡ has name (word_of outcome)) }
    {
        let mut steps = Vec::new(alloc);
        steps.push(Step::Has(name, outcome))?;
        Ok(Draft { steps })
    }
}

impl connectives::Draft for Draft {
    ghost use Rattle.depends_expr.specs.Grammar.{depends_joins};

    ghost joins = { depends_joins };

    #[tactic(auto, using(crate::proofs::Postfixes::negation_steps))]
    fn negated(self) -> Result<Draft, Memory> {
        let mut steps = self.steps;
        steps.push(Step::Not)?;
        Ok(Draft { steps })
    }

    #[tactic(auto, using(crate::proofs::Postfixes::both_steps))]
    fn all_of(self, right: Draft) -> Result<Draft, Memory> {
        let steps = joined(self.steps, right.steps, Step::And)?;
        Ok(Draft { steps })
    }

    #[tactic(auto, using(crate::proofs::Postfixes::either_steps))]
    fn any_of(self, right: Draft) -> Result<Draft, Memory> {
        let steps = joined(self.steps, right.steps, Step::Or)?;
        Ok(Draft { steps })
    }
}

// Steps, more steps, and a last one.
fn joined(
    left: Vec<Step<Text>>,
    right: Vec<Step<Text>>,
    last: Step<Text>,
) -> Result<Vec<Step<Text>>, Memory>
    ensures { IfOk result (λ steps. steps.items ≡ left.items ++ (right.items ++ last ∷ [])) }
{
    let mut steps = left;
    let mut more = right;
    steps.append(&mut more)?;
    steps.push(last)?;
    Ok(steps)
}
