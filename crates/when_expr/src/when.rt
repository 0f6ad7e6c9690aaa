//! What a `when` says.

ghost use Rattle.std.specs.Prelude.{◌≡◌, ◌≢◌, ℕ, ◌≤◌, Ok, Some, None, Bool, IfOk, IfErr, IsErr};
ghost use Rattle.when_expr.specs.declared.refused.WhenRefused.TheVariants as refused;
ghost use Rattle.connectives.specs.Grammar.{IsBadAt};
ghost use Rattle.when_expr.specs.Grammar.{IsWhen, when_language};
ghost use Rattle.when_expr.specs.Inside.Postfix.{peak};
ghost use Rattle.when_expr.specs.Truth.{truth};

use crate::evaluation::evaluate;
use crate::inner::Inner;
use crate::steps::{Draft, Step};
use crate::{NotNumbers, WhenRefused};
use base_types::{List, Memory, TryCopy};
use connectives::read;
use std::alloc::Global;
use std::marker::Model;

/// A condition.
#[derive(Debug, Drop)]
pub struct When {
    steps: List<Step>,
}

impl Model for When {
    ghost use Rattle.when_expr.specs.Expression.{Condition, condition_code};

    ghost Value = { Condition };

    ghost coded = { condition_code };

    ghost use Rattle.when_expr.specs.Inside.Postfix.{condition_of, IsWhole};

    ghost view = { λ a. condition_of a.steps };

    ghost invariant = { λ a. IsWhole a.steps };
}

impl TryCopy for When {
    fn copy(&self) -> Result<When, Memory> {
        Ok(When {
            steps: self.steps.copy()?,
        })
    }
}

#[tactic(auto, using(crate::proofs::Postfixes::draft_whole))]
fn from_draft(draft: Draft) -> When
    requires { peak draft ≤ 131 }
    ensures { result ≡ draft }
{
    When {
        steps: List::from_vec(draft.steps),
    }
}

/// Reads a `when`. Chains of `&&` and of `||` are nested to the left.
#[tactic(auto, using(crate::proofs::OperandFacts::meant, crate::proofs::OperandFacts::bad))]
pub fn parse_when(alloc: Global, text: &str) -> Result<When, WhenRefused>
    // What is read is of the grammar, and says what the text says.
    ensures ok { IfOk result (λ when. IsWhen text.now when) }
    // A text is refused where it is not of the grammar, at its fault, or where there is no memory.
    ensures bad { IfErr result (λ e. e ≢ refused.Memory →
        (place : ℕ) × (e ≡ refused.Bad place) × IsBadAt when_language text.now place) }
{
    match read::<Draft, Inner>(alloc, text.as_bytes())? {
        Ok(draft) => Ok(from_draft(draft)),
        Err(place) => Err(WhenRefused::Bad { place }),
    }
}

/// The truth of a condition: operands are evaluated from the left, stopping early.
pub fn eval(when: &When) -> Result<bool, NotNumbers>
    ensures ok { (value : Bool) → truth when.now ≡ Some value → result ≡ Ok value }
    // An order test was reached with a side that is not a whole number.
    ensures err { truth when.now ≡ None → IsErr result }
{
    match value_of(when) {
        Some(value) => Ok(value),
        None => Err(NotNumbers),
    }
}

fn value_of(when: &When) -> Option<bool>
    ensures { result ≡ truth when.now }
{
    evaluate(when.steps.as_slice())
}
