//! The evaluation of steps in postfix order, over a stack whose room the grammar's nesting bounds.

ghost use Rattle.std.specs.Prelude.{◌≡◌, ◌<◌, length, IsTrue, [], ◌∷◌};
ghost use Rattle.std.specs.List.{list_all};
ghost use Rattle.depends_expr.specs.Truth.{holds, bare_holds};
ghost use Rattle.depends_expr.specs.Inside.Postfix.{word_of};
ghost use Rattle.depends_expr.specs.Inside.View.{is_position_below};
ghost use Rattle.depends_expr.specs.Inside.Values.{value_of, values, top_value, has_room, values_after, fits, result_at};

use crate::TaskResult;
use crate::steps::{Outcome, Step};
use arrayvec::ArrayVec;
use std::marker::Model;

/// How many values wait at most: two for each level of the 64, and three.
const ROOM: usize = 131;

// Values that wait, seen with the latest first.
#[derive(Drop)]
struct Stack {
    values: ArrayVec<bool, ROOM>,
}

impl Model for Stack {
    ghost use Rattle.std.specs.Prelude.{List as Seq, Bool, reverse};

    ghost Value = { Seq Bool };

    ghost view = { λ a. reverse a.values.items };
}

impl Stack {
    fn new() -> Stack
        ensures { result ≡ [] }
    {
        Stack {
            values: ArrayVec::new(),
        }
    }

    fn push(&mut self, value: bool)
        requires { length self.old < 131 }
        ensures { self.new ≡ value ∷ self.old }
    {
        self.values.push(value);
    }

    fn pop(&mut self) -> bool
        requires { 0 < length self.old }
        ensures { self.old ≡ result ∷ self.new }
    {
        match self.values.pop() {
            Some(value) => value,
            None => unreachable!(),
        }
    }

    // The latest value, or false where there is none.
    fn last(&mut self) -> bool
        ensures { result ≡ top_value self.old }
    {
        self.values.pop().unwrap_or(false)
    }
}

// A task is never daemoned here.
fn has_outcome(task: &TaskResult, outcome: Outcome) -> bool
    ensures { result ≡ holds task.now (word_of outcome) }
{
    match outcome {
        Outcome::Succeeded => task.succeeded,
        Outcome::Failed => task.failed,
        Outcome::Errored => task.errored,
        Outcome::Skipped => task.skipped,
        Outcome::Omitted => task.omitted,
        Outcome::Daemoned => false,
        Outcome::AnySucceeded => task.any_succeeded,
        Outcome::AllFailed => task.all_failed,
    }
}

fn has_ended_well(task: &TaskResult) -> bool
    ensures { result ≡ bare_holds task.now }
{
    has_outcome(task, Outcome::Succeeded)
        || has_outcome(task, Outcome::Skipped)
        || has_outcome(task, Outcome::Daemoned)
}

#[tactic(auto, using(crate::proofs::Evaluations::result_got))]
fn task_at(results: &[TaskResult], position: usize) -> &TaskResult
    requires { position < length results.now }
    ensures { result_at results.now position ≡ result.now }
{
    &results[position]
}

fn take_step(values: &mut Stack, step: &Step<usize>, results: &[TaskResult])
    requires position { IsTrue (is_position_below (length results.now) step.now) }
    requires room { IsTrue (has_room (length values.old) step.now) }
    ensures values { values.new ≡ value_of results.now step.now values.old }
    ensures count { length values.new ≡ values_after (length values.old) step.now }
{
    match step {
        Step::Bare(position) => values.push(has_ended_well(task_at(results, *position))),
        Step::Has(position, outcome) => {
            values.push(has_outcome(task_at(results, *position), *outcome));
        }
        Step::Not => {
            let value = values.pop();
            values.push(!value);
        }
        Step::And => {
            let right = values.pop();
            let left = values.pop();
            values.push(left & right);
        }
        Step::Or => {
            let right = values.pop();
            let left = values.pop();
            values.push(left | right);
        }
    }
}

pub(crate) fn evaluate(steps: &[Step<usize>], results: &[TaskResult]) -> bool
    requires positions { IsTrue (list_all (is_position_below (length results.now)) steps.now) }
    requires room { IsTrue (fits 0 steps.now) }
    ensures { result ≡ top_value (values results.now steps.now []) }
{
    let mut values = Stack::new();
    for step in steps {
        take_step(&mut values, step, results);
    }
    values.last()
}
