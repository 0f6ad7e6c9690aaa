//! The evaluation of steps in postfix order, over a stack whose room the grammar's nesting bounds.

ghost use Rattle.std.specs.Prelude.{◌≡◌, ◌<◌, length, IsTrue, [], ◌∷◌};
ghost use Rattle.when_expr.specs.Truth.{term_number, term_text, numbers, same, is_in_order, test_truth, not_then, and_then, or_then};
ghost use Rattle.when_expr.specs.Inside.Postfix.{term_of, order_of};
ghost use Rattle.when_expr.specs.Inside.Values.{value_of, values, top_value, has_room, values_after, fits};

use crate::number::number_of;
use crate::steps::{Comparison, Side, Step};
use arrayvec::ArrayVec;
use std::marker::Model;

/// How many values wait at most: two for each level of the 64, and three.
const ROOM: usize = 131;

// Values that wait, seen with the latest first. None is that of a test whose sides are not numbers.
#[derive(Drop)]
struct Stack {
    values: ArrayVec<Option<bool>, ROOM>,
}

impl Model for Stack {
    ghost use Rattle.std.specs.Prelude.{List as Seq, Bool, Option, reverse};

    ghost Value = { Seq (Option Bool) };

    ghost view = { λ a. reverse a.values.items };
}

impl Stack {
    fn new() -> Stack
        ensures { result ≡ [] }
    {
        Stack {
            values: ArrayVec::new(),
        }
    }

    fn push(&mut self, value: Option<bool>)
        requires { length self.old < 131 }
        ensures { self.new ≡ value ∷ self.old }
    {
        self.values.push(value);
    }

    fn pop(&mut self) -> Option<bool>
        requires { 0 < length self.old }
        ensures { self.old ≡ result ∷ self.new }
    {
        match self.values.pop() {
            Some(value) => value,
            None => unreachable!(),
        }
    }

    // The latest value, or none.
    fn last(&mut self) -> Option<bool>
        ensures { result ≡ top_value self.old }
    {
        match self.values.pop() {
            Some(value) => value,
            None => None,
        }
    }
}

// Quoted text is never a number.
fn side_number(side: &Side) -> Option<u64>
    ensures { result ≡ term_number (term_of side.now) }
{
    match side {
        Side::Quoted(_) => None,
        Side::Word(text) => number_of(text.as_slice()),
    }
}

fn side_text(side: &Side) -> &[u8]
    ensures { result.now ≡ term_text (term_of side.now) }
{
    match side {
        Side::Quoted(text) => text.as_slice(),
        Side::Word(text) => text.as_slice(),
    }
}

fn both_numbers(left: &Side, right: &Side) -> Option<(u64, u64)>
    ensures { result ≡ numbers (term_of left.now) (term_of right.now) }
{
    match side_number(left) {
        None => None,
        Some(a) => match side_number(right) {
            None => None,
            Some(b) => Some((a, b)),
        },
    }
}

fn is_same(left: &Side, right: &Side) -> bool
    ensures { result ≡ same (term_of left.now) (term_of right.now) }
{
    match both_numbers(left, right) {
        Some((a, b)) => a == b,
        None => side_text(left) == side_text(right),
    }
}

fn compared(numbers: (u64, u64), comparison: Comparison) -> bool
    ensures { result ≡ is_in_order (order_of comparison) numbers.0 numbers.1 }
{
    let (a, b) = numbers;
    match comparison {
        Comparison::Equal | Comparison::Unequal => false,
        Comparison::Below => a < b,
        Comparison::AtMost => a <= b,
        Comparison::Above => b < a,
        Comparison::AtLeast => b <= a,
    }
}

fn test_value(left: &Side, comparison: Comparison, right: &Side) -> Option<bool>
    ensures { result ≡ test_truth (order_of comparison) (term_of left.now) (term_of right.now) }
{
    match comparison {
        Comparison::Equal => Some(is_same(left, right)),
        Comparison::Unequal => Some(!is_same(left, right)),
        Comparison::Below | Comparison::AtMost | Comparison::Above | Comparison::AtLeast =>
            match both_numbers(left, right) {
                None => None,
                Some(numbers) => Some(compared(numbers, comparison)),
            },
    }
}

fn negated(value: Option<bool>) -> Option<bool>
    ensures { result ≡ not_then value }
{
    match value {
        None => None,
        Some(truth) => Some(!truth),
    }
}

// The right value counts only where the left one is true.
fn both(left: Option<bool>, right: Option<bool>) -> Option<bool>
    ensures { result ≡ and_then left right }
{
    match left {
        None => None,
        Some(true) => right,
        Some(false) => Some(false),
    }
}

// The right value counts only where the left one is false.
fn either(left: Option<bool>, right: Option<bool>) -> Option<bool>
    ensures { result ≡ or_then left right }
{
    match left {
        None => None,
        Some(true) => Some(true),
        Some(false) => right,
    }
}

fn take_step(values: &mut Stack, step: &Step)
    requires { IsTrue (has_room (length values.old) step.now) }
    ensures values { values.new ≡ value_of step.now values.old }
    ensures count { length values.new ≡ values_after (length values.old) step.now }
{
    match step {
        Step::Literal(value) => values.push(Some(*value)),
        Step::Test(left, comparison, right) => values.push(test_value(left, *comparison, right)),
        Step::Not => {
            let value = values.pop();
            values.push(negated(value));
        }
        Step::And => {
            let right = values.pop();
            let left = values.pop();
            values.push(both(left, right));
        }
        Step::Or => {
            let right = values.pop();
            let left = values.pop();
            values.push(either(left, right));
        }
    }
}

pub(crate) fn evaluate(steps: &[Step]) -> Option<bool>
    requires { IsTrue (fits 0 steps.now) }
    ensures { result ≡ top_value (values steps.now []) }
{
    let mut values = Stack::new();
    for step in steps {
        take_step(&mut values, step);
    }
    values.last()
}
