//! A walk over places, from each to those that it waits for, which puts them in order or meets a circle. What is open
//! is kept in a list, so that no chain of tasks, however long, makes a recursion.

ghost use Rattle.std.specs.Prelude.{◌≡◌, ◌≢◌, ◌∷◌, ◌++◌, ℕ, ◌<◌, ◌≤◌, ◌-◌, [], length, take, replicate, slice_index, slice_set, vec_len, IfOk, OnOk};
ghost use Rattle.std.specs.List.{All};
ghost use Rattle.task_order.specs.Orders.{AreWithin, Reaches};
ghost use Rattle.task_order.specs.Inside.Walks.{stage, IsSound, Goes, Ends};

use crate::stage::Stage;
use base_types::{List, Memory};
use std::alloc::Global;

/// How far each place has come, how many places of its row were passed, the places in order, and those that are open.
#[derive(Drop)]
pub(crate) struct Walk {
    pub(crate) stages: Vec<Stage>,
    pub(crate) passed: Vec<usize>,
    pub(crate) order: Vec<usize>,
    pub(crate) trail: Vec<usize>,
}

impl Walk {
    pub(crate) fn new(alloc: Global, size: usize) -> Result<Walk, Memory>
        ensures stages { IfOk result (λ walk. walk.stages.items ≡ replicate size Stage.New) }
        ensures passed { IfOk result (λ walk. walk.passed.items ≡ replicate size 0) }
        ensures order { IfOk result (λ walk. walk.order.items ≡ []) }
        ensures trail { IfOk result (λ walk. walk.trail.items ≡ []) }
    {
        let mut stages = Vec::with_capacity(alloc, size)?;
        let mut passed = Vec::with_capacity(alloc, size)?;
        for _ in 0..size {
            stages.push(Stage::New)?;
            passed.push(0)?;
        }
        Ok(Walk {
            stages,
            passed,
            order: Vec::new(alloc),
            trail: Vec::new(alloc),
        })
    }

    pub(crate) fn begin(&mut self, place: usize) -> Result<(), Memory>
        requires { place < vec_len self.old.stages }
        ensures stages { OnOk result (self.new.stages.items ≡ slice_set self.old.stages.items place Stage.Open) }
        ensures trail { OnOk result (self.new.trail.items ≡ self.old.trail.items ++ place ∷ []) }
        ensures passed { OnOk result (self.new.passed.items ≡ self.old.passed.items) }
        ensures order { OnOk result (self.new.order.items ≡ self.old.order.items) }
    {
        self.stages[place] = Stage::Open;
        self.trail.push(place)?;
        Ok(())
    }

    // The place that was opened last is done.
    fn finish(&mut self, place: usize) -> Result<(), Memory>
        requires { place < vec_len self.old.stages }
        ensures stages { OnOk result (self.new.stages.items ≡ slice_set self.old.stages.items place Stage.Done) }
        ensures trail { OnOk result
            (self.new.trail.items ≡ take (length self.old.trail.items - 1) self.old.trail.items) }
        ensures passed { OnOk result (self.new.passed.items ≡ self.old.passed.items) }
        ensures order { OnOk result (self.new.order.items ≡ self.old.order.items ++ place ∷ []) }
    {
        self.stages[place] = Stage::Done;
        self.order.push(place)?;
        self.trail.pop();
        Ok(())
    }

    // One step from the place that was opened last; false where it waits for an open one.
    fn step(&mut self, waits: &[List<usize>]) -> Result<bool, Memory>
        requires within { AreWithin waits.now }
        requires sound { IsSound waits.now self.old }
        requires some { 0 < length self.old.trail.items }
        ensures { IfOk result (Goes waits.now self.old self.new) }
    {
        let place = self.trail[self.trail.len() - 1];
        let row = waits[place].as_slice();
        let next = first_left(row, self.stages.as_slice(), self.passed[place]);
        self.passed[place] = next;
        if next == row.len() {
            self.finish(place)?;
            return Ok(true);
        }
        let wanted = row[next];
        if self.stages[wanted].is_new() {
            self.begin(wanted)?;
            Ok(true)
        } else {
            Ok(false)
        }
    }

    /// Goes on until no place is open; false where a circle was met.
    pub(crate) fn run(&mut self, waits: &[List<usize>]) -> Result<bool, Memory>
        requires within { AreWithin waits.now }
        requires sound { IsSound waits.now self.old }
        ensures { IfOk result (Ends waits.now self.old self.new) }
    {
        'steps: while !self.trail.is_empty() {
            if !self.step(waits)? {
                return Ok(false);
            }
        }
        Ok(true)
    }
}

// The first position, from one on, whose place is not done; the length where all are.
fn first_left(row: &[usize], stages: &[Stage], from: usize) -> usize
    requires from { from ≤ length row.now }
    requires within { All (λ v. v < length stages.now) row.now }
    ensures low { from ≤ result }
    ensures high { result ≤ length row.now }
    ensures passed { (k : ℕ) → from ≤ k → k < result → stage stages.now (slice_index row.now k) ≡ Stage.Done }
    ensures left { result < length row.now → stage stages.now (slice_index row.now result) ≢ Stage.Done }
{
    for k in from..row.len() {
        if !stages[row[k]].is_done() {
            return k;
        }
    }
    row.len()
}
