//! What tasks see of each other.

ghost use Rattle.std.specs.Prelude.{◌≡◌, ◌<◌, length, map, get_or, IfOk};
ghost use Rattle.std.specs.List.{All, list_all};
ghost use Rattle.tree_types.specs.Phases.{worst_of};
ghost use Rattle.dag_template.specs.Stands as spec;

use base_types::{List, Memory};
use depends_expr::TaskResult;
use std::alloc::Global;
use tree_types::{Phase, worst};

/// What others see of how a task stands: whether it exists, whether it is Omitted, whether it may begin, whether it is over,
/// its branch phase and its results.
#[derive(Clone, Copy, Debug)]
pub struct Stand {
    pub existing: bool,
    pub denied: bool,
    pub ready: bool,
    pub over: bool,
    pub branch: Phase,
    pub result: TaskResult,
}

/// A task that waits, or is none.
pub fn waiting() -> Stand
    ensures { result ≡ spec.waits }
{
    Stand {
        existing: false,
        denied: false,
        ready: false,
        over: false,
        branch: Phase::Succeeded,
        result: TaskResult {
            succeeded: false,
            failed: false,
            errored: false,
            skipped: false,
            omitted: false,
            any_succeeded: false,
            all_failed: false,
        },
    }
}

/// How the tasks at these positions stand.
pub fn stands_at(alloc: Global, stands: &[Stand], places: &[usize]) -> Result<List<Stand>, Memory>
    requires { All (λ p. p < length stands.now) places.now }
    ensures { IfOk result (λ found. found ≡ map (λ p. get_or stands.now p spec.waits) places.now) }
{
    let mut found = List::with_capacity(alloc, places.len())?;
    for i in 0..places.len() {
        found.push(stands[places[i]])?;
    }
    Ok(found)
}

pub(crate) fn are_over(stands: &[Stand]) -> bool
    ensures { result ≡ list_all (λ s. s.over) stands.now }
{
    for i in 0..stands.len() {
        if !stands[i].over {
            return false;
        }
    }
    true
}

pub(crate) fn worst_branch(stands: &[Stand]) -> Phase
    ensures { result ≡ worst_of (map (λ s. s.branch) stands.now) }
{
    let mut phase = Phase::Succeeded;
    let mut left = stands.len();
    while left > 0 {
        left -= 1;
        phase = worst(stands[left].branch, phase);
    }
    phase
}

pub(crate) fn results_of(alloc: Global, stands: &[Stand]) -> Result<List<TaskResult>, Memory>
    ensures { IfOk result (λ results. results ≡ map (λ s. s.result) stands.now) }
{
    let mut results = List::new(alloc);
    for i in 0..stands.len() {
        results.push(stands[i].result)?;
    }
    Ok(results)
}
