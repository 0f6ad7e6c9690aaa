//! What the tasks of a DAG made, found among the calls below its node.

ghost use Rattle.std.specs.Prelude.{◌≡◌, ◌≤◌, ◌+◌, Bool, true, length, slice_get, Some, IfOk, IfSome, option_map};
ghost use Rattle.meaning.specs.declared.lines.Place.{Place};
ghost use Rattle.meaning.specs.Dags.{Standings};
ghost use Rattle.dag_board.specs.Boards.{stood, made_of};
ghost use Rattle.tree_state.specs.Replacing.{call_at};
ghost use Rattle.dag_stays.specs.Over.{StandsOver};
ghost use Rattle.dag_stays.specs.ByTask as spec;

use base_types::{List, Memory, TryCopy};
use std::alloc::Global;
use tree_state::{Shared, State};
use tree_types::Sel;

// Whether a call is the task at a position of a DAG whose path has so many selectors.
fn is_of_task(call: &State, depth: usize, i: usize) -> bool
    ensures { result ≡ spec.is_of_task depth i call.now }
{
    match call.node().path.sels.as_slice().get(depth) {
        Some(Sel::Task(n)) => *n as usize == i,
        _ => false,
    }
}

// Whether a call is a task in front of the one at a position.
fn is_in_front(call: &State, depth: usize, i: usize) -> bool
    ensures { result ≡ spec.is_in_front depth i call.now }
{
    match call.node().path.sels.as_slice().get(depth) {
        Some(Sel::Task(n)) => (*n as usize) < i,
        _ => false,
    }
}

// How many calls may stand up to the task at a position: one for it and for each task before it, but no more than there are nodes.
fn most_up_to(dag: &State, j: usize) -> usize
    ensures low { result ≤ j + 1 }
    ensures bound { spec.IsBound dag.now.parts j result }
{
    let nodes = dag.count() - 1;
    if nodes <= j { nodes } else { j + 1 }
}

/// What the task at position `j` of a DAG made, and where it stands among the calls below the DAG's node. As the calls stand in
/// the order of their tasks, it is looked for where it stands once all tasks before it exist, or the last of them, and then by halves.
pub fn call_of_task(dag: &State, j: u32) -> Option<(usize, &State)>
    ensures call { IfSome result (λ found. call_at dag.now.parts found.0 ≡ Some found.1.now) }
    ensures task { let depth = length dag.now.own.node.path.sels in
        IfSome result (λ found. spec.is_of_task depth j found.1.now ≡ true) }
    ensures made { (doomed : Bool) (place : Place) (ss : Standings) → StandsOver doomed place ss dag.now →
        option_map (λ found. found.1.now) result ≡ made_of (stood ss j) }
{
    let depth = dag.node().path.sels.len();
    let mut low: usize = 0;
    let mut high = most_up_to(dag, j as usize);
    if high > 0 {
        if let Some(call) = dag.call_at(high - 1) {
            if is_of_task(call, depth, j as usize) {
                return Some((high - 1, call));
            }
            if is_in_front(call, depth, j as usize) {
                return None;
            }
        }
    }
    while low < high {
        let middle = low + (high - low) / 2;
        let Some(call) = dag.call_at(middle) else {
            high = middle;
            continue;
        };
        if is_of_task(call, depth, j as usize) {
            return Some((middle, call));
        }
        if is_in_front(call, depth, j as usize) {
            low = middle + 1;
        } else {
            high = middle;
        }
    }
    None
}

// The call at a position, if it is the task.
fn task_at(
    calls: &List<Shared>,
    at: usize,
    depth: usize,
    i: usize,
) -> Result<Option<Shared>, Memory>
    ensures { IfOk result (λ one. one ≡ spec.task_if depth i (slice_get calls.now at)) }
{
    match calls.as_slice().get(at) {
        Some(call) => {
            if is_of_task(call.state(), depth, i) {
                Ok(Some(call.copy()?))
            } else {
                Ok(None)
            }
        }
        None => Ok(None),
    }
}

fn one_if(found: &Option<Shared>) -> usize
    ensures { result ≡ spec.one_if found.now }
{
    match found {
        None => 0,
        Some(_) => 1,
    }
}

/// What so many tasks made, by their positions: of the calls below a DAG whose path has so many selectors.
pub(crate) fn by_task(
    alloc: Global,
    calls: &List<Shared>,
    depth: usize,
    count: usize,
) -> Result<Vec<Option<Shared>>, Memory>
    ensures { IfOk result (λ found. found.items ≡ spec.by_task depth 0 count calls.now) }
{
    let mut found = Vec::with_capacity(alloc, count)?;
    let mut at: usize = 0;
    for i in 0..count {
        let one = task_at(calls, at, depth, i)?;
        at += one_if(&one);
        found.push(one)?;
    }
    Ok(found)
}
