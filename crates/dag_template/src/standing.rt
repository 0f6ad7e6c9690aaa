//! How a task stands by what becomes of it.

ghost use Rattle.std.specs.Prelude.{◌≡◌, length, IfOk};
ghost use Rattle.task_order.specs.Orders.{waited};
ghost use Rattle.dag_plan.specs.Plans.{AreAt};
ghost use Rattle.meaning.specs.Steps as steps;
ghost use Rattle.meaning.specs.Dags as dags;
ghost use Rattle.dag_template.specs.States as states;
ghost use Rattle.dag_template.specs.Stands as spec;

use crate::TaskState;
use crate::judging::{Verdict, covers, judge};
use crate::stands::{Stand, waiting};
use base_types::Memory;
use depends_expr::TaskResult;
use std::alloc::Global;
use tree_types::Phase;
use wf_manifest::{ContinueOn, Dag, Task};

fn phase_of(state: TaskState) -> Phase
    ensures { result ≡ states.phase_of state }
{
    if state.made {
        state.phase
    } else {
        Phase::Pending
    }
}

fn covered(continue_on: Option<ContinueOn>, phase: Phase) -> Phase
    ensures { result ≡ steps.covered continue_on phase }
{
    let on = covers(continue_on);
    match (phase, on.failed, on.error) {
        (Phase::Skipped, _, _) | (Phase::Failed, true, _) | (Phase::Error, _, true) => {
            Phase::Succeeded
        }
        (phase, _, _) => phase,
    }
}

fn result_of(state: TaskState) -> TaskResult
    ensures { result ≡ dags.result_of_made (states.stated states.nowhere state) }
{
    let phase = phase_of(state);
    TaskResult {
        succeeded: matches!(phase, Phase::Succeeded),
        failed: matches!(phase, Phase::Failed),
        errored: matches!(phase, Phase::Error),
        skipped: matches!(phase, Phase::Skipped),
        omitted: matches!(phase, Phase::Omitted),
        any_succeeded: state.made && state.any_succeeded,
        all_failed: state.made && state.all_failed,
    }
}

fn freed(continue_on: Option<ContinueOn>, state: TaskState, begins: bool) -> Stand
    ensures { result ≡ spec.freed continue_on state begins }
{
    if !begins {
        return Stand {
            ready: true,
            ..waiting()
        };
    }
    Stand {
        existing: true,
        denied: false,
        ready: false,
        over: state.made && state.finished,
        branch: covered(continue_on, phase_of(state)),
        result: result_of(state),
    }
}

fn omitted(branch: Phase) -> Stand
    ensures { result ≡ spec.omitted branch }
{
    let waiting = waiting();
    Stand {
        existing: true,
        denied: true,
        ready: false,
        over: true,
        branch,
        result: TaskResult {
            omitted: true,
            ..waiting.result
        },
    }
}

fn stand_by(
    fail_fast: bool,
    continue_on: Option<ContinueOn>,
    state: TaskState,
    verdict: Verdict,
) -> Stand
    ensures { result ≡ spec.stand_by fail_fast continue_on state verdict }
{
    match verdict {
        Verdict::Waits => waiting(),
        Verdict::Holds => freed(continue_on, state, !fail_fast || state.begun),
        Verdict::Denied(branch) => omitted(branch),
    }
}

/// How a task stands, by how those stand that it waits for. `places` are the positions of these.
pub(crate) fn stand(
    alloc: Global,
    dag: &Dag,
    stands: &[Stand],
    task: &Task,
    places: &[usize],
    state: TaskState,
    meant: bool,
) -> Result<Stand, Memory>
    requires each { length dag.now.tasks ≡ length stands.now }
    requires places { AreAt dag.now.tasks (waited task.now) places.now }
    ensures { IfOk result (λ stand.
        stand ≡ spec.stand_if dag.now (spec.stand_of dag.now.tasks stands.now) task.now state meant) }
{
    if !meant {
        return Ok(waiting());
    }
    let verdict = judge(alloc, dag.tasks.as_slice(), stands, task, places)?;
    Ok(stand_by(dag.fail_fast, task.call.continue_on, state, verdict))
}
