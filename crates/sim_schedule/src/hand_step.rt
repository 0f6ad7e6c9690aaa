//! One step of a worker or of a runner that has one job.

ghost use Rattle.std.specs.Prelude.{◌≡◌, ◌≢◌, List, Err, IfOk, IfSome};
ghost use Rattle.lawful.specs.Manifests.{HasValidWorkflows};
ghost use Rattle.next_laws.specs.Playing.{HandHasSeen};
ghost use Rattle.next_step.specs.Hands.{Given};
ghost use Rattle.pod_runner.specs.Running as running;
ghost use Rattle.pod_runner.specs.declared.answers.RunFault.TheVariants as run_faults;
ghost use Rattle.reconcile_core.specs.Workers as working;
ghost use Rattle.reconcile_core.specs.declared.answers.ReconcileFault.TheVariants as faults;
ghost use Rattle.sim_schedule.specs.Sweeping.{GoesOn};
ghost use Rattle.wf_object.specs.Documents.{law_of};
ghost use Rattle.sim_schedule.specs.Inside.Hands.{HasOne, HasOnePod, IsBusyFirst, hand_with, hand_after, is_called, is_running};
ghost use Rattle.sim_schedule.specs.Inside.Steps.{HandMoves};

use crate::hand_job::Doing;
use base_types::Memory;
use io_edge::Outage;
use object_store::Store;
use pod_runner::{RunDone, RunFault, Runner};
use reconcile_core::{ReconcileFault, StepDone, Worker};
use store_client::MemClient;
use wf_bundle::Document;
use wf_object::WfContent;

/// What is left of a hand's job after a step: the job, where it goes on, and the lag.
#[derive(Drop)]
pub(crate) struct Left {
    pub(crate) doing: Option<Doing>,
    pub(crate) lag: u64,
}

// Whether a worker's job goes on.
fn goes_on(answer: &Result<StepDone, ReconcileFault>) -> Result<bool, Memory>
    ensures told { IfOk result (λ on. on ≡ is_called answer.now) }
    ensures memory { IfOk result (λ _. answer.now ≢ Err faults.Memory) }
{
    match answer {
        Ok(StepDone::Called) => Ok(true),
        Ok(StepDone::Idle) | Ok(StepDone::Ended(_)) => Ok(false),
        Err(ReconcileFault::Memory) => Err(Memory),
        Err(ReconcileFault::Conflict { .. })
        | Err(ReconcileFault::Fault)
        | Err(ReconcileFault::TooLarge) => Ok(false),
    }
}

// Whether a runner's job goes on.
fn runs_on(answer: &Result<RunDone, RunFault>) -> Result<bool, Memory>
    ensures told { IfOk result (λ on. on ≡ is_running answer.now) }
    ensures memory { IfOk result (λ _. answer.now ≢ Err run_faults.Memory) }
{
    match answer {
        Ok(RunDone::Called) => Ok(true),
        Ok(RunDone::Idle)
        | Ok(RunDone::Finished)
        | Ok(RunDone::Absent)
        | Ok(RunDone::NoOutcome)
        | Ok(RunDone::NotDue { .. })
        | Ok(RunDone::AlreadyFinished) => Ok(false),
        Err(RunFault::Memory) => Err(Memory),
        Err(RunFault::Conflict { .. }) | Err(RunFault::Fault) => Ok(false),
    }
}

/// Makes a step of a worker, with this lag.
pub(crate) fn work<O: Outage>(
    store: &mut Store<WfContent, O>,
    document: &Document,
    mut worker: Worker,
    lag: u64,
) -> Result<Left, Memory>
    requires valid { HasValidWorkflows (law_of document.now) }
    requires one { HasOne worker }
    requires seen { HandHasSeen store.old.history (working.hand_of lag worker) }
    ensures on { GoesOn (law_of document.now) store.old.history store.new.history }
    ensures made { IfOk result (λ left. (rest : List Given) → HandMoves (law_of document.now)
        store.old.history (hand_with (working.hand_of lag worker) rest) (O.faults store.old.outage)
        store.new.history (hand_after left rest) (O.faults store.new.outage)) }
    ensures one { IfOk result (λ left. IfSome left.doing (λ doing. (rest : List Given) → IsBusyFirst doing rest)) }
{
    let mut client = MemClient::new(store, document);
    client.set_lag(lag);
    let answer = worker.step(&mut client, document);
    let lag = client.lag();
    if goes_on(&answer)? {
        Ok(Left {
            doing: Some(Doing::Workflow(worker)),
            lag,
        })
    } else {
        Ok(Left { doing: None, lag })
    }
}

/// Makes a step of a runner, with this lag.
pub(crate) fn run<O: Outage>(
    store: &mut Store<WfContent, O>,
    document: &Document,
    mut runner: Runner,
    lag: u64,
) -> Result<Left, Memory>
    requires one { HasOnePod runner }
    requires seen { HandHasSeen store.old.history (running.hand_of lag runner) }
    ensures on { GoesOn (law_of document.now) store.old.history store.new.history }
    ensures made { IfOk result (λ left. (rest : List Given) → HandMoves (law_of document.now)
        store.old.history (hand_with (running.hand_of lag runner) rest) (O.faults store.old.outage)
        store.new.history (hand_after left rest) (O.faults store.new.outage)) }
    ensures one { IfOk result (λ left. IfSome left.doing (λ doing. (rest : List Given) → IsBusyFirst doing rest)) }
{
    let mut client = MemClient::new(store, document);
    client.set_lag(lag);
    let answer = runner.step(&mut client, document);
    let lag = client.lag();
    if runs_on(&answer)? {
        Ok(Left {
            doing: Some(Doing::Pod(runner)),
            lag,
        })
    } else {
        Ok(Left { doing: None, lag })
    }
}
