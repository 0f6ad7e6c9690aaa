//! The job that a hand does, and those that wait behind it.

ghost use Rattle.std.specs.Prelude.{◌≡◌, map, IfOk};
ghost use Rattle.sim_schedule.specs.Inside.Hands.{given, IsBegun, IsNext};

use base_types::{Memory, Text};
use pod_runner::Runner;
use reconcile_core::Worker;
use std::alloc::Global;
use std::collections::VecDeque;

/// A worker's job on a workflow, or a runner's on the pod of a workflow's node.
#[derive(Debug, Drop)]
pub(crate) enum Job {
    Workflow(Text),
    Pod(Text, Text),
}

/// The job that a hand does, by a worker or a runner that has no other.
#[derive(Drop)]
pub(crate) enum Doing {
    Nothing,
    Workflow(Worker),
    Pod(Runner),
}

/// A job begins.
pub(crate) fn begin(alloc: Global, job: Job) -> Result<Doing, Memory>
    ensures { IfOk result (λ doing. IsBegun (given job) doing) }
{
    match job {
        Job::Workflow(workflow) => {
            let mut worker = Worker::new(alloc);
            worker.give(workflow)?;
            Ok(Doing::Workflow(worker))
        }
        Job::Pod(workflow, node) => {
            let mut runner = Runner::new(alloc);
            runner.give(workflow, node)?;
            Ok(Doing::Pod(runner))
        }
    }
}

/// The first of the jobs that wait begins, if there is one.
pub(crate) fn begin_next(alloc: Global, waiting: &mut VecDeque<Job>) -> Result<Doing, Memory>
    ensures { IfOk result (λ doing. IsNext (map given waiting.old.items) doing (map given waiting.new.items)) }
{
    match waiting.pop_front() {
        None => Ok(Doing::Nothing),
        Some(job) => begin(alloc, job),
    }
}
