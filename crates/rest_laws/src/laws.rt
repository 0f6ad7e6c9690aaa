//! The laws, each the contract of a function that does nothing.

ghost use Rattle.rest_laws.specs.Pods.{PodsWait};
ghost use Rattle.rest_laws.specs.Rest.{WorkflowsRest};

/// A workflow rests behind a job in which no entry came, until an entry concerns it or the clock moves; where no timer wakes it,
/// until the tick of a command is passed. And where it holds no lock its job finds nothing to do.
pub fn workflows_rest()
    ensures { WorkflowsRest }
{}

/// A pod has not ended before its planned end, and until then a runner's job on it finds nothing to do.
pub fn pods_wait()
    ensures { PodsWait }
{}
