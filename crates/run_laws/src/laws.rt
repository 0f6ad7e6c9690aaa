//! The laws, each the contract of a function that does nothing.

ghost use Rattle.run_laws.specs.Submissions.{SubmissionsGoWell};
ghost use Rattle.run_laws.specs.Rounds.{RoundsAreDone, NeverMoved};
ghost use Rattle.run_laws.specs.Fulls.{RoundIsStill, LastRoundIsQuiet, JobsKeepPace};
ghost use Rattle.run_laws.specs.Pods.{UnfinishedPods};

/// The workflows of a document are submitted one after the other, and none of the submissions moves the clock.
pub fn submissions_go_well()
    ensures { SubmissionsGoWell }
{}

/// Jobs that run one after the other, and what is told of each, are the jobs of a round.
pub fn rounds_are_done()
    ensures { RoundsAreDone }
{}

/// A job that nobody disturbs finds no object moved on.
pub fn never_moved()
    ensures { NeverMoved }
{}

/// A round without an entry and without a fault leaves the history as it was, and tells the full workflows.
pub fn round_is_still()
    ensures { RoundIsStill }
{}

/// And the state is quiet where no tick follows.
pub fn last_round_is_quiet()
    ensures { LastRoundIsQuiet }
{}

/// No job moves the clock, and after a round without an entry and without a fault it goes to the next tick.
pub fn jobs_keep_pace()
    ensures { JobsKeepPace }
{}

/// A pod that has ended stays so: the unfinished pods are those that were unfinished before, and new ones.
pub fn finished_pods_stay()
    ensures { UnfinishedPods }
{}
