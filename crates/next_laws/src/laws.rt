//! The laws, each the contract of a function that does nothing.

ghost use Rattle.next_laws.specs.Acts.{ActsStill, FinishesStill, ActIsNew};
ghost use Rattle.next_laws.specs.Viewing.{ViewsStay};
ghost use Rattle.next_laws.specs.Fresh.{FreshActsAreDue};
ghost use Rattle.next_laws.specs.NextTicks.{NextTickIsNext};
ghost use Rattle.next_laws.specs.Jobs.{UndisturbedGoesWell, StillRoundIsIdle};
ghost use Rattle.next_laws.specs.Sizes.{ReadsLeaveFewer, RefusalsLeaveFewer, CallsAreBounded, UndisturbedEnds};
ghost use Rattle.next_laws.specs.Playing.{PlaysLawfully, StepIsPlayed};
ghost use Rattle.next_laws.specs.Ends.{RoundsEnd, RunEndsQuiet, RunsKeepPace};
ghost use Rattle.next_laws.specs.ReadsBack.{ReadsBack};

/// What a worker does next, by views of a history, is justified wherever it can be accepted.
pub fn acts_still()
    ensures { ActsStill }
{}

/// And so is what a runner does next.
pub fn finishes_still()
    ensures { FinishesStill }
{}

/// The views of a job stay views of what was seen.
pub fn views_stay()
    ensures { ViewsStay }
{}

/// A fact that is next is asked for, and new.
pub fn act_is_new()
    ensures { ActIsNew }
{}

/// What is next by fresh views is the first that is due, and a job is done where nothing is.
pub fn fresh_acts_are_due()
    ensures { FreshActsAreDue }
{}

/// The least of the ticks above the clock is the next at which something is due.
pub fn next_tick_is_next()
    ensures { NextTickIsNext }
{}

/// A job that nobody disturbs meets no conflict, and does all that is due.
pub fn undisturbed_goes_well()
    ensures { UndisturbedGoesWell }
{}

/// A round in which no entry came leaves the state idle.
pub fn still_round_is_idle()
    ensures { StillRoundIsIdle }
{}

/// Each read after which a job goes on leaves it fewer calls.
pub fn reads_leave_fewer()
    ensures { ReadsLeaveFewer }
{}

/// And so does each refusal.
pub fn refusals_leave_fewer()
    ensures { RefusalsLeaveFewer }
{}

/// The calls that are left to a job are bounded by the nodes of the tree that it has seen.
pub fn calls_are_bounded()
    ensures { CallsAreBounded }
{}

/// A job that nobody disturbs ends.
pub fn undisturbed_ends()
    ensures { UndisturbedEnds }
{}

/// A get that reads versions back reads the one whose number is lower by so many, but at least 1.
pub fn reads_back()
    ensures { ReadsBack }
{}

/// Every history that a schedule plays is lawful, whatever its lags and restarts, and whichever calls fail.
pub fn plays_lawfully()
    ensures { PlaysLawfully }
{}

/// At each stage that a schedule has reached, its next step can be played, with no call that fails.
pub fn step_is_played()
    ensures { StepIsPlayed }
{}

/// A job that nobody disturbs ends, and so does a round; a run has at most one round more than entries and faults.
pub fn rounds_end()
    ensures { RoundsEnd }
{}

/// The end of a run is quiet.
pub fn run_ends_quiet()
    ensures { RunEndsQuiet }
{}

/// A run is paced: the clock goes from an idle state to its next tick.
pub fn runs_keep_pace()
    ensures { RunsKeepPace }
{}
