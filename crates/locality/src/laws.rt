//! The laws of what is made, each the contract of a function that does nothing.

ghost use Rattle.locality.specs.Local.{CallsAreLocal, CallsOffStay, TopCallsAreLocal, TopCallsOffStay};
ghost use Rattle.locality.specs.Local.{CallsOfTemplatesAreLocal, SingleCallsAreLocal, HooksAreLocal, HookedAreLocal};
ghost use Rattle.locality.specs.Local.{ItemsAreLocal, LoopsAreLocal, TemplatesAreLocal, MemosAreLocal, BodiesAreLocal};
ghost use Rattle.locality.specs.Local.{MembersAreLocal, GroupsAreLocal, StepsAreLocal, FirstGroupsAreLocal};
ghost use Rattle.locality.specs.Local.{BegunTasksAreLocal, TasksAreLocal, KeptTasksAreLocal, DagsAreLocal};
ghost use Rattle.locality.specs.Local.{PodsAreLocal, SuspendedAreLocal, AttemptsAreLocal, FirstAttemptsAreLocal};

/// Where the same is answered at their paths and below, calls make the same, with any number of depths left.
pub fn calls_are_local()
    ensures { CallsAreLocal }
{}

/// So calls make the same that are off the one path that changed.
pub fn calls_off_stay()
    ensures { CallsOffStay }
{}

/// The entrypoint and the exit handler make the same.
pub fn top_calls_are_local()
    ensures { TopCallsAreLocal }
{}

/// So do they where they are off the one path that changed.
pub fn top_calls_off_stay()
    ensures { TopCallsOffStay }
{}

/// A call of a template makes the same, with the same behind it.
pub fn calls_of_templates_are_local()
    ensures { CallsOfTemplatesAreLocal }
{}

/// A call without a loop makes the same.
pub fn single_calls_are_local()
    ensures { SingleCallsAreLocal }
{}

/// An exit hook makes the same behind the same node.
pub fn hooks_are_local()
    ensures { HooksAreLocal }
{}

/// A node has the same exit hook behind it, or none.
pub fn hooked_are_local()
    ensures { HookedAreLocal }
{}

/// An item of a loop makes the same, whatever is answered of the others.
pub fn items_are_local()
    ensures { ItemsAreLocal }
{}

/// All items of a loop make the same.
pub fn loops_are_local()
    ensures { LoopsAreLocal }
{}

/// A template's node is the same.
pub fn templates_are_local()
    ensures { TemplatesAreLocal }
{}

/// The same of what follows its lock.
pub fn memos_are_local()
    ensures { MemosAreLocal }
{}

/// The same of its body.
pub fn bodies_are_local()
    ensures { BodiesAreLocal }
{}

/// A member of a group makes the same, whatever is answered of the others.
pub fn members_are_local()
    ensures { MembersAreLocal }
{}

/// All members of a group make the same.
pub fn groups_are_local()
    ensures { GroupsAreLocal }
{}

/// The same groups are made, with the same scope behind them.
pub fn steps_are_local()
    ensures { StepsAreLocal }
{}

/// The first groups are the same, whatever is answered of those behind them.
pub fn first_groups_are_local()
    ensures { FirstGroupsAreLocal }
{}

/// A task that begins makes the same behind the same tags.
pub fn begun_tasks_are_local()
    ensures { BegunTasksAreLocal }
{}

/// A task stands the same where the tasks do that it waits for.
pub fn tasks_are_local()
    ensures { TasksAreLocal }
{}

/// Tasks stand the same below which, and below whose ancestors, the same is answered.
pub fn kept_tasks_are_local()
    ensures { KeptTasksAreLocal }
{}

/// A DAG is the same, whatever is answered at its own path.
pub fn dags_are_local()
    ensures { DagsAreLocal }
{}

/// A pod is the same.
pub fn pods_are_local()
    ensures { PodsAreLocal }
{}

/// A suspended node is the same.
pub fn suspended_are_local()
    ensures { SuspendedAreLocal }
{}

/// Attempts are the same, and so is what follows the last of them.
pub fn attempts_are_local()
    ensures { AttemptsAreLocal }
{}

/// The first attempts are the same, whatever is answered of those behind them.
pub fn first_attempts_are_local()
    ensures { FirstAttemptsAreLocal }
{}
