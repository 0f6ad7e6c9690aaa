//! The laws, each the contract of a function that does nothing.

ghost use Rattle.mentions.specs.Unasked.{UnaskedInCalls, UnaskedInGroups, UnaskedInOutputs};
ghost use Rattle.mentions.specs.Unasked.{GroupTagsBeginSo, TaskTagsBeginSo};

/// A call makes the same in scopes that agree on all other tags than those that it does not ask for.
pub fn unasked_in_calls()
    ensures { UnaskedInCalls }
{}

/// So do all calls of a group.
pub fn unasked_in_groups()
    ensures { UnaskedInGroups }
{}

/// Declared outputs are computed as the same.
pub fn unasked_in_outputs()
    ensures { UnaskedInOutputs }
{}

/// The tags of a group begin with `steps.`: each other tag keeps its value behind them.
pub fn group_tags_begin_so()
    ensures { GroupTagsBeginSo }
{}

/// So do the tags that a task of a DAG sees of its ancestors, with `tasks.`.
pub fn task_tags_begin_so()
    ensures { TaskTagsBeginSo }
{}
