//! The laws of the groups that are opened and of their phases.

ghost use Rattle.steps_template.specs.Opened.{GroupsFollow, TellsGroup};

/// The groups that the meaning lists are those that `steps_next` opens, one after the other; once they are made, the
/// template waits, or is over, with the phase that the meaning gives it.
pub fn groups_follow()
    ensures { GroupsFollow }
{}

/// What `steps_next` says of a group alone is its phase.
pub fn tells_group()
    ensures { TellsGroup }
{}
