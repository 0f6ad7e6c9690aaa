//! The laws of answers that are the same at some paths, each the contract of a function that does nothing.

ghost use Rattle.locality.specs.Answered.{OffIsSame, FactsAreLocal, JournalsAreLocal, StartsOnlyStart};

/// Off the one path that changed the same is answered, also below.
pub fn off_is_same()
    ensures { OffIsSame }
{}

/// A recorded fact of a path changes what is answered at this path alone.
pub fn facts_are_local()
    ensures { FactsAreLocal }
{}

/// Facts that say nothing at a path nor below it change nothing there.
pub fn journals_are_local()
    ensures { JournalsAreLocal }
{}

/// A recorded start changes nothing that is answered at a path.
pub fn starts_only_start()
    ensures { StartsOnlyStart }
{}
