//! The laws of snapshots and versions, each the contract of a function that does nothing.

ghost use Rattle.object_store.specs.Laws.{SeenStands, StaysOf, LastIsPresent, EachWasThere, GoesOn, GrowsLawful};

use crate::Content;

/// Under the key of a snapshot stands its version or a later one, and with the same number the same content.
pub fn seen_stands<C>()
    ensures { SeenStands C }
{}

/// A snapshot of a history is one of each longer history.
pub fn stays_of<C>()
    ensures { StaysOf C }
{}

/// The present version is the last of all.
pub fn last_is_present<C>()
    ensures { LastIsPresent C }
{}

/// Each version that an object had is one of the history.
pub fn each_was_there<C>()
    ensures { EachWasThere C }
{}

/// Histories go on from each other.
pub fn goes_on<C>()
    ensures { GoesOn C }
{}

/// A lawful history with one justified entry more is lawful.
pub fn grows_lawful<C: Content>()
    ensures { GrowsLawful C.justified }
{}
