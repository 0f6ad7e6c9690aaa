//! The laws, each the contract of a function that does nothing.

ghost use Rattle.pod_laws.specs.NewLocks.{NoneNewLocksByCount};
ghost use Rattle.pod_laws.specs.NewPods.{NoneNewByCount, OneNewByCount, NamesAreKept, FrontIsKept};

/// Where a workflow asks for no more pods than are left of those before, it asks for these.
pub fn none_new_by_count()
    ensures { NoneNewByCount }
{}

/// Where it asks for one more, one at the most is new.
pub fn one_new_by_count()
    ensures { OneNewByCount }
{}

/// The pods that were asked for keep the names of their nodes.
pub fn names_are_kept()
    ensures { NamesAreKept }
{}

/// They stand in their order, and one of them at the most is gone.
pub fn front_is_kept()
    ensures { FrontIsKept }
{}

/// Where a workflow asks for no more locks than are left of those before, it asks for these.
pub fn none_new_locks_by_count()
    ensures { NoneNewLocksByCount }
{}
