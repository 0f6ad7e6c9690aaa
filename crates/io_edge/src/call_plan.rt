//! Which calls of an object in memory fail.

ghost use Rattle.std.specs.Prelude.{◌≡◌, ◌≤◌, IsTrue};
ghost use Rattle.io_edge.specs.Cause.{Rose};
ghost use Rattle.io_edge.specs.Plans.{fails_next, after_call};

use base_types::List;

/// The numbers of calls, the first call being 1. The order does not matter.
pub type CallNumbers = List<u64>;

/// Counts the calls of an object and those that failed. Both counts stop at the greatest number.
#[derive(Drop)]
pub(crate) struct CallPlan {
    pub(crate) failing: CallNumbers,
    pub(crate) calls: u64,
    pub(crate) faults: u64,
}

impl CallPlan {
    pub(crate) fn new(failing: CallNumbers) -> Self
        ensures { result ≡ record { failing = failing; calls = 0; faults = 0 } }
    {
        CallPlan {
            failing,
            calls: 0,
            faults: 0,
        }
    }

    /// Whether the next call fails by the plan.
    pub(crate) fn fails_next(&self) -> bool
        ensures { result ≡ fails_next self.now }
    {
        let number = self.calls.saturating_add(1);
        self.failing.as_slice().contains(&number)
    }

    /// Counts a call, and its fault where it failed.
    pub(crate) fn count(&mut self, failed: bool)
        ensures plan { self.new ≡ after_call self.old failed }
        ensures later { self.old.faults ≤ self.new.faults }
        ensures rose { IsTrue failed → Rose self.old.faults self.new.faults }
    {
        self.calls = self.calls.saturating_add(1);
        if failed {
            self.faults = self.faults.saturating_add(1);
        }
    }
}
