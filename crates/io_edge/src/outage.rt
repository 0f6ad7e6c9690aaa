//! What makes calls of the store fail.

ghost use Rattle.std.specs.Prelude.{◌≡◌, ℕ, Bool, ◌+◌, ◌≤◌, true, false, length, not};
ghost use Rattle.io_edge.specs.Outages.{Plan, plan, fails, after_asking};

use crate::CallNumbers;
use std::marker::Model;

/// Decides of each call of the store whether it fails.
pub trait Outage: Drop {
    /// How many calls it has failed.
    ghost faults: { Self → ℕ };

    /// A number that its faults never pass.
    ghost most: { Self → ℕ };

    /// What it is after it was asked and gave this answer.
    ghost asked: { Self → Bool → Self → Type 0 };

    /// Whether the next call goes through.
    fn pass(&mut self) -> bool
        ensures asked { asked self.old result self.new }
        ensures failed { result ≡ false → faults self.new ≡ faults self.old + 1 }
        ensures passed { result ≡ true → faults self.new ≡ faults self.old }
        ensures bound { faults self.new ≤ most self.new }
        ensures most { most self.new ≡ most self.old };
}

/// Fails no call.
#[derive(Clone, Copy, Debug)]
pub struct NoOutage;

impl Outage for NoOutage {
    ghost faults = { λ _. 0 };

    ghost most = { λ _. 0 };

    ghost asked = { λ _ passed _. passed ≡ true };

    fn pass(&mut self) -> bool {
        true
    }
}

/// Fails the calls of a plan, by their numbers. Once 2^64 - 1 calls were asked all go through.
#[derive(Drop)]
pub struct PlannedOutage {
    failing: CallNumbers,
    calls: u64,
    faults: u64,
}

impl Model for PlannedOutage {
    ghost use Rattle.std.specs.Prelude.{◌≤◌};
    ghost use Rattle.io_edge.specs.Outages.{Plan};
    ghost use Rattle.io_edge.specs.Inside.Reached.{reached};

    ghost Value = { Plan };

    ghost view = { λ outage. record { failing = outage.failing; calls = outage.calls; faults = outage.faults } };

    ghost invariant = { λ outage.
        (outage.faults ≤ outage.calls) × (outage.faults ≤ reached outage.failing outage.calls) };
}

impl PlannedOutage {
    /// An outage of which no call was asked. `failing` has the numbers of the calls that will fail, the first being 1.
    pub fn new(failing: CallNumbers) -> Self
        ensures { result ≡ plan failing }
    {
        PlannedOutage {
            failing,
            calls: 0,
            faults: 0,
        }
    }
}

impl Outage for PlannedOutage {
    ghost faults = { λ outage. outage.faults };

    ghost most = { λ outage. length outage.failing };

    // The answer and what is counted are those of the plan.
    ghost asked = { λ old passed new. (passed ≡ not (fails old)) × (new ≡ after_asking old) };

    fn pass(&mut self) -> bool {
        if self.calls == u64::MAX {
            return true;
        }
        self.calls += 1;
        let fails = self.failing.as_slice().contains(&self.calls);
        if fails {
            self.faults += 1;
        }
        !fails
    }
}
