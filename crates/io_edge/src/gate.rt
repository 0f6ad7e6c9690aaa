//! What is told of each call of a store by workers that run beside each other, so that a test can hold one of them.

use std::sync::atomic::{AtomicU64, Ordering};

/// Is told before and after each call of a store, while no turn is held. No contract speaks of what it does.
///
/// `worker` counts from 0, and `call`, the number of that worker's call, from 1.
pub trait Gate {
    fn began(&self, worker: u32, call: u64);

    fn answered(&self, worker: u32, call: u64);
}

/// How often the gate looks whether the held call may go on.
const LOOKS: u64 = 1_000_000_000;

/// No call is held yet.
const NOBODY: u64 = 0;

const WAITING: u64 = 0;

const MET: u64 = 1;

const EXPIRED: u64 = 2;

/// Holds one call, the first to begin that has the number `call`, until `answers` calls of other workers that began after it
/// are answered, or until it has looked 1,000,000,000 times. It tells the calls of 64 workers apart.
#[derive(Drop)]
pub struct HoldGate {
    call: u64,
    answers: u64,
    // the worker whose call is held, counted from 1
    holder: AtomicU64,
    // a bit for each worker with a call that began after the held one and is not answered
    begun: AtomicU64,
    answered: AtomicU64,
    note: AtomicU64,
}

impl HoldGate {
    pub fn new(call: u64, answers: u64) -> HoldGate {
        HoldGate {
            call,
            answers,
            holder: AtomicU64::new(NOBODY),
            begun: AtomicU64::new(0),
            answered: AtomicU64::new(0),
            note: AtomicU64::new(WAITING),
        }
    }

    /// Whether the held call went on since so many others were answered.
    pub fn met(&self) -> bool {
        self.note.load(Ordering::SeqCst) == MET
    }

    /// Whether it went on since the gate had looked so often.
    pub fn expired(&self) -> bool {
        self.note.load(Ordering::SeqCst) == EXPIRED
    }

    fn becomes_holder(&self, worker: u32) -> bool {
        self.holder
            .compare_exchange(
                NOBODY,
                u64::from(worker) + 1,
                Ordering::SeqCst,
                Ordering::SeqCst,
            )
            .is_ok()
    }

    fn hold(&self) {
        for _ in 0..LOOKS {
            if self.answered.load(Ordering::SeqCst) >= self.answers {
                self.note.store(MET, Ordering::SeqCst);
                return;
            }
        }
        self.note.store(EXPIRED, Ordering::SeqCst);
    }
}

// The bit of a worker, and none of one beyond the 64th.
fn bit_of(worker: u32) -> u64 {
    1u64.checked_shl(worker).unwrap_or(0)
}

impl Gate for HoldGate {
    fn began(&self, worker: u32, call: u64) {
        if call == self.call && self.becomes_holder(worker) {
            self.hold();
        } else if self.holder.load(Ordering::SeqCst) != NOBODY {
            self.begun.fetch_or(bit_of(worker), Ordering::SeqCst);
        }
    }

    fn answered(&self, worker: u32, _call: u64) {
        let bit = bit_of(worker);
        let begun = self.begun.fetch_and(!bit, Ordering::SeqCst);
        if begun & bit != 0 {
            self.answered.fetch_add(1, Ordering::SeqCst);
        }
    }
}
