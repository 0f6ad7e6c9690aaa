//! What is recorded of a workflow.

ghost use Rattle.std.specs.Prelude.{◌≡◌};
ghost use Rattle.meaning.specs.Answers.{Answers};
ghost use Rattle.recorded.specs.Ends.{answered, end_of, memo_answered, note_if};

use crate::Ended;
use meaning::Place;
use tree_types::{Outcome, Outputs, Sels};

/// What a cache answered: the kept outputs, or that it has none.
pub type MemoAnswer<'a> = Option<&'a Outputs>;

impl<'a> Ended<'a> {
    /// An outcome that is kept whole.
    pub fn by(outcome: &'a Outcome, carried: bool) -> Ended<'a>
        ensures { end_of result ≡ (note_if carried, outcome.now) }
    {
        Ended {
            phase: outcome.phase,
            result: &outcome.result,
            params: &outcome.params,
            transient: outcome.transient,
            begin: outcome.begin,
            finish: outcome.finish,
            carried,
        }
    }
}

/// What is recorded of a workflow, which decides its tree.
pub trait Recorded {
    /// All that is answered of the workflow.
    ghost answers: { Self → Answers };

    /// Whether the workflow was begun.
    fn started(&self) -> bool
        ensures { result ≡ (answers self.now).started };

    /// How the pod of a place ended, if it did.
    fn outcome(&self, place: &Place) -> Option<Ended<'_>>
        ensures { answered result ≡ (answers self.now).outcome place.now };

    /// Whether a path was granted its lock; the empty path, the workflow's own.
    fn granted(&self, sels: &Sels) -> bool
        ensures { result ≡ (answers self.now).granted sels.now };

    /// What a cache answered a path, if it was looked up.
    fn memo(&self, sels: &Sels) -> Option<MemoAnswer<'_>>
        ensures { memo_answered result ≡ (answers self.now).memo sels.now };

    /// The tick from which the duration of a suspended node counts.
    fn armed(&self, sels: &Sels) -> Option<u64>
        ensures { result ≡ (answers self.now).armed sels.now };

    /// Whether the timer of a path was due.
    fn due(&self, sels: &Sels) -> bool
        ensures { result ≡ (answers self.now).due sels.now };

    /// Whether a suspended node was resumed.
    fn resumed(&self, sels: &Sels) -> bool
        ensures { result ≡ (answers self.now).resumed sels.now };

    /// Whether a task of a DAG with `failFast` was begun.
    fn begun(&self, sels: &Sels) -> bool
        ensures { result ≡ (answers self.now).begun sels.now };
}
