//! What the facts answer.

ghost use Rattle.std.specs.Prelude.{◌≡◌, is_some, option_copied};
ghost use Rattle.std.specs.List.{find};
ghost use Rattle.meaning.specs.Answers.{answers, first_of, settled_in, carried_in};
ghost use Rattle.shared_facts.specs.Inside.Kinds.{is_of};

use crate::kind::Kind;
use crate::{SharedFacts, read};
use meaning::Place;
use recorded::{Ended, MemoAnswer, Recorded};
use tree_types::{Outcome, Sels};

impl SharedFacts {
    fn has(&self, kind: Kind, sels: &Sels) -> bool
        ensures { result ≡ is_some (find (is_of kind sels.now) self.now) }
    {
        self.first(kind, sels.as_slice()).is_some()
    }

    #[tactic(auto, using(crate::proofs::Readings::settled_read))]
    fn settled(&self, sels: &Sels) -> Option<&Outcome>
        ensures { option_copied result ≡ first_of (settled_in sels.now) self.now }
    {
        match self.first(Kind::Settled, sels.as_slice()) {
            None => None,
            Some(fact) => read::settled(fact),
        }
    }

    #[tactic(auto, using(crate::proofs::Readings::carried_read))]
    fn carried(&self, sels: &Sels) -> Option<&Outcome>
        ensures { option_copied result ≡ first_of (carried_in sels.now) self.now }
    {
        match self.first(Kind::Carried, sels.as_slice()) {
            None => None,
            Some(fact) => read::carried(fact),
        }
    }
}

#[tactic(auto, using(crate::proofs::Found::knows_found))]
impl Recorded for SharedFacts {
    ghost answers = { answers };

    fn started(&self) -> bool {
        self.first(Kind::Started, &[]).is_some()
    }

    fn outcome(&self, place: &Place) -> Option<Ended<'_>> {
        match (self.settled(&place.sels), self.carried(&place.sels)) {
            (Some(outcome), _) => Some(Ended::by(outcome, false)),
            (None, Some(outcome)) => Some(Ended::by(outcome, true)),
            (None, None) => None,
        }
    }

    fn granted(&self, sels: &Sels) -> bool {
        self.has(Kind::Granted, sels)
    }

    #[tactic(auto, using(crate::proofs::Readings::memo_read))]
    fn memo(&self, sels: &Sels) -> Option<MemoAnswer<'_>> {
        match self.first(Kind::Memo, sels.as_slice()) {
            None => None,
            Some(fact) => read::memo(fact),
        }
    }

    #[tactic(auto, using(crate::proofs::Readings::armed_read))]
    fn armed(&self, sels: &Sels) -> Option<u64> {
        match self.first(Kind::Armed, sels.as_slice()) {
            None => None,
            Some(fact) => read::armed(fact),
        }
    }

    fn due(&self, sels: &Sels) -> bool {
        self.has(Kind::Due, sels)
    }

    fn resumed(&self, sels: &Sels) -> bool {
        self.has(Kind::Resumed, sels)
    }

    fn begun(&self, sels: &Sels) -> bool {
        self.has(Kind::Begun, sels)
    }
}
