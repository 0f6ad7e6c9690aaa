//! What a fact of a kind says.

ghost use Rattle.std.specs.Prelude.{◌≡◌, option_copied};
ghost use Rattle.recorded.specs.Ends.{memo_answered};
ghost use Rattle.shared_facts.specs.Inside.Reads as reads;

use recorded::MemoAnswer;
use tree_types::{Fact, Outcome};

pub fn settled(fact: &Fact) -> Option<&Outcome>
    ensures { option_copied result ≡ reads.settled fact.now }
{
    match fact {
        Fact::Settled(_, outcome) => Some(outcome.value()),
        _ => None,
    }
}

pub fn carried(fact: &Fact) -> Option<&Outcome>
    ensures { option_copied result ≡ reads.carried fact.now }
{
    match fact {
        Fact::Carried(_, outcome) => Some(outcome.value()),
        _ => None,
    }
}

pub fn memo(fact: &Fact) -> Option<MemoAnswer<'_>>
    ensures { memo_answered result ≡ reads.memo fact.now }
{
    match fact {
        Fact::Memo(_, Some(outputs)) => Some(Some(outputs.value())),
        Fact::Memo(_, None) => Some(None),
        _ => None,
    }
}

pub fn armed(fact: &Fact) -> Option<u64>
    ensures { result ≡ reads.armed fact.now }
{
    match fact {
        Fact::Armed(_, tick) => Some(*tick),
        _ => None,
    }
}
