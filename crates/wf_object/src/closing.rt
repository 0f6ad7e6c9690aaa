//! How facts are added to a workflow, and its journal is closed.

ghost use Rattle.std.specs.Prelude.{◌≡◌, ◌++◌, [], false, Err, IfOk};
ghost use Rattle.tree_types.specs.declared.fact.Fact.TheVariants.{Started};
ghost use Rattle.tree_types.specs.Journals.{knows};
ghost use Rattle.wf_object.specs.Inside.Closing.{Fits, CloseGives, TooLargeIn};

use base_types::{Memory, TryCopy};
use tree_incr::{TreeRefused, TreeState};
use tree_types::{Fact, Facts};

/// The workflow once the tasks that may begin have begun, one after the other, with their beginnings behind these facts.
pub fn close(from: TreeState, told: Facts) -> Result<(TreeState, Facts), TreeRefused>
    requires { Fits from }
    ensures { CloseGives from told result }
{
    let mut state = from;
    let mut facts = told;
    // So many facts no memory holds. That of a lawful journal is closed, or its tree too large, after 10,001 beginnings is
    // a law of growth.
    for _ in 0..u64::MAX {
        let Some(path) = state.first_beginning() else {
            return Ok((state, facts));
        };
        let begun = Fact::Begun(path.copy()?);
        facts.push(begun.copy()?)?;
        state = state.add(begun)?;
    }
    Err(TreeRefused::Memory)
}

/// The workflow with these facts behind its own.
pub fn with_facts(from: &TreeState, facts: &[Fact]) -> Result<TreeState, TreeRefused>
    ensures added { IfOk result
        (λ next. next ≡ record { manifest = from.now.manifest; facts = from.now.facts ++ facts.now }) }
    ensures large { result ≡ Err TreeRefused.TooLarge
        → TooLargeIn from.now.manifest from.now.facts facts.now }
{
    let mut state = from.copy()?;
    for fact in facts {
        state = state.add(fact.copy()?)?;
    }
    Ok(state)
}

/// The workflow of which nothing is recorded with what is carried over. Its tree is its root alone.
#[tactic(auto, using(crate::proofs::Unstarted::never_large))]
pub fn with_carried(state: &TreeState, facts: &[Fact]) -> Result<TreeState, Memory>
    requires nothing { state.now.facts ≡ [] }
    requires unstarted { knows facts.now Started ≡ false }
    ensures { IfOk result
        (λ next. next ≡ record { manifest = state.now.manifest; facts = facts.now }) }
{
    match with_facts(state, facts) {
        Ok(next) => Ok(next),
        Err(TreeRefused::Memory) => Err(Memory),
        Err(TreeRefused::TooLarge) => unreachable!(),
    }
}
