//! Facts, as parts of a line.

ghost use Rattle.std.specs.Prelude.{◌≡◌, ◌∷◌, ◌++◌, [], IfOk};
ghost use Rattle.serde_json.specs.Data.{string};
ghost use Rattle.serde_json.specs.View.{view};
ghost use Rattle.tree_types.specs.declared.fact.Fact.TheVariants as fact;
ghost use Rattle.history_text.specs.Lines as lines;

use crate::list::Items;
use base_types::{Memory, Shared};
use serde_json::Value;
use std::alloc::Global;
use tree_types::{Fact, Facts, Outcome, Outputs, Path};

// A fact of a path alone.
fn placed(alloc: Global, word: &str, path: &Path) -> Result<Value, Memory>
    ensures { IfOk result (λ value. view value
        ≡ lines.list (string word.now ∷ lines.place path.now.sels ∷ [])) }
{
    Ok(Items::of(alloc, word)?.path(path)?.into_value())
}

fn ended(alloc: Global, word: &str, path: &Path, outcome: &Outcome) -> Result<Value, Memory>
    ensures { IfOk result (λ value. view value
        ≡ lines.list (string word.now ∷ lines.place path.now.sels ∷ lines.outcome_data outcome.now ∷ [])) }
{
    let items = Items::of(alloc, word)?.path(path)?.outcome(outcome)?;
    Ok(items.into_value())
}

fn answered(alloc: Global, path: &Path, answer: &Option<Shared<Outputs>>) -> Result<Value, Memory>
    ensures { IfOk result (λ value. view value ≡ lines.fact_data (fact.Memo path.now answer.now)) }
{
    let items = Items::of(alloc, "memo")?.path(path)?;
    let items = match answer {
        Some(outputs) => items.word("hit")?.outputs(outputs.value())?,
        None => items.word("miss")?,
    };
    Ok(items.into_value())
}

fn fact_value(alloc: Global, fact: &Fact) -> Result<Value, Memory>
    ensures { IfOk result (λ value. view value ≡ lines.fact_data fact.now) }
{
    match fact {
        Fact::Started => Ok(Items::of(alloc, "started")?.into_value()),
        Fact::Settled(path, outcome) => ended(alloc, "settled", path, outcome.value()),
        Fact::Carried(path, outcome) => ended(alloc, "carried", path, outcome.value()),
        Fact::Granted(path) => placed(alloc, "granted", path),
        Fact::Memo(path, answer) => answered(alloc, path, answer),
        Fact::Armed(path, tick) => {
            Ok(
                Items::of(alloc, "armed")?
                    .path(path)?
                    .whole(*tick)?
                    .into_value(),
            )
        }
        Fact::Due(path) => placed(alloc, "due", path),
        Fact::Resumed(path) => placed(alloc, "resumed", path),
        Fact::Begun(path) => placed(alloc, "begun", path),
    }
}

fn facts_value(alloc: Global, facts: &Facts) -> Result<Value, Memory>
    ensures { IfOk result (λ value. view value ≡ lines.facts_data facts.now) }
{
    let mut items = Items::new(alloc);
    let facts = facts.as_slice();
    for fact in facts {
        items = items.value(fact_value(alloc, fact)?)?;
    }
    Ok(items.into_value())
}

impl Items {
    ghost use Rattle.history_text.specs.Inside.Parts.{parts_of};

    pub(crate) fn facts(self, facts: &Facts) -> Result<Items, Memory>
        ensures { IfOk result (λ items. parts_of items ≡ parts_of self ++ lines.facts_data facts.now ∷ []) }
    {
        let value = facts_value(self.allocator(), facts)?;
        self.value(value)
    }
}
