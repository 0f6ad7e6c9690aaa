//! Facts, read from their JSON lists.

ghost use Rattle.std.specs.Prelude.{◌≡◌, map};
ghost use Rattle.serde_json.specs.View.{view};
ghost use Rattle.history_text.specs.Inside.Reading as reads;

use crate::fault::Fault;
use crate::read_parts::{outcome_at, outputs_at, parts_at, path_at, whole_at, word_at};
use base_types::Shared;
use serde_json::Value;
use std::alloc::Global;
use tree_types::{Fact, Facts, Outputs};

fn answer_of(alloc: Global, word: &str, part: &Value) -> Result<Option<Shared<Outputs>>, Fault>
    ensures { reads.Gives (λ answer. answer) result (reads.answer_of word.now (view part.now)) }
{
    match word {
        "hit" => Ok(Some(outputs_at(alloc, part, 3)?)),
        "miss" => Ok(None),
        _ => Err(Fault::Other),
    }
}

fn settled_of(alloc: Global, part: &Value) -> Result<Fact, Fault>
    ensures { reads.Gives (λ fact. fact) result (reads.settled_of (view part.now)) }
{
    Ok(Fact::Settled(path_at(alloc, part, 1)?, outcome_at(alloc, part, 2)?))
}

fn carried_of(alloc: Global, part: &Value) -> Result<Fact, Fault>
    ensures { reads.Gives (λ fact. fact) result (reads.carried_of (view part.now)) }
{
    Ok(Fact::Carried(path_at(alloc, part, 1)?, outcome_at(alloc, part, 2)?))
}

fn memo_of(alloc: Global, part: &Value) -> Result<Fact, Fault>
    ensures { reads.Gives (λ fact. fact) result (reads.memo_of (view part.now)) }
{
    let path = path_at(alloc, part, 1)?;
    let word = word_at(part, 2)?;
    Ok(Fact::Memo(path, answer_of(alloc, word, part)?))
}

fn armed_of(alloc: Global, part: &Value) -> Result<Fact, Fault>
    ensures { reads.Gives (λ fact. fact) result (reads.armed_of (view part.now)) }
{
    Ok(Fact::Armed(path_at(alloc, part, 1)?, whole_at(part, 2)?))
}

fn fact_by(alloc: Global, word: &str, part: &Value) -> Result<Fact, Fault>
    ensures { reads.Gives (λ fact. fact) result (reads.fact_by word.now (view part.now)) }
{
    match word {
        "started" => Ok(Fact::Started),
        "settled" => settled_of(alloc, part),
        "carried" => carried_of(alloc, part),
        "granted" => Ok(Fact::Granted(path_at(alloc, part, 1)?)),
        "memo" => memo_of(alloc, part),
        "armed" => armed_of(alloc, part),
        "due" => Ok(Fact::Due(path_at(alloc, part, 1)?)),
        "resumed" => Ok(Fact::Resumed(path_at(alloc, part, 1)?)),
        "begun" => Ok(Fact::Begun(path_at(alloc, part, 1)?)),
        _ => Err(Fault::Other),
    }
}

fn fact_of(alloc: Global, part: &Value) -> Result<Fact, Fault>
    ensures { reads.Gives (λ fact. fact) result (reads.fact_of (view part.now)) }
{
    fact_by(alloc, word_at(part, 0)?, part)
}

fn facts_of(alloc: Global, parts: &[Value]) -> Result<Facts, Fault>
    ensures { reads.Gives (λ facts. facts) result (reads.all_of reads.fact_of (map view parts.now)) }
{
    let mut facts = Facts::new(alloc);
    for part in parts {
        match fact_of(alloc, part) {
            Ok(fact) => facts.push(fact)?,
            Err(fault) => return Err(fault),
        }
    }
    Ok(facts)
}

pub(crate) fn facts_at(alloc: Global, list: &Value, place: usize) -> Result<Facts, Fault>
    ensures { reads.Gives (λ facts. facts) result (reads.facts_at place (view list.now)) }
{
    facts_of(alloc, parts_at(list, place)?)
}
