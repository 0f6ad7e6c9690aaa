//! Entries, read from their JSON lists.

ghost use Rattle.std.specs.Prelude.{◌≡◌};
ghost use Rattle.serde_json.specs.View.{view};
ghost use Rattle.history_text.specs.Inside.Reading as reads;

use crate::fault::Fault;
use crate::read_facts::facts_at;
use crate::read_parts::{
    integer_at, outcome_at, outputs_at, part_at, path_at, text_at, text_or_null_at, whole_at,
    word_at,
};
use base_types::{Shared, TryCopy};
use serde_json::Value;
use std::alloc::Global;
use tree_types::{Entry, HolderKey, LockId, Rank};

fn lock_at(alloc: Global, line: &Value, place: usize) -> Result<LockId, Fault>
    ensures { reads.Gives (λ lock. lock) result (reads.lock_at place (view line.now)) }
{
    Ok(LockId {
        text: text_at(alloc, line, place)?,
    })
}

// The key whose workflow stands at a place, and its path at the other.
fn key_at(alloc: Global, line: &Value, workflow: usize, path: usize) -> Result<HolderKey, Fault>
    ensures { reads.Gives (λ key. key) result (reads.key_at workflow path (view line.now)) }
{
    Ok(HolderKey {
        workflow: text_at(alloc, line, workflow)?,
        path: path_at(alloc, line, path)?,
    })
}

fn priority_at(list: &Value, place: usize) -> Result<i32, Fault>
    ensures { reads.Gives (λ priority. priority) result (reads.priority_at place (view list.now)) }
{
    match i32::try_from(integer_at(list, place)?) {
        Ok(priority) => Ok(priority),
        Err(_) => Err(Fault::Other),
    }
}

// The rank of a key.
fn rank_of(alloc: Global, key: &HolderKey, part: &Value) -> Result<Rank, Fault>
    ensures { reads.Gives (λ rank. rank) result (reads.rank_of key.now (view part.now)) }
{
    Ok(Rank {
        priority: priority_at(part, 0)?,
        created: integer_at(part, 1)?,
        workflow: key.workflow.copy()?,
        own: key.path.sels.is_empty(),
        name: text_at(alloc, part, 2)?,
    })
}

fn rank_at(
    alloc: Global,
    key: &HolderKey,
    line: &Value,
    place: usize,
) -> Result<Shared<Rank>, Fault>
    ensures { reads.Gives (λ rank. rank) result (reads.rank_at key.now place (view line.now)) }
{
    Ok(Shared::new(alloc, rank_of(alloc, key, part_at(line, place)?)?)?)
}

fn submit_of(alloc: Global, line: &Value) -> Result<Entry, Fault>
    ensures { reads.Gives (λ entry. entry) result (reads.submit_of (view line.now)) }
{
    Ok(Entry::Submit {
        workflow: text_at(alloc, line, 1)?,
        old: text_or_null_at(alloc, line, 2)?,
        facts: facts_at(alloc, line, 3)?,
    })
}

fn write_of(alloc: Global, line: &Value) -> Result<Entry, Fault>
    ensures { reads.Gives (λ entry. entry) result (reads.write_of (view line.now)) }
{
    Ok(Entry::Write {
        workflow: text_at(alloc, line, 1)?,
        version: whole_at(line, 2)?,
        facts: facts_at(alloc, line, 3)?,
    })
}

fn create_of(alloc: Global, line: &Value) -> Result<Entry, Fault>
    ensures { reads.Gives (λ entry. entry) result (reads.create_of (view line.now)) }
{
    Ok(Entry::Create {
        workflow: text_at(alloc, line, 1)?,
        node: text_at(alloc, line, 2)?,
        path: path_at(alloc, line, 3)?,
        begin: whole_at(line, 4)?,
    })
}

fn finish_of(alloc: Global, line: &Value) -> Result<Entry, Fault>
    ensures { reads.Gives (λ entry. entry) result (reads.finish_of (view line.now)) }
{
    Ok(Entry::Finish {
        workflow: text_at(alloc, line, 1)?,
        node: text_at(alloc, line, 2)?,
        outcome: outcome_at(alloc, line, 3)?,
    })
}

fn file_of(alloc: Global, line: &Value) -> Result<Entry, Fault>
    ensures { reads.Gives (λ entry. entry) result (reads.file_of (view line.now)) }
{
    let lock = lock_at(alloc, line, 1)?;
    let key = key_at(alloc, line, 2, 3)?;
    let rank = rank_at(alloc, &key, line, 4)?;
    Ok(Entry::File { lock, key, rank })
}

fn release_of(alloc: Global, line: &Value) -> Result<Entry, Fault>
    ensures { reads.Gives (λ entry. entry) result (reads.release_of (view line.now)) }
{
    Ok(Entry::Release {
        lock: lock_at(alloc, line, 1)?,
        key: key_at(alloc, line, 2, 3)?,
    })
}

fn save_of(alloc: Global, line: &Value) -> Result<Entry, Fault>
    ensures { reads.Gives (λ entry. entry) result (reads.save_of (view line.now)) }
{
    Ok(Entry::Save {
        cache: text_at(alloc, line, 1)?,
        key: text_at(alloc, line, 2)?,
        writer: key_at(alloc, line, 3, 4)?,
        outputs: outputs_at(alloc, line, 5)?,
        tick: whole_at(line, 6)?,
    })
}

fn entry_by(alloc: Global, word: &str, line: &Value) -> Result<Entry, Fault>
    ensures { reads.Gives (λ entry. entry) result (reads.entry_by word.now (view line.now)) }
{
    match word {
        "submit" => submit_of(alloc, line),
        "write" => write_of(alloc, line),
        "create" => create_of(alloc, line),
        "finish" => finish_of(alloc, line),
        "file" => file_of(alloc, line),
        "release" => release_of(alloc, line),
        "save" => save_of(alloc, line),
        "tick" => Ok(Entry::Tick {
            to: whole_at(line, 1)?,
        }),
        _ => Err(Fault::Other),
    }
}

/// The entry of a line's value. One that is of no entry has none, or one that is written otherwise.
pub(crate) fn entry_of(alloc: Global, line: &Value) -> Result<Entry, Fault>
    ensures { reads.Gives (λ entry. entry) result (reads.entry_of (view line.now)) }
{
    entry_by(alloc, word_at(line, 0)?, line)
}
