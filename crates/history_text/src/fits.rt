//! A law: what the types of entries hold. Its functions do nothing; their contracts are the law.

ghost use Rattle.std.specs.Prelude.{ℕ, ◌^◌, ◌<◌, IsUtf8, IfSome, FitsSigned};
ghost use Rattle.std.specs.Int.{w32, w64};
ghost use Rattle.std.specs.List.{AllByRecursion};
ghost use Rattle.history_text.specs.Readable as readable;

use base_types::{Shared, Text};
use tree_types::{
    Entries, Entry, Fact, Facts, HolderKey, Outcome, Outputs, Param, Params, Path, Rank, Sel,
};

fn is_utf8(text: &Text)
    ensures { IsUtf8 text.now }
{
    let _ = text.as_str();
}

fn is_utf8_or_none(text: &Option<Text>)
    ensures { IfSome text.now IsUtf8 }
{
    if let Some(text) = text {
        is_utf8(text);
    }
}

fn has_64_bits(_whole: u64)
    ensures { _whole < 2 ^ 64 }
{}

fn has_32_signed_bits(_integer: i32)
    ensures { FitsSigned w32 _integer }
{}

fn has_64_signed_bits(_integer: i64)
    ensures { FitsSigned w64 _integer }
{}

fn sel_fits(sel: Sel)
    ensures { readable.FitsSel sel }
{
    match sel {
        Sel::Main | Sel::Exit => {}
        Sel::Group(_) | Sel::Step(_) | Sel::Task(_) | Sel::Item(_) | Sel::Attempt(_) => {}
    }
}

fn path_fits(path: &Path)
    ensures { readable.FitsPath path.now }
{
    let sels = path.sels.as_slice();
    for sel in sels {
        sel_fits(*sel);
    }
}

fn param_fits(param: &Param)
    ensures { readable.FitsParam param.now }
{
    is_utf8(&param.name);
    is_utf8(&param.value);
}

fn params_fit(params: &Params)
    ensures { AllByRecursion readable.FitsParam params.now }
{
    let params = params.as_slice();
    for param in params {
        param_fits(param);
    }
}

fn outputs_fit(outputs: &Outputs)
    ensures { readable.FitsOutputs outputs.now }
{
    is_utf8_or_none(&outputs.result);
    params_fit(&outputs.params);
}

fn outcome_fits(outcome: &Outcome)
    ensures { readable.FitsOutcome outcome.now }
{
    is_utf8_or_none(&outcome.result);
    params_fit(&outcome.params);
    has_64_bits(outcome.begin);
    has_64_bits(outcome.finish);
}

fn answer_fits(answer: &Option<Shared<Outputs>>)
    ensures { IfSome answer.now readable.FitsOutputs }
{
    if let Some(outputs) = answer {
        outputs_fit(outputs.value());
    }
}

fn fact_fits(fact: &Fact)
    ensures { readable.FitsFact fact.now }
{
    match fact {
        Fact::Started => {}
        Fact::Settled(path, outcome) | Fact::Carried(path, outcome) => {
            path_fits(path);
            outcome_fits(outcome.value());
        }
        Fact::Memo(path, answer) => {
            path_fits(path);
            answer_fits(answer);
        }
        Fact::Armed(path, tick) => {
            path_fits(path);
            has_64_bits(*tick);
        }
        Fact::Granted(path) | Fact::Due(path) | Fact::Resumed(path) | Fact::Begun(path) => {
            path_fits(path)
        }
    }
}

fn facts_fit(facts: &Facts)
    ensures { AllByRecursion readable.FitsFact facts.now }
{
    let facts = facts.as_slice();
    for fact in facts {
        fact_fits(fact);
    }
}

fn key_fits(key: &HolderKey)
    ensures { readable.FitsKey key.now }
{
    is_utf8(&key.workflow);
    path_fits(&key.path);
}

fn rank_fits(rank: &Rank)
    ensures { readable.FitsRank rank.now }
{
    has_32_signed_bits(rank.priority);
    has_64_signed_bits(rank.created);
    is_utf8(&rank.name);
}

/// What the types of an entry hold.
pub(crate) fn entry_fits(entry: &Entry)
    ensures { readable.FitsEntry entry.now }
{
    match entry {
        Entry::Submit {
            workflow,
            old,
            facts,
        } => {
            is_utf8(workflow);
            is_utf8_or_none(old);
            facts_fit(facts);
        }
        Entry::Write {
            workflow,
            version,
            facts,
        } => {
            is_utf8(workflow);
            has_64_bits(*version);
            facts_fit(facts);
        }
        Entry::Create {
            workflow,
            node,
            path,
            begin,
        } => {
            is_utf8(workflow);
            is_utf8(node);
            path_fits(path);
            has_64_bits(*begin);
        }
        Entry::Finish {
            workflow,
            node,
            outcome,
        } => {
            is_utf8(workflow);
            is_utf8(node);
            outcome_fits(outcome.value());
        }
        Entry::File { lock, key, rank } => {
            is_utf8(&lock.text);
            key_fits(key);
            rank_fits(rank.value());
        }
        Entry::Release { lock, key } => {
            is_utf8(&lock.text);
            key_fits(key);
        }
        Entry::Save {
            cache,
            key,
            writer,
            outputs,
            tick,
        } => {
            is_utf8(cache);
            is_utf8(key);
            key_fits(writer);
            outputs_fit(outputs.value());
            has_64_bits(*tick);
        }
        Entry::Tick { to } => has_64_bits(*to),
    }
}

/// The texts of each entry are in UTF-8, and its numbers have the bits of their types.
pub(crate) fn entries_fit(entries: &Entries)
    ensures { AllByRecursion readable.FitsEntry entries.now }
{
    let entries = entries.as_slice();
    for entry in entries {
        entry_fits(entry);
    }
}
