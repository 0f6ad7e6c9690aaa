//! The parts of a line, read from a JSON list.

ghost use Rattle.std.specs.Prelude.{◌≡◌, map};
ghost use Rattle.serde_json.specs.View.{view};
ghost use Rattle.history_text.specs.Inside.Reading as reads;

use crate::fault::Fault;
use crate::left::Left;
use crate::read_path::path_of;
use base_types::{Shared, Text};
use serde_json::Value;
use std::alloc::Global;
use tree_types::{Outcome, Outputs, Param, Params, Path, Phase};

/// The part at a place.
pub(crate) fn part_at(list: &Value, place: usize) -> Result<&Value, Fault>
    ensures { reads.Gives (λ part. view part.now) result (reads.part_at place (view list.entry.now)) }
{
    match list.get(place) {
        Some(part) => Ok(part),
        None => Err(Fault::Other),
    }
}

pub(crate) fn word_at(list: &Value, place: usize) -> Result<&str, Fault>
    ensures { reads.Gives (λ word. word.now) result (reads.text_at place (view list.entry.now)) }
{
    match part_at(list, place)?.as_str() {
        Some(word) => Ok(word),
        None => Err(Fault::Other),
    }
}

pub(crate) fn text_at(alloc: Global, list: &Value, place: usize) -> Result<Text, Fault>
    ensures { reads.Gives (λ text. text) result (reads.text_at place (view list.now)) }
{
    Ok(Text::from_text(alloc, word_at(list, place)?)?)
}

pub(crate) fn text_or_null_at(
    alloc: Global,
    list: &Value,
    place: usize,
) -> Result<Option<Text>, Fault>
    ensures { reads.Gives (λ text. text) result (reads.text_or_null_at place (view list.now)) }
{
    match part_at(list, place)? {
        Value::Null => Ok(None),
        Value::String(text) => Ok(Some(Text::from_text(alloc, text.as_str())?)),
        _ => Err(Fault::Other),
    }
}

pub(crate) fn whole_at(list: &Value, place: usize) -> Result<u64, Fault>
    ensures { reads.Gives (λ whole. whole) result (reads.whole_at place (view list.now)) }
{
    match part_at(list, place)?.as_u64() {
        Some(whole) => Ok(whole),
        None => Err(Fault::Other),
    }
}

pub(crate) fn integer_at(list: &Value, place: usize) -> Result<i64, Fault>
    ensures { reads.Gives (λ integer. integer) result (reads.integer_at place (view list.now)) }
{
    match part_at(list, place)?.as_i64() {
        Some(integer) => Ok(integer),
        None => Err(Fault::Other),
    }
}

fn flag_at(list: &Value, place: usize) -> Result<bool, Fault>
    ensures { reads.Gives (λ flag. flag) result (reads.flag_at place (view list.now)) }
{
    match part_at(list, place)?.as_bool() {
        Some(flag) => Ok(flag),
        None => Err(Fault::Other),
    }
}

pub(crate) fn path_at(alloc: Global, list: &Value, place: usize) -> Result<Path, Fault>
    ensures { reads.Gives (λ path. path) result (reads.path_at place (view list.now)) }
{
    path_of(alloc, word_at(list, place)?)
}

/// The parts of the list that stands at a place.
pub(crate) fn parts_at(list: &Value, place: usize) -> Result<&[Value], Fault>
    ensures { reads.Gives (λ parts. map view parts.now) result (reads.parts_at place (view list.entry.now)) }
{
    match part_at(list, place)?.as_array() {
        Some(parts) => Ok(parts.as_slice()),
        None => Err(Fault::Other),
    }
}

fn param_of(alloc: Global, part: &Value) -> Result<Param, Fault>
    ensures { reads.Gives (λ param. param) result (reads.param_of (view part.now)) }
{
    Ok(Param {
        name: text_at(alloc, part, 0)?,
        value: text_at(alloc, part, 1)?,
    })
}

fn params_of(alloc: Global, parts: &[Value]) -> Result<Params, Fault>
    ensures { reads.Gives (λ params. params) result (reads.all_of reads.param_of (map view parts.now)) }
{
    let mut params = Params::new(alloc);
    for part in parts {
        match param_of(alloc, part) {
            Ok(param) => params.push(param)?,
            Err(fault) => return Err(fault),
        }
    }
    Ok(params)
}

fn params_at(alloc: Global, list: &Value, place: usize) -> Result<Params, Fault>
    ensures { reads.Gives (λ params. params) result (reads.params_at place (view list.now)) }
{
    params_of(alloc, parts_at(list, place)?)
}

fn outputs_of(alloc: Global, part: &Value) -> Result<Outputs, Fault>
    ensures { reads.Gives (λ outputs. outputs) result (reads.outputs_of (view part.now)) }
{
    Ok(Outputs {
        result: text_or_null_at(alloc, part, 0)?,
        params: params_at(alloc, part, 1)?,
    })
}

pub(crate) fn outputs_at(
    alloc: Global,
    list: &Value,
    place: usize,
) -> Result<Shared<Outputs>, Fault>
    ensures { reads.Gives (λ outputs. outputs) result (reads.outputs_at place (view list.now)) }
{
    Ok(Shared::new(alloc, outputs_of(alloc, part_at(list, place)?)?)?)
}

fn end_of(word: &str) -> Result<Phase, Fault>
    ensures { reads.Gives (λ phase. phase) result (reads.end_of word.now) }
{
    match word {
        "Succeeded" => Ok(Phase::Succeeded),
        "Failed" => Ok(Phase::Failed),
        "Error" => Ok(Phase::Error),
        _ => Err(Fault::Other),
    }
}

fn left_of(alloc: Global, part: &Value) -> Result<Left, Fault>
    ensures { reads.Gives (λ left. left) result (reads.left_of (view part.now)) }
{
    Ok(Left {
        result: text_or_null_at(alloc, part, 1)?,
        params: params_at(alloc, part, 2)?,
        transient: flag_at(part, 3)?,
        begin: whole_at(part, 4)?,
        finish: whole_at(part, 5)?,
    })
}

fn outcome_by(phase: Phase, left: Left) -> Result<Outcome, Fault>
    ensures { reads.Gives (λ outcome. outcome) result (reads.outcome_by phase left) }
{
    match phase {
        Phase::Succeeded | Phase::Failed | Phase::Error => Ok(Outcome {
            phase,
            result: left.result,
            params: left.params,
            transient: left.transient,
            begin: left.begin,
            finish: left.finish,
        }),
        _ => Err(Fault::Other),
    }
}

fn outcome_of(alloc: Global, part: &Value) -> Result<Outcome, Fault>
    ensures { reads.Gives (λ outcome. outcome) result (reads.outcome_of (view part.now)) }
{
    let phase = end_of(word_at(part, 0)?)?;
    outcome_by(phase, left_of(alloc, part)?)
}

pub(crate) fn outcome_at(
    alloc: Global,
    list: &Value,
    place: usize,
) -> Result<Shared<Outcome>, Fault>
    ensures { reads.Gives (λ outcome. outcome) result (reads.outcome_at place (view list.now)) }
{
    Ok(Shared::new(alloc, outcome_of(alloc, part_at(list, place)?)?)?)
}
