//! How a case is read.

use crate::case::{Case, Edges};
use crate::members::{call_of, lines_of, list_of, number_or, text_of, texts_of};
use crate::outcome::Outcome;
use crate::refused::CasesRefused;
use crate::wide::wide_document;
use base_types::{Bytes, Text};
use io_edge::CallNumbers;
use serde_json::Value;
use std::alloc::Global;

// The members that a case may have.
const MEMBERS: [&str; 11] = [
    "name",
    "words",
    "input",
    "wide",
    "length",
    "read_fault",
    "write_fault",
    "write_room",
    "outage",
    "status",
    "output",
];

// A misspelt member is told, since many of them may be absent.
fn known_members(case: &Value) -> Result<(), CasesRefused> {
    let Value::Object(members) = case else {
        return Err(CasesRefused::UnknownMember);
    };
    for name in members.keys() {
        if !MEMBERS.contains(&name.as_str()) {
            return Err(CasesRefused::UnknownMember);
        }
    }
    Ok(())
}

// The document of so many groups of so many steps.
fn wide_of(alloc: Global, counts: &[Value]) -> Result<Bytes, CasesRefused> {
    let member = "wide";
    let [groups, steps] = counts else {
        return Err(CasesRefused::Member { member });
    };
    let groups = groups.as_u64().ok_or(CasesRefused::Member { member })?;
    let steps = steps.as_u64().ok_or(CasesRefused::Member { member })?;
    Ok(wide_document(alloc, groups, steps)?)
}

// The calls of the store that fail: from the first of two numbers to the second. Without them none fails.
fn outage_of(alloc: Global, case: &Value) -> Result<CallNumbers, CasesRefused> {
    let member = "outage";
    let mut failing = CallNumbers::new(alloc);
    if case.get(member).is_none() {
        return Ok(failing);
    }
    let [first, last] = list_of(case, member)? else {
        return Err(CasesRefused::Member { member });
    };
    let first = first.as_u64().ok_or(CasesRefused::Member { member })?;
    let last = last.as_u64().ok_or(CasesRefused::Member { member })?;
    for call in first..=last {
        failing.push(call)?;
    }
    Ok(failing)
}

// The input: a text as it is, another JSON value in its compact text, or a wide document.
fn written_input(alloc: Global, case: &Value) -> Result<Bytes, CasesRefused> {
    match case.get("input") {
        None => wide_of(alloc, list_of(case, "wide")?),
        Some(Value::String(text)) => Ok(Bytes::from_slice(alloc, text.as_str().as_bytes())?),
        Some(value) => Ok(Bytes::from_vec(value.to_string(alloc)?.into_bytes())),
    }
}

// The input, with spaces behind it up to so many bytes.
fn input_of(alloc: Global, case: &Value) -> Result<Bytes, CasesRefused> {
    let mut input = written_input(alloc, case)?;
    let length = number_or(case, "length", 0)?;
    for _ in input.len() as u64..length {
        input.push(b' ')?;
    }
    Ok(input)
}

fn edges_of(alloc: Global, case: &Value) -> Result<Edges, CasesRefused> {
    let room = number_or(case, "write_room", 65_536)?;
    Ok(Edges {
        read_fault: call_of(alloc, case, "read_fault")?,
        write_fault: call_of(alloc, case, "write_fault")?,
        write_room: room as usize,
        outage: outage_of(alloc, case)?,
    })
}

/// The case that a JSON object says.
pub(crate) fn read_case(alloc: Global, case: &Value) -> Result<Case, CasesRefused> {
    known_members(case)?;
    Ok(Case {
        name: Text::from_text(alloc, text_of(case, "name")?)?,
        words: texts_of(alloc, case, "words")?,
        input: input_of(alloc, case)?,
        edges: edges_of(alloc, case)?,
        expected: Outcome {
            status: number_or(case, "status", 0)?,
            output: lines_of(alloc, case, "output")?,
        },
    })
}
