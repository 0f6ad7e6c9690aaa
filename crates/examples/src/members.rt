//! The members of a case, by their kinds.

use crate::refused::CasesRefused;
use base_types::{Bytes, Names, Text};
use io_edge::CallNumbers;
use serde_json::Value;
use std::alloc::Global;

/// A member that is a text.
pub(crate) fn text_of<'a>(case: &'a Value, member: &'static str) -> Result<&'a str, CasesRefused> {
    match case.get(member) {
        Some(Value::String(text)) => Ok(text.as_str()),
        _ => Err(CasesRefused::Member { member }),
    }
}

/// A member that is a whole number, and `otherwise` where it is absent.
pub(crate) fn number_or(
    case: &Value,
    member: &'static str,
    otherwise: u64,
) -> Result<u64, CasesRefused> {
    match case.get(member) {
        None => Ok(otherwise),
        Some(value) => value.as_u64().ok_or(CasesRefused::Member { member }),
    }
}

/// A member that is a list.
pub(crate) fn list_of<'a>(
    case: &'a Value,
    member: &'static str,
) -> Result<&'a [Value], CasesRefused> {
    match case.get(member) {
        Some(Value::Array(items)) => Ok(items.as_slice()),
        _ => Err(CasesRefused::Member { member }),
    }
}

/// A member that is a list of texts.
pub(crate) fn texts_of(
    alloc: Global,
    case: &Value,
    member: &'static str,
) -> Result<Names, CasesRefused> {
    let mut texts = Names::new(alloc);
    for item in list_of(case, member)? {
        let Value::String(text) = item else {
            return Err(CasesRefused::Member { member });
        };
        texts.push(Text::from_text(alloc, text.as_str())?)?;
    }
    Ok(texts)
}

/// A member that is the number of the call that fails; where it is absent none does.
pub(crate) fn call_of(
    alloc: Global,
    case: &Value,
    member: &'static str,
) -> Result<CallNumbers, CasesRefused> {
    match number_or(case, member, 0)? {
        0 => Ok(CallNumbers::new(alloc)),
        number => Ok(CallNumbers::from_slice(alloc, &[number])?),
    }
}

/// A member that is a text, byte by byte, or the list of its lines.
pub(crate) fn lines_of(
    alloc: Global,
    case: &Value,
    member: &'static str,
) -> Result<Bytes, CasesRefused> {
    if let Some(Value::String(text)) = case.get(member) {
        return Ok(Bytes::from_slice(alloc, text.as_str().as_bytes())?);
    }
    let mut bytes = Bytes::new(alloc);
    let lines = texts_of(alloc, case, member)?;
    for line in lines.iter() {
        bytes.extend(line.as_str().as_bytes())?;
        bytes.extend(b"\n")?;
    }
    Ok(bytes)
}
