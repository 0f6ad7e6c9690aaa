//! A document that is too wide to be written out.

use base_types::{Bytes, Memory};
use std::alloc::Global;

// What stands before the groups.
const HEAD: &[u8] = br#"{"kind":"List","items":[
    {"apiVersion":"argoproj.io/v1alpha1","kind":"Workflow","metadata":{"name":"wide"},
    "spec":{"entrypoint":"main","templates":[{"name":"c","container":{}},{"name":"main","steps":["#;

// What stands behind them.
const TAIL: &[u8] = br#"]}]}},{"kind":"PodOutcomes","default":{"phase":"Succeeded"}}]}"#;

/// A document whose workflow `wide` has so many groups of so many steps.
pub(crate) fn wide_document(alloc: Global, groups: u64, steps: u64) -> Result<Bytes, Memory> {
    let mut text = Bytes::from_slice(alloc, HEAD)?;
    for group in 0..groups {
        text.extend(if group == 0 { b"[" } else { b",[" })?;
        for step in 0..steps {
            let comma = if step == 0 { "" } else { "," };
            let call = format!(in alloc;
                "{comma}{{\"name\":\"s{group}-{step}\",\"template\":\"c\"}}"
            )?;
            text.extend(call.as_bytes())?;
        }
        text.extend(b"]")?;
    }
    text.extend(TAIL)?;
    Ok(text)
}
