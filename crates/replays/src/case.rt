//! A case: the history of the workflows of a document, and the trees to which it leads.

ghost use Rattle.std.specs.Prelude.{All, IfOk};
ghost use Rattle.wf_manifest.specs.Valid.{Valid as IsValid};

use crate::journal::facts_of;
use crate::order::in_order;
use crate::refused::ReplaysRefused;
use crate::replay::replayed;
use base_types::{Bytes, Text};
use history_text::read_history;
use serde_json::Value;
use std::alloc::Global;
use thiserror::Error;
use tree_print::print_tree;
use tree_types::{Entries, Facts};
use wf_bundle::{Document, read_bundle};
use wf_check::Valid;

/// The entries of a history of a document's workflows, and the text of their trees at its end.
#[derive(Drop)]
pub(crate) struct Case {
    pub(crate) name: Text,
    pub(crate) entries: Entries,
    trees: Bytes,
}

/// How what comes of a case differs from what has to come.
#[derive(Debug, Drop, Error)]
pub(crate) enum Difference {
    #[error("with the facts in order {0} a tree is another than the one made anew")]
    Tree(u64),
    #[error("the last trees are others than the case has")]
    Last,
}

// Each history is replayed in the order in which it is written, and in so many others.
const ORDERS: u64 = 5;

// A member that is a text.
fn text_of<'a>(case: &'a Value, member: &'static str) -> Result<&'a str, ReplaysRefused> {
    match case.get(member) {
        Some(Value::String(text)) => Ok(text.as_str()),
        _ => Err(ReplaysRefused::Member { member }),
    }
}

// A member that is the list of the lines of a text.
fn lines_of(alloc: Global, case: &Value, member: &'static str) -> Result<Bytes, ReplaysRefused> {
    let Some(Value::Array(lines)) = case.get(member) else {
        return Err(ReplaysRefused::Member { member });
    };
    let mut bytes = Bytes::new(alloc);
    for line in lines {
        let Value::String(line) = line else {
            return Err(ReplaysRefused::Member { member });
        };
        bytes.extend(line.as_str().as_bytes())?;
        bytes.push(b'\n')?;
    }
    Ok(bytes)
}

/// The document of a case.
pub(crate) fn document_of(alloc: Global, case: &Value) -> Result<Document, ReplaysRefused>
    ensures { IfOk result (λ document. All IsValid document.workflows) }
{
    let member = "document";
    let document = case.get(member).ok_or(ReplaysRefused::Member { member })?;
    Ok(read_bundle(alloc, document)?)
}

impl Case {
    /// The case that a JSON object says, but for its document.
    pub(crate) fn read(alloc: Global, case: &Value) -> Result<Case, ReplaysRefused> {
        let history = lines_of(alloc, case, "history")?;
        Ok(Case {
            name: Text::from_text(alloc, text_of(case, "name")?)?,
            entries: read_history(alloc, history.as_slice())?,
            trees: lines_of(alloc, case, "trees")?,
        })
    }

    /// How the trees of the document's workflows differ from those that are made anew, or at the end from those of the case,
    /// if they do.
    pub(crate) fn difference(
        &self,
        alloc: Global,
        document: &Document,
    ) -> Result<Option<Difference>, ReplaysRefused>
        requires { All IsValid document.now.workflows }
    {
        let mut last = Bytes::new(alloc);
        for valid in document.workflows.as_slice() {
            let facts = facts_of(alloc, &self.entries, &valid.manifest().name)?;
            if let Some(order) = differing_order(alloc, valid, &facts)? {
                return Ok(Some(Difference::Tree(order)));
            }
            add_tree(alloc, valid, &facts, &mut last)?;
        }
        if last.as_slice() == self.trees.as_slice() {
            Ok(None)
        } else {
            Ok(Some(Difference::Last))
        }
    }
}

// The first order of the facts in which a tree on the way is another than the one made anew.
fn differing_order(
    alloc: Global,
    valid: &Valid,
    facts: &Facts,
) -> Result<Option<u64>, ReplaysRefused>
    requires { IsValid valid.now }
{
    for number in 0..=ORDERS {
        let ordered = in_order(alloc, facts, number)?;
        if replayed(alloc, valid, &ordered)?.is_none() {
            return Ok(Some(number));
        }
    }
    Ok(None)
}

// Adds the text of the workflow's tree behind these facts.
fn add_tree(
    alloc: Global,
    valid: &Valid,
    facts: &Facts,
    texts: &mut Bytes,
) -> Result<(), ReplaysRefused>
    requires { IsValid valid.now }
{
    let Some(state) = replayed(alloc, valid, facts)? else {
        return Ok(());
    };
    let told = state.tell()?;
    let text = print_tree(alloc, &valid.manifest().name, told.phase, &told.tree)?;
    texts.extend(text.as_slice())?;
    Ok(())
}
