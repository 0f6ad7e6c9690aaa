//! What an order asks for of a document, and the document that an input is.

ghost use Rattle.std.specs.Prelude.{◌≡◌, ◌≤◌, true, IfOk, MatchOption, Ok};
ghost use Rattle.serde_json.specs.View.{view as data_of};
ghost use Rattle.base_types.specs.Limits.{most_size};
ghost use Rattle.generator.specs.Bundles.{bundle};
ghost use Rattle.wf_bundle.specs.Documents.{document_of};
ghost use Rattle.wf_program.specs.Answers.{IsJsonOf, IsNoJson};
ghost use Rattle.wf_program.specs.Runs.{reads_input};
ghost use Rattle.wf_program.specs.Inside.Ends.{AsksOf, AsksOfNumber, IsSound, OfDocument, OfValue};

use crate::asked::Asked;
use crate::status::Status;
use crate::texts::{Made, not_json_text, refused_text, valid_text};
use base_types::Memory;
use command_words::{Mode, Order};
use document_laws::laws::{hands_are_there, names_differ, workflows_valid};
use generated_laws::laws::are_documents;
use generator::{make_bundle, print_bundle};
use run_texts::Shown;
use serde_json::Value;
use std::alloc::Global;
use wf_bundle::{BundleRefused, Document, read_bundle};

// The JSON value of which these bytes are the text, if there is one.
fn read_json(alloc: Global, bytes: &[u8]) -> Result<Option<Value>, Memory>
    ensures { IfOk result
        (λ found. MatchOption found (IsNoJson bytes.now) (λ value. IsJsonOf bytes.now (data_of value))) }
{
    match Value::from_slice(alloc, bytes) {
        Ok(value) => Ok(Some(value)),
        Err(error) if error.is_memory() => Err(Memory),
        Err(_) => Ok(None),
    }
}

// What an order of a mode that reads asks for of a document.
fn of_document(alloc: Global, order: Order, document: Document) -> Result<Asked, Status>
    requires { reads_input order.mode ≡ true }
    ensures { OfDocument order document result }
{
    match order.mode {
        Mode::Check => Ok(Asked::Told(Made {
            status: Status::Done,
            text: valid_text(alloc, &document)?,
        })),
        Mode::Run | Mode::Simulate => Ok(Asked::Run(
            order.mode,
            document,
            Shown {
                summary: order.summary,
                history: order.history,
            },
        )),
        Mode::Generate => unreachable!(),
    }
}

// What an order asks for of a JSON value.
fn of_value(alloc: Global, order: Order, value: &Value) -> Result<Asked, Status>
    requires { reads_input order.mode ≡ true }
    ensures { OfValue order (data_of value.now) result }
{
    names_differ();
    workflows_valid();
    hands_are_there();
    match read_bundle(alloc, value) {
        Ok(document) => of_document(alloc, order, document),
        Err(BundleRefused::Rule { item, rule, field }) => Ok(Asked::Told(Made {
            status: Status::Refused,
            text: refused_text(alloc, item, rule, &field)?,
        })),
        Err(BundleRefused::Memory) => Err(Status::Memory),
    }
}

/// What an order asks for of the whole input.
pub(crate) fn of_input(alloc: Global, order: Order, input: &[u8]) -> Result<Asked, Status>
    requires { reads_input order.mode ≡ true }
    ensures { AsksOf order input.now result }
{
    match read_json(alloc, input)? {
        Some(value) => of_value(alloc, order, &value),
        None => Ok(Asked::Told(Made {
            status: Status::NotJson,
            text: not_json_text(alloc, input.len())?,
        })),
    }
}

// The document that is made by a number.
fn generated(alloc: Global, order: Order) -> Result<Document, Memory>
    requires { order.size ≤ most_size }
    ensures reads { IfOk result (λ document. document_of (bundle order.seed order.size) ≡ Ok document) }
    ensures sound { IfOk result (λ document. IsSound document) }
{
    are_documents();
    names_differ();
    workflows_valid();
    hands_are_there();
    let value = make_bundle(alloc, order.seed, order.size)?;
    match read_bundle(alloc, &value) {
        Ok(document) => Ok(document),
        Err(BundleRefused::Memory) => Err(Memory),
        Err(
            BundleRefused::Rule {
                item: _,
                rule: _,
                field: _,
            },
        ) => unreachable!(),
    }
}

/// What an order to generate asks for: the document itself, or the summary of its run.
pub(crate) fn of_number(alloc: Global, order: Order) -> Result<Asked, Status>
    requires { order.size ≤ most_size }
    ensures { AsksOfNumber order result }
{
    if order.bundle {
        let mut text = print_bundle(alloc, order.seed, order.size)?;
        text.extend(b"\n")?;
        return Ok(Asked::Told(Made {
            status: Status::Done,
            text,
        }));
    }
    Ok(Asked::Run(
        Mode::Generate,
        generated(alloc, order)?,
        Shown {
            summary: true,
            history: false,
        },
    ))
}
