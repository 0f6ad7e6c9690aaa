//! Templates as a whole.

ghost use Rattle.std.specs.Prelude.{◌≡◌};
ghost use Rattle.serde_json.specs.View.{view};
ghost use Rattle.field_kinds.specs.Refusing.{Reads};
ghost use Rattle.template_reader.specs.Templates as reads;

use crate::bodies::{body_in, first_body};
use crate::inputs::read_inputs;
use crate::memos::MemoizeFields;
use crate::outputs::read_outputs;
use crate::read_lock;
use crate::retries::RetryFields;
use base_types::Text;
use field_kinds::{
    FieldPath, Fields, KindRefused, Object, optional, refuse_all, refuse_unless_false,
    required_text,
};
use serde_json::Value;
use std::alloc::Global;
use tree_types::LockId;
use wf_manifest::{Body, Inputs, Memoize, OutputDecls, Retry, Template};

#[tactic(auto, unfolding(crate::specs::Templates::template_refused))]
fn template_refused(template: &Value, at: &FieldPath) -> Result<(), KindRefused>
    ensures { Reads result (reads.template_refused at.now (view template.now)) }
{
    refuse_all(
        template,
        &["http", "plugin", "data", "resource", "containerSet"],
        at,
    )?;
    refuse_unless_false(template, "daemon", at)?;
    refuse_all(
        template,
        &[
            "parallelism",
            "activeDeadlineSeconds",
            "timeout",
            "failFast",
        ],
        at,
    )
}

/// The first fields of a template.
#[derive(Drop)]
pub struct TemplateHead {
    pub name: Text,
    pub inputs: Inputs,
    pub outputs: OutputDecls,
    pub lock: Option<LockId>,
}

/// The last fields of a template.
#[derive(Drop)]
pub struct TemplateTail {
    pub memoize: Option<Memoize>,
    pub retry: Option<Retry>,
    pub body: Body,
}

#[tactic(auto, unfolding(crate::specs::Templates::head_fields))]
fn head_fields(
    alloc: Global,
    template: &Value,
    at: &FieldPath,
    namespace: &Text,
) -> Result<TemplateHead, KindRefused>
    ensures { Reads result (reads.head_fields namespace.now at.now (view template.now)) }
{
    template_refused(template, at)?;
    Ok(TemplateHead {
        name: required_text(alloc, template, "name", at)?,
        inputs: read_inputs(alloc, template, at)?,
        outputs: read_outputs(alloc, template, at, &first_body(template))?,
        lock: read_lock(alloc, template, at, namespace)?,
    })
}

#[tactic(auto, unfolding(crate::specs::Templates::tail_fields))]
fn tail_fields(alloc: Global, template: &Value, at: &FieldPath) -> Result<TemplateTail, KindRefused>
    ensures { Reads result (reads.tail_fields at.now (view template.now)) }
{
    let body = first_body(template);
    Ok(TemplateTail {
        memoize: optional::<Object<MemoizeFields>>(alloc, template, "memoize", at, &body)?,
        retry: optional::<Object<RetryFields>>(alloc, template, "retryStrategy", at, &body)?,
        body: body_in(alloc, body, template, at)?,
    })
}

fn template_of(head: TemplateHead, tail: TemplateTail) -> Template
    ensures { result ≡ reads.template_of head tail }
{
    Template {
        name: head.name,
        inputs: head.inputs,
        outputs: head.outputs,
        lock: head.lock,
        memoize: tail.memoize,
        retry: tail.retry,
        body: tail.body,
    }
}

/// The fields of a template of a workflow in this namespace.
pub struct TemplateFields;

impl Fields for TemplateFields {
    type Made = Template;

    type Around = Text;

    ghost fields = { λ namespace. reads.template_fields namespace };

    #[tactic(auto, unfolding(crate::specs::Templates::template_fields))]
    fn read_fields(
        alloc: Global,
        template: &Value,
        at: &FieldPath,
        namespace: &Text,
    ) -> Result<Template, KindRefused> {
        let head = head_fields(alloc, template, at, namespace)?;
        let tail = tail_fields(alloc, template, at)?;
        Ok(template_of(head, tail))
    }
}
