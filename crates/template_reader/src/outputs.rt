//! Declared output parameters.

ghost use Rattle.std.specs.Prelude.{◌≡◌};
ghost use Rattle.serde_json.specs.View.{view};
ghost use Rattle.field_kinds.specs.Refusing.{Reads};
ghost use Rattle.template_reader.specs.Templates as reads;

use crate::bodies::{BodyKind, is_inner, is_no_pod, is_not_inner, is_pod};
use base_types::limits::MOST_MEMBERS;
use base_types::{List, Text};
use call_reader::Tagged;
use field_kinds::{
    FieldPath, Fields, KindRefused, Object, list_or_empty, optional, optional_text, refuse_all,
    refuse_if, required, required_text, text_by_if, text_if,
};
use serde_json::Value;
use std::alloc::Global;
use tag_text::TagText;
use wf_manifest::{OutputDecl, OutputDecls};

/// What a `valueFrom` says.
#[derive(Drop)]
pub struct Source {
    pub path: Option<Text>,
    pub from: Option<TagText>,
    pub default: Option<Text>,
}

impl Fields for Source {
    type Made = Source;

    type Around = Option<BodyKind>;

    ghost fields = { λ body. reads.source_fields body };

    #[tactic(auto, unfolding(crate::specs::Templates::source_fields))]
    fn read_fields(
        alloc: Global,
        source: &Value,
        at: &FieldPath,
        body: &Option<BodyKind>,
    ) -> Result<Source, KindRefused> {
        refuse_all(
            source,
            &[
                "event",
                "expression",
                "jqFilter",
                "jsonPath",
                "supplied",
                "configMapKeyRef",
            ],
            at,
        )?;
        refuse_if(is_no_pod(*body), source, "path", at)?;
        refuse_if(is_not_inner(*body), source, "parameter", at)?;
        Ok(Source {
            path: text_if(is_pod(*body), alloc, source, "path", at)?,
            from: text_by_if::<Tagged>(is_inner(*body), alloc, source, "parameter", at)?,
            default: optional_text(alloc, source, "default", at)?,
        })
    }
}

// The fields of an output parameter.
struct OutputFields;

impl Fields for OutputFields {
    type Made = OutputDecl;

    type Around = Option<BodyKind>;

    ghost fields = { λ body. reads.output_fields body };

    #[tactic(auto, unfolding(crate::specs::Templates::output_fields))]
    fn read_fields(
        alloc: Global,
        output: &Value,
        at: &FieldPath,
        body: &Option<BodyKind>,
    ) -> Result<OutputDecl, KindRefused> {
        refuse_all(output, &["globalName", "value"], at)?;
        let name = required_text(alloc, output, "name", at)?;
        let source = required::<Object<Source>>(alloc, output, "valueFrom", at, body)?;
        Ok(OutputDecl {
            name,
            path: source.path,
            from: source.from,
            default: source.default,
        })
    }
}

// The fields of `outputs`.
struct OutputsFields;

impl Fields for OutputsFields {
    type Made = OutputDecls;

    type Around = Option<BodyKind>;

    ghost fields = { λ body. reads.outputs_fields body };

    #[tactic(auto, unfolding(crate::specs::Templates::outputs_fields))]
    fn read_fields(
        alloc: Global,
        outputs: &Value,
        at: &FieldPath,
        body: &Option<BodyKind>,
    ) -> Result<OutputDecls, KindRefused> {
        refuse_all(outputs, &["artifacts", "result", "exitCode"], at)?;
        list_or_empty::<Object<OutputFields>>(alloc, outputs, "parameters", MOST_MEMBERS, at, body)
    }
}

// The declared outputs of a template with this body, none where the field is absent.
pub(crate) fn read_outputs(
    alloc: Global,
    template: &Value,
    at: &FieldPath,
    body: &Option<BodyKind>,
) -> Result<OutputDecls, KindRefused>
    ensures { Reads result (reads.outputs body.now at.now (view template.now)) }
{
    match optional::<Object<OutputsFields>>(alloc, template, "outputs", at, body)? {
        Some(outputs) => Ok(outputs),
        None => Ok(List::new(alloc)),
    }
}
