//! Workflows as a whole.

ghost use Rattle.std.specs.Prelude.{◌≡◌};
ghost use Rattle.serde_json.specs.View.{view};
ghost use Rattle.field_kinds.specs.Refusing.{Reads};
ghost use Rattle.wf_reader.specs.Workflows as reads;

use crate::limits::{LEAST_PRIORITY, MOST_PRIORITY};
use crate::metadata::Metadata;
use base_types::Text;
use base_types::limits::MOST_MEMBERS;
use call_reader::read_arguments;
use field_kinds::{
    FieldPath, Fields, KindRefused, Object, Readable, UpTo, refuse_all, required, required_text,
    whole_or, written_text,
};
use serde_json::Value;
use std::alloc::Global;
use template_reader::{TemplateFields, read_lock};
use tree_types::LockId;
use wf_manifest::{Arguments, Manifest, Templates};

/// What the `spec` says before its templates.
#[derive(Drop)]
pub struct SpecHead {
    pub entrypoint: Text,
    pub arguments: Arguments,
    pub priority: i32,
    pub on_exit: Option<Text>,
    pub lock: Option<LockId>,
}

/// What the `spec` says.
#[derive(Drop)]
pub struct Spec {
    pub head: SpecHead,
    pub templates: Templates,
}

type AllTemplates = UpTo<Object<TemplateFields>, MOST_MEMBERS>;

#[tactic(auto, unfolding(crate::specs::Workflows::spec_refused))]
fn spec_refused(spec: &Value, at: &FieldPath) -> Result<(), KindRefused>
    ensures { Reads result (reads.spec_refused at.now (view spec.now)) }
{
    refuse_all(
        spec,
        &["workflowTemplateRef", "suspend", "shutdown", "hooks"],
        at,
    )?;
    refuse_all(
        spec,
        &[
            "templateDefaults",
            "parallelism",
            "activeDeadlineSeconds",
            "retryStrategy",
        ],
        at,
    )
}

#[tactic(auto, unfolding(crate::specs::Workflows::head_fields))]
fn head_fields(
    alloc: Global,
    spec: &Value,
    at: &FieldPath,
    namespace: &Text,
) -> Result<SpecHead, KindRefused>
    ensures { Reads result (reads.head_fields namespace.now at.now (view spec.now)) }
{
    spec_refused(spec, at)?;
    Ok(SpecHead {
        entrypoint: required_text(alloc, spec, "entrypoint", at)?,
        arguments: read_arguments(alloc, spec, at)?,
        priority: whole_or(spec, "priority", LEAST_PRIORITY, MOST_PRIORITY, 0, at)? as i32,
        on_exit: written_text(alloc, spec, "onExit", at)?,
        lock: read_lock(alloc, spec, at, namespace)?,
    })
}

impl Fields for Spec {
    type Made = Spec;

    type Around = Text;

    ghost fields = { λ namespace. reads.spec_fields namespace };

    #[tactic(auto, unfolding(crate::specs::Workflows::spec_fields))]
    fn read_fields(
        alloc: Global,
        spec: &Value,
        at: &FieldPath,
        namespace: &Text,
    ) -> Result<Spec, KindRefused> {
        Ok(Spec {
            head: head_fields(alloc, spec, at, namespace)?,
            templates: required::<AllTemplates>(alloc, spec, "templates", at, namespace)?,
        })
    }
}

fn manifest_of(metadata: Metadata, head: SpecHead, templates: Templates) -> Manifest
    ensures { result ≡ reads.manifest_of metadata head templates }
{
    Manifest {
        name: metadata.name,
        namespace: metadata.namespace,
        created: metadata.created,
        priority: head.priority,
        entrypoint: head.entrypoint,
        on_exit: head.on_exit,
        arguments: head.arguments,
        lock: head.lock,
        templates,
    }
}

// The fields of a workflow.
struct WorkflowFields;

impl Fields for WorkflowFields {
    type Made = Manifest;

    type Around = u32;

    ghost fields = { λ item. reads.workflow_fields item };

    #[tactic(auto, unfolding(crate::specs::Workflows::workflow_fields))]
    fn read_fields(
        alloc: Global,
        workflow: &Value,
        at: &FieldPath,
        item: &u32,
    ) -> Result<Manifest, KindRefused> {
        let metadata = required::<Object<Metadata>>(alloc, workflow, "metadata", at, item)?;
        let spec = required::<Object<Spec>>(alloc, workflow, "spec", at, &metadata.namespace)?;
        Ok(manifest_of(metadata, spec.head, spec.templates))
    }
}

/// The manifest of a workflow, as it stands at a path of the document, or the first refusal of what it says. `item` is
/// its position in the document, by which a name is made where it has only the prefix of one. What `apiVersion` and
/// `kind` must be is not asked here.
pub fn read_workflow(
    alloc: Global,
    item: u32,
    value: &Value,
    at: &FieldPath,
) -> Result<Manifest, KindRefused>
    ensures { Reads result (reads.workflow item at.now (view value.now)) }
{
    Object::<WorkflowFields>::read(alloc, value, at, &item)
}
