//! Which body a template has, and the bodies themselves.

ghost use Rattle.std.specs.Prelude.{◌≡◌, map};
ghost use Rattle.serde_json.specs.View.{view};
ghost use Rattle.field_kinds.specs.Refusing.{Reads};
ghost use Rattle.template_reader.specs.Templates as reads;

use call_reader::{DagFields, StepGroups, Tagged};
use field_kinds::rules::MISSING;
use field_kinds::{
    FieldPath, Fields, KindRefused, Object, has, no_second, optional_by, optional_object,
    refused_at, required,
};
use serde_json::Value;
use std::alloc::Global;
use tag_text::TagText;
use wf_manifest::Body;

/// The field of a body.
#[derive(Clone, Copy, PartialEq, Eq)]
pub enum BodyKind {
    Container,
    Script,
    Steps,
    Dag,
    Suspend,
}

// The first body that is there.
pub(crate) fn first_body(template: &Value) -> Option<BodyKind>
    ensures { result ≡ reads.first_body (view template.now) }
{
    if has(template, "container") {
        Some(BodyKind::Container)
    } else if has(template, "script") {
        Some(BodyKind::Script)
    } else if has(template, "steps") {
        Some(BodyKind::Steps)
    } else if has(template, "dag") {
        Some(BodyKind::Dag)
    } else if has(template, "suspend") {
        Some(BodyKind::Suspend)
    } else {
        None
    }
}

pub(crate) fn is_pod(body: Option<BodyKind>) -> bool
    ensures { result ≡ reads.is_pod body }
{
    matches!(body, Some(BodyKind::Container) | Some(BodyKind::Script))
}

pub(crate) fn is_inner(body: Option<BodyKind>) -> bool
    ensures { result ≡ reads.is_inner body }
{
    matches!(body, Some(BodyKind::Steps) | Some(BodyKind::Dag))
}

pub(crate) fn is_suspend(body: Option<BodyKind>) -> bool
    ensures { result ≡ reads.is_suspend body }
{
    matches!(body, Some(BodyKind::Suspend))
}

// Any body but a container or a script.
pub(crate) fn is_no_pod(body: Option<BodyKind>) -> bool
    ensures { result ≡ reads.is_no_pod body }
{
    body.is_some() && !is_pod(body)
}

// Any body but steps or a DAG.
pub(crate) fn is_not_inner(body: Option<BodyKind>) -> bool
    ensures { result ≡ reads.is_not_inner body }
{
    body.is_some() && !is_inner(body)
}

// The fields of `suspend`.
struct SuspendFields;

impl Fields for SuspendFields {
    type Made = Option<TagText>;

    type Around = ();

    ghost fields = { λ _. reads.suspend_fields };

    fn read_fields(
        alloc: Global,
        suspend: &Value,
        at: &FieldPath,
        _around: &(),
    ) -> Result<Option<TagText>, KindRefused> {
        optional_by::<Tagged>(alloc, suspend, "duration", at)
    }
}

fn body_by(
    alloc: Global,
    kind: Option<BodyKind>,
    template: &Value,
    at: &FieldPath,
) -> Result<Body, KindRefused>
    ensures { Reads result (reads.body_by kind at.now (view template.now)) }
{
    match kind {
        None => Err(refused_at(MISSING, at)?),
        Some(BodyKind::Container) => {
            optional_object(template, "container", at)?;
            Ok(Body::Pod)
        }
        Some(BodyKind::Script) => {
            optional_object(template, "script", at)?;
            Ok(Body::Pod)
        }
        Some(BodyKind::Steps) => {
            let groups = required::<StepGroups>(alloc, template, "steps", at, &())?;
            Ok(Body::Steps(groups))
        }
        Some(BodyKind::Dag) => {
            let dag = required::<Object<DagFields>>(alloc, template, "dag", at, &())?;
            Ok(Body::Dag(dag))
        }
        Some(BodyKind::Suspend) => {
            let duration = required::<Object<SuspendFields>>(alloc, template, "suspend", at, &())?;
            Ok(Body::Suspend(duration))
        }
    }
}

fn no_others(template: &Value, names: &[&str], at: &FieldPath) -> Result<(), KindRefused>
    ensures { Reads result
        (reads.no_others (map (λ name. name.now) names.now) at.now (view template.now)) }
{
    for i in 0..names.len() {
        no_second(true, template, names[i], at)?;
    }
    Ok(())
}

fn none_behind(kind: Option<BodyKind>, template: &Value, at: &FieldPath) -> Result<(), KindRefused>
    ensures { Reads result (reads.no_others (reads.behind kind) at.now (view template.now)) }
{
    match kind {
        None | Some(BodyKind::Suspend) => Ok(()),
        Some(BodyKind::Container) => {
            no_others(template, &["script", "steps", "dag", "suspend"], at)
        }
        Some(BodyKind::Script) => no_others(template, &["steps", "dag", "suspend"], at),
        Some(BodyKind::Steps) => no_others(template, &["dag", "suspend"], at),
        Some(BodyKind::Dag) => no_others(template, &["suspend"], at),
    }
}

// The first body, and no second.
#[tactic(auto, unfolding(crate::specs::Templates::body_in))]
pub(crate) fn body_in(
    alloc: Global,
    kind: Option<BodyKind>,
    template: &Value,
    at: &FieldPath,
) -> Result<Body, KindRefused>
    ensures { Reads result (reads.body_in kind at.now (view template.now)) }
{
    let body = body_by(alloc, kind, template, at)?;
    none_behind(kind, template, at)?;
    Ok(body)
}
