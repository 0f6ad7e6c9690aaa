//! Steps, and what tasks have in common with them.

ghost use Rattle.std.specs.Prelude.{◌≡◌};
ghost use Rattle.serde_json.specs.View.{view};
ghost use Rattle.field_kinds.specs.Refusing.{Reads};
ghost use Rattle.call_reader.specs.Calls as reads;

use crate::hooks::exit_hook;
use crate::loops::loop_said;
use crate::{Tagged, read_arguments};
use base_types::Text;
use base_types::limits::MOST_MEMBERS;
use field_kinds::{
    FieldPath, Fields, KindRefused, Object, UpTo, flag_or, optional, refuse_all, required_text,
    written_text_by,
};
use serde_json::Value;
use std::alloc::Global;
use tag_text::TagText;
use wf_manifest::{Arguments, Call, ContinueOn, Hook, Loop};

// The fields of `continueOn`.
struct ContinueFields;

impl Fields for ContinueFields {
    type Made = ContinueOn;

    type Around = ();

    ghost fields = { λ _. reads.continue_fields };

    #[tactic(auto, unfolding(crate::specs::Calls::continue_fields))]
    fn read_fields(
        _alloc: Global,
        continue_on: &Value,
        at: &FieldPath,
        _around: &(),
    ) -> Result<ContinueOn, KindRefused> {
        Ok(ContinueOn {
            failed: flag_or(continue_on, "failed", false, at)?,
            error: flag_or(continue_on, "error", false, at)?,
        })
    }
}

/// The first fields of a step or task.
#[derive(Drop)]
pub struct CallHead {
    pub name: Text,
    pub template: Text,
    pub arguments: Arguments,
}

/// The last fields of a step or task.
#[derive(Drop)]
pub struct CallTail {
    pub when: Option<TagText>,
    pub each: Option<Loop>,
    pub continue_on: Option<ContinueOn>,
    pub exit: Option<Hook>,
}

#[tactic(auto, unfolding(crate::specs::Calls::head_fields))]
pub(crate) fn head_fields(
    alloc: Global,
    call: &Value,
    at: &FieldPath,
) -> Result<CallHead, KindRefused>
    ensures { Reads result (reads.head_fields at.now (view call.now)) }
{
    refuse_all(call, &["templateRef", "inline"], at)?;
    Ok(CallHead {
        name: required_text(alloc, call, "name", at)?,
        template: required_text(alloc, call, "template", at)?,
        arguments: read_arguments(alloc, call, at)?,
    })
}

#[tactic(auto, unfolding(crate::specs::Calls::tail_fields))]
pub(crate) fn tail_fields(
    alloc: Global,
    call: &Value,
    at: &FieldPath,
) -> Result<CallTail, KindRefused>
    ensures { Reads result (reads.tail_fields at.now (view call.now)) }
{
    Ok(CallTail {
        when: written_text_by::<Tagged>(alloc, call, "when", at)?,
        each: loop_said(alloc, call, at)?,
        continue_on: optional::<Object<ContinueFields>>(alloc, call, "continueOn", at, &())?,
        exit: exit_hook(alloc, call, at)?,
    })
}

pub(crate) fn call_of(head: CallHead, tail: CallTail) -> Call
    ensures { result ≡ reads.call_of head tail }
{
    Call {
        name: head.name,
        template: head.template,
        arguments: head.arguments,
        when: tail.when,
        each: tail.each,
        continue_on: tail.continue_on,
        exit: tail.exit,
    }
}

/// The fields of a step.
pub struct StepFields;

impl Fields for StepFields {
    type Made = Call;

    type Around = ();

    ghost fields = { λ _. reads.step_fields };

    #[tactic(auto, unfolding(crate::specs::Calls::step_fields))]
    fn read_fields(
        alloc: Global,
        step: &Value,
        at: &FieldPath,
        _around: &(),
    ) -> Result<Call, KindRefused> {
        let head = head_fields(alloc, step, at)?;
        let tail = tail_fields(alloc, step, at)?;
        Ok(call_of(head, tail))
    }
}

/// Groups of steps.
pub type StepGroups = UpTo<UpTo<Object<StepFields>, MOST_MEMBERS>, MOST_MEMBERS>;
