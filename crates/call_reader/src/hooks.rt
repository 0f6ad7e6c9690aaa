//! Exit hooks.

ghost use Rattle.std.specs.Prelude.{◌≡◌, ◌&&◌};
ghost use Rattle.serde_json.specs.View.{view};
ghost use Rattle.field_kinds.specs.Refusing.{Reads};
ghost use Rattle.call_reader.specs.Calls as reads;

use crate::read_arguments;
use base_types::{List, Text};
use field_kinds::{
    FieldPath, Fields, KindRefused, Object, has, optional, refuse_all, refuse_but, required_text,
    unsupported_if, written_text,
};
use serde_json::Value;
use std::alloc::Global;
use wf_manifest::Hook;

// The fields of a hook.
struct HookFields;

impl Fields for HookFields {
    type Made = Hook;

    type Around = ();

    ghost fields = { λ _. reads.hook_fields };

    #[tactic(auto, unfolding(crate::specs::Calls::hook_fields))]
    fn read_fields(
        alloc: Global,
        hook: &Value,
        at: &FieldPath,
        _around: &(),
    ) -> Result<Hook, KindRefused> {
        refuse_all(hook, &["templateRef", "expression"], at)?;
        Ok(Hook {
            template: required_text(alloc, hook, "template", at)?,
            arguments: read_arguments(alloc, hook, at)?,
            short: false,
        })
    }
}

/// The hooks of a step or task that are read.
#[derive(Drop)]
pub struct Hooks {
    exit: Option<Hook>,
}

impl Fields for Hooks {
    type Made = Hooks;

    type Around = ();

    ghost fields = { λ _. reads.hooks_fields };

    #[tactic(auto, unfolding(crate::specs::Calls::hooks_fields))]
    fn read_fields(
        alloc: Global,
        hooks: &Value,
        at: &FieldPath,
        _around: &(),
    ) -> Result<Hooks, KindRefused> {
        refuse_but(hooks, "exit", at)?;
        Ok(Hooks {
            exit: optional::<Object<HookFields>>(alloc, hooks, "exit", at, &())?,
        })
    }
}

fn has_exit_hook(call: &Value) -> bool
    ensures { result ≡ reads.has_exit_hook (view call.now) }
{
    match call.get("hooks") {
        None => false,
        Some(hooks) => has(hooks, "exit"),
    }
}

fn both(one: bool, other: bool) -> bool
    ensures { result ≡ (one && other) }
{
    one && other
}

fn hook_of(alloc: Global, short: Option<Text>, hooks: Option<Hooks>) -> Option<Hook>
    ensures { result ≡ reads.hook_of short hooks }
{
    match short {
        Some(template) => Some(Hook {
            template,
            arguments: List::new(alloc),
            short: true,
        }),
        None => match hooks {
            Some(hooks) => hooks.exit,
            None => None,
        },
    }
}

// The exit hook of a step or task.
#[tactic(auto, unfolding(crate::specs::Calls::exit_hook))]
pub(crate) fn exit_hook(
    alloc: Global,
    call: &Value,
    at: &FieldPath,
) -> Result<Option<Hook>, KindRefused>
    ensures { Reads result (reads.exit_hook at.now (view call.now)) }
{
    let short = written_text(alloc, call, "onExit", at)?;
    unsupported_if(
        both(short.is_some(), has_exit_hook(call)),
        &at.field("onExit")?,
    )?;
    let hooks = optional::<Object<Hooks>>(alloc, call, "hooks", at, &())?;
    Ok(hook_of(alloc, short, hooks))
}
