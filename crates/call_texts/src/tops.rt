//! The scopes of a workflow as a whole.

ghost use Rattle.std.specs.Prelude.{◌≡◌, ◌++◌, map, codes, IfOk};
ghost use Rattle.scopes.specs.Substitution.{said as meant_by};
ghost use Rattle.scopes.specs.Values.{HasValuesOf};
ghost use Rattle.meaning.specs.Lines.{status_tag};
ghost use Rattle.meaning.specs.Trees as trees;
ghost use Rattle.call_texts.specs.Inside.Params.{param_in};

use crate::{Halt, said};
use base_types::{Memory, Text, TryCopy};
use scopes::{Scope, Tags};
use std::alloc::Global;
use tag_text::TagText;
use tree_types::{Param, Params, Phase};
use wf_manifest::{Argument, Arguments, Manifest};

/// The scope of an exit handler, where the entrypoint's node has this phase: `workflow.status` over the workflow's tags.
pub fn status_scope(alloc: Global, globals: &Scope, phase: Phase) -> Result<Scope, Memory>
    ensures { IfOk result (λ scope.
        HasValuesOf scope (status_tag (codes "workflow") phase ++ globals.now)) }
{
    let tag = Text::from_text(alloc, "workflow.status")?;
    let value = Text::from_text(alloc, phase.word())?;
    let mut tags = Tags::new(alloc);
    tags.add(tag, value)?;
    globals.with(tags)
}

/// The scope of a workflow's tags. In its arguments `workflow.name` alone has a value, and one with another tag says
/// nothing.
pub fn workflow_scope(alloc: Global, manifest: &Manifest) -> Result<Scope, Memory>
    ensures { IfOk result (λ scope. HasValuesOf scope (trees.globals_of manifest.now)) }
{
    let params = workflow_params(alloc, manifest)?;
    Scope::of(Tags::of_workflow(alloc, &manifest.name, &params)?)
}

// What the arguments of a workflow say.
fn workflow_params(alloc: Global, manifest: &Manifest) -> Result<Params, Memory>
    ensures { IfOk result (λ params.
        params ≡ map (trees.workflow_param manifest.now) manifest.now.arguments) }
{
    let name = Scope::of(Tags::of_workflow(alloc, &manifest.name, &Params::new(alloc))?)?;
    params_said(alloc, &name, &manifest.arguments)
}

fn params_said(alloc: Global, scope: &Scope, arguments: &Arguments) -> Result<Params, Memory>
    ensures { IfOk result (λ params. params ≡ map (param_in scope.now) arguments.now) }
{
    let mut params = Params::new(alloc);
    for i in 0..arguments.len() {
        params.push(param_said(alloc, scope, arguments.get(i))?)?;
    }
    Ok(params)
}

fn param_said(alloc: Global, scope: &Scope, argument: &Argument) -> Result<Param, Memory>
    ensures { IfOk result (λ param. param ≡ param_in scope.now argument.now) }
{
    Ok(Param {
        name: argument.name.copy()?,
        value: said_or_empty(alloc, &argument.value, scope)?,
    })
}

fn said_or_empty(alloc: Global, text: &TagText, scope: &Scope) -> Result<Text, Memory>
    ensures { IfOk result (λ value. value ≡ trees.found_or_empty (meant_by scope.now text.now)) }
{
    match said(text, scope) {
        Ok(text) => Ok(text),
        Err(Halt::Fault(_)) => Ok(Text::new(alloc)?),
        Err(Halt::Memory) => Err(Memory),
    }
}
