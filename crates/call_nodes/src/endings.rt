//! How a node that would be Succeeded ends: its outputs, and the first declared output that it lacks.

ghost use Rattle.std.specs.Prelude.{◌≡◌, MatchOption, IfOk, OnOk};
ghost use Rattle.meaning.specs.Outputs as outs;
ghost use Rattle.call_nodes.specs.Endings.{ending};
ghost use Rattle.call_nodes.specs.Inside.Sources as sources;

use crate::nodes::no_outputs;
use base_types::{Memory, Text, TryCopy};
use scopes::{Scope, SubstRefused, subst};
use tree_types::{Outputs, Param, Params};
use wf_manifest::{OutputDecl, OutputDecls};

/// How a node that would be Succeeded ends.
#[derive(Debug, Drop)]
pub struct Ending {
    pub outputs: Outputs,
    /// The name of the first declared output that has no value.
    pub lack: Option<Text>,
}

// Where the values of declared outputs are from.
#[derive(Drop)]
enum Source<'a> {
    // What a pod gave; a default stands only for what it did not give.
    Given(&'a Params),
    Said(&'a Scope),
    Defaults,
}

/// How a pod that gave these outputs ends: defaults stand for the declared outputs that it did not give.
pub fn completed(declared: &OutputDecls, outputs: &Outputs) -> Result<Ending, Memory>
    ensures { IfOk result (λ e. ending e ≡ outs.completed declared.now outputs.now) }
{
    completed_from(declared, &outputs.params, outputs.copy()?)
}

// The same of outputs that may be kept.
pub(crate) fn completed_from(
    declared: &OutputDecls,
    params: &Params,
    outputs: Outputs,
) -> Result<Ending, Memory>
    requires { outputs.params ≡ params.now }
    ensures { IfOk result (λ e. ending e ≡ outs.completed declared.now outputs) }
{
    ended_from(outputs, &Source::Given(params), declared)
}

/// How steps or a DAG end whose last scope this is: each declared output as its text says, else its default.
pub fn computed(scope: &Scope, declared: &OutputDecls) -> Result<Ending, Memory>
    ensures { IfOk result (λ e. ending e ≡ outs.computed scope.now declared.now) }
{
    let none = no_outputs(declared.allocator());
    ended_from(none, &Source::Said(scope), declared)
}

/// How a suspended node ends: with the defaults.
pub fn defaulted(declared: &OutputDecls) -> Result<Ending, Memory>
    ensures { IfOk result (λ e. ending e ≡ outs.defaulted declared.now) }
{
    let none = no_outputs(declared.allocator());
    ended_from(none, &Source::Defaults, declared)
}

// The ending that has these outputs, and behind them those from a source.
fn ended_from(
    outputs: Outputs,
    source: &Source<'_>,
    declared: &OutputDecls,
) -> Result<Ending, Memory>
    ensures { IfOk result (λ e. ending e ≡ sources.ended_from outputs source.now declared.now) }
{
    let mut made = Ending {
        outputs,
        lack: None,
    };
    for i in 0..declared.len() {
        add_from(&mut made, source, declared.get(i))?;
    }
    Ok(made)
}

fn add_from(made: &mut Ending, source: &Source<'_>, decl: &OutputDecl) -> Result<(), Memory>
    ensures { OnOk result (ending made.new ≡ sources.with_decl (ending made.old) source.now decl.now) }
{
    match source {
        Source::Given(params) => match param_of(params, &decl.name) {
            Some(_) => Ok(()),
            None => add(made, &decl.name, decl.default.copy()?),
        },
        Source::Said(scope) => add(made, &decl.name, from_or_default(scope, decl)?),
        Source::Defaults => add(made, &decl.name, decl.default.copy()?),
    }
}

// The value of the first parameter of this name.
pub(crate) fn param_of<'a>(params: &'a Params, name: &Text) -> Option<&'a Text>
    ensures { MatchOption result
        (outs.param name.now params.now ≡ None)
        (λ value. outs.param name.now params.now ≡ Some value.now) }
{
    for i in 0..params.len() {
        let param = params.get(i);
        if param.name.as_str() == name.as_str() {
            return Some(&param.value);
        }
    }
    None
}

// What a declared output's text says in a scope; its default where it has no text, or the text has no value.
fn from_or_default(scope: &Scope, decl: &OutputDecl) -> Result<Option<Text>, Memory>
    ensures { IfOk result (λ value.
        value ≡ outs.from_or_default scope.now decl.now.default decl.now.from) }
{
    let Some(text) = &decl.from else {
        return decl.default.copy();
    };
    match subst(text, scope) {
        Ok(value) => Ok(Some(value)),
        Err(SubstRefused::Unresolved { .. }) => decl.default.copy(),
        Err(SubstRefused::Memory) => Err(Memory),
    }
}

// Another output: its value, or that it has none.
fn add(made: &mut Ending, name: &Text, value: Option<Text>) -> Result<(), Memory>
    ensures { OnOk result (ending made.new ≡ sources.with_output (ending made.old) name.now value) }
{
    match value {
        Some(value) => made.outputs.params.push(Param {
            name: name.copy()?,
            value,
        }),
        None => note_lack(made, name),
    }
}

fn note_lack(made: &mut Ending, name: &Text) -> Result<(), Memory>
    ensures { OnOk result (ending made.new ≡ sources.with_output (ending made.old) name.now None) }
{
    if made.lack.is_none() {
        made.lack = Some(name.copy()?);
    }
    Ok(())
}
