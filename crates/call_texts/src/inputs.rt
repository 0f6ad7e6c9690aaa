//! The inputs of a called template.

ghost use Rattle.std.specs.Prelude.{◌≡◌, ◌∷◌, ◌++◌, [], IfOk, OnOk};
ghost use Rattle.scopes.specs.Substitution.{Scope as Meant, input_tags};
ghost use Rattle.scopes.specs.Values.{HasValuesOf};
ghost use Rattle.meaning.specs.Calls as calls;
ghost use Rattle.meaning.specs.Outputs.{with_value};
ghost use Rattle.call_texts.specs.Told.{Says, Tells};
ghost use Rattle.call_texts.specs.Inside.Given.{IsGiven};

use crate::{Halt, said, said_option};
use base_types::{Memory, Text, TryCopy};
use scopes::{Scope, Tags};
use std::alloc::Global;
use std::collections::HashMap;
use tree_types::{Param, Params};
use wf_manifest::{Arguments, Input, Inputs};

// The values of arguments by their names.
type Given = HashMap<Text, Text>;

/// The scope of a template's own texts, where it is called with these arguments in `scope`: its inputs, and the tags of
/// `globals`. Each argument is said before any input is looked at, also one that no input takes.
pub fn template_scope(
    alloc: Global,
    globals: &Scope,
    scope: &Scope,
    given: &Arguments,
    inputs: &Inputs,
) -> Result<Scope, Halt>
    ensures { Tells HasValuesOf result
        (calls.template_scope globals.now scope.now given.now inputs.now) }
{
    let given = arguments_said(alloc, scope, given)?;
    let params = inputs_said(alloc, globals, &given, inputs)?;
    Ok(inner_scope(alloc, globals, &params)?)
}

fn inner_scope(alloc: Global, globals: &Scope, params: &Params) -> Result<Scope, Memory>
    ensures { IfOk result (λ scope. HasValuesOf scope (input_tags params.now ++ globals.now)) }
{
    globals.with(Tags::of_inputs(alloc, params)?)
}

// What the arguments say, in their order. Of two of one name the first counts.
fn arguments_said(alloc: Global, scope: &Scope, arguments: &Arguments) -> Result<Given, Halt>
    ensures { Tells IsGiven result (calls.arguments_said scope.now arguments.now) }
{
    let mut given = HashMap::new(alloc);
    for i in 0..arguments.len() {
        let argument = arguments.get(i);
        let value = said(&argument.value, scope)?;
        give(&mut given, &argument.name, value)?;
    }
    Ok(given)
}

// Gives a name its value, where it has none.
fn give(given: &mut Given, name: &Text, value: Text) -> Result<(), Memory>
    ensures { (before : Meant) → IsGiven given.old before →
        OnOk result (IsGiven given.new (before ++ (name.now, value) ∷ [])) }
{
    if given.contains_key(name) {
        return Ok(());
    }
    given.insert(name.copy()?, value)?;
    Ok(())
}

// The inputs that have values, with them.
fn inputs_said(
    alloc: Global,
    globals: &Scope,
    given: &Given,
    inputs: &Inputs,
) -> Result<Params, Halt>
    ensures { (scope : Meant) → IsGiven given.now scope →
        Says result (calls.inputs_said globals.now scope inputs.now) }
{
    let mut params = Params::new(alloc);
    for i in 0..inputs.len() {
        let input = inputs.get(i);
        let value = input_value(globals, given, input)?;
        push_value(&mut params, &input.name, value)?;
    }
    Ok(params)
}

// Adds a parameter of this name, where there is a value.
fn push_value(params: &mut Params, name: &Text, value: Option<Text>) -> Result<(), Memory>
    ensures { OnOk result (params.new ≡ params.old ++ with_value name.now value []) }
{
    let Some(value) = value else {
        return Ok(());
    };
    let name = name.copy()?;
    params.push(Param { name, value })
}

fn input_value(globals: &Scope, given: &Given, input: &Input) -> Result<Option<Text>, Halt>
    ensures { (scope : Meant) → IsGiven given.now scope →
        Says result (calls.input_value globals.now scope input.now) }
{
    if let Some(value) = given.get(&input.name) {
        return Ok(Some(value.copy()?));
    }
    value_or_default(globals, input)
}

fn value_or_default(globals: &Scope, input: &Input) -> Result<Option<Text>, Halt>
    ensures { Says result (calls.value_or_default globals.now input.now.value input.now.default) }
{
    match &input.value {
        None => said_option(&input.default, globals),
        Some(_) => said_option(&input.value, globals),
    }
}
