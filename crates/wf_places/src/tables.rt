//! The steps or tasks of a template, the templates of a manifest, and the locks with limits, found by their names.

ghost use Rattle.std.specs.Prelude.{◌≡◌, List as Seq, [], IfOk, bytes_eq, map, take, option_copied};
ghost use Rattle.std.specs.List.{find};
ghost use Rattle.base_types.specs.Names.{is_among};
ghost use Rattle.wf_manifest.specs.Valid as valid;
ghost use Rattle.wf_places.specs.Tags as tags;
ghost use Rattle.wf_places.specs.Calls as calls;
ghost use Rattle.wf_places.specs.Inside.Tables.{output_names, input_gives};

use crate::names::{NameTable, item_at, names_of};
use base_types::{Memory, Text};
use std::alloc::Global;
use std::marker::Model;
use tree_types::Limit;
use wf_manifest::{Argument, Call, Input, Template};

/// The steps or tasks of a template. Contracts see them as their list.
#[derive(Drop)]
pub(crate) struct Calls<'a> {
    calls: Vec<&'a Call>,
    names: NameTable<'a>,
}

impl<'a> Model for Calls<'a> {
    ghost use Rattle.std.specs.Prelude.{◌≡◌, List as Seq, map};
    ghost use Rattle.wf_manifest.specs.declared.calls.Call.{Call as OneCall};
    ghost use Rattle.wf_places.specs.Tags.{call_names};

    ghost Value = { Seq OneCall };

    ghost use Rattle.std.specs.Coded.{codes};
    ghost use Rattle.wf_manifest.specs.JsonCode.{json_code};

    ghost coded = { Prim.hlevel (codes, json_code) };

    ghost view = { λ known. map (λ call. call.now) known.calls.items };

    ghost invariant = { λ known. known.names ≡ call_names (map (λ call. call.now) known.calls.items) };
}

impl<'a> Calls<'a> {
    pub(crate) fn new(alloc: Global, calls: Vec<&'a Call>) -> Result<Calls<'a>, Memory>
        ensures { IfOk result (λ known. known ≡ map (λ call. call.now) calls.entry.items) }
    {
        let names = NameTable::new(alloc, call_names(alloc, calls.as_slice())?)?;
        Ok(Calls { calls, names })
    }

    /// The first of this name.
    pub(crate) fn named(&self, name: &Text) -> Option<&'a Call>
        ensures { option_copied result ≡ find (λ call. bytes_eq call.name name.now) self.now }
    {
        match item_at(self.calls.as_slice(), self.names.position(name)) {
            Some(call) => Some(*call),
            None => None,
        }
    }

    pub(crate) fn has(&self, name: &Text) -> bool
        ensures { result ≡ is_among (tags.call_names self.now) name.now }
    {
        self.names.has(name)
    }

    /// Whether the name is among those of the first so many.
    pub(crate) fn is_before(&self, count: usize, name: &Text) -> bool
        ensures { result ≡ is_among (take count (tags.call_names self.now)) name.now }
    {
        self.names.is_before(count, name)
    }
}

fn call_names<'a>(alloc: Global, calls: &[&'a Call]) -> Result<Vec<&'a Text>, Memory>
    ensures { IfOk result (λ names.
        map (λ name. name.now) names.items ≡ tags.call_names (map (λ call. call.now) calls.now)) }
{
    let mut names = Vec::new(alloc);
    for i in 0..calls.len() {
        names.push(&calls[i].name)?;
    }
    Ok(names)
}

/// The templates of a manifest. Contracts see them as their list.
#[derive(Drop)]
pub(crate) struct TemplateTable<'a> {
    all: &'a [Template],
    names: NameTable<'a>,
    outputs: Vec<NameTable<'a>>,
}

impl<'a> Model for TemplateTable<'a> {
    ghost use Rattle.std.specs.Prelude.{List as Seq};
    ghost use Rattle.wf_manifest.specs.declared.templates.Template.{Template as OneTemplate};
    ghost use Rattle.wf_places.specs.Inside.Tables.{AreTemplates};

    ghost Value = { Seq OneTemplate };

    ghost use Rattle.std.specs.Coded.{codes};
    ghost use Rattle.depends_expr.specs.Expression.{expression_code};
    ghost use Rattle.wf_manifest.specs.JsonCode.{json_code};

    ghost coded = { Prim.hlevel (codes, expression_code, json_code) };

    ghost view = { λ table. table.all.now };

    ghost invariant = { λ table. AreTemplates table.all.now table.names table.outputs.items };
}

impl<'a> TemplateTable<'a> {
    pub(crate) fn new(alloc: Global, all: &'a [Template]) -> Result<TemplateTable<'a>, Memory>
        ensures { IfOk result (λ table. table ≡ all.entry.now) }
    {
        let names = NameTable::new(alloc, names_of(alloc, all)?)?;
        let outputs = outputs_of(alloc, all)?;
        Ok(TemplateTable {
            all,
            names,
            outputs,
        })
    }

    /// The first of this name.
    pub(crate) fn named(&self, name: &Text) -> Option<&'a Template>
        ensures { option_copied result ≡ tags.named_template self.now name.now }
    {
        item_at(self.all, self.names.position(name))
    }

    /// Whether it has the output parameter.
    pub(crate) fn has_output(&self, name: &Text, output: &Text) -> bool
        ensures { result ≡ tags.has_output (tags.named_template self.now name.now) output.now }
    {
        match item_at(self.outputs.as_slice(), self.names.position(name)) {
            Some(outputs) => outputs.has(output),
            None => false,
        }
    }

    /// Whether the name is among those of the first so many.
    pub(crate) fn is_before(&self, count: usize, name: &Text) -> bool
        ensures { result ≡ is_among (take count (valid.template_names self.now)) name.now }
    {
        self.names.is_before(count, name)
    }

    /// Whether an input of the template has neither one of the arguments nor a value of its own.
    pub(crate) fn lacks_value(&self, name: &Text, names: &NameTable<'_>, given: &[Argument]) -> bool
        requires { names.now ≡ valid.argument_names given.now }
        ensures { result ≡ calls.lacks_value self.now name.now given.now }
    {
        match self.named(name) {
            None => false,
            Some(template) => !give_values(template.inputs.as_slice(), names, given),
        }
    }
}

fn outputs_of<'a>(alloc: Global, templates: &'a [Template]) -> Result<Vec<NameTable<'a>>, Memory>
    ensures { IfOk result (λ outputs. outputs.items ≡ map output_names templates.entry.now) }
{
    let mut outputs = Vec::new(alloc);
    for i in 0..templates.len() {
        let names = names_of(alloc, templates[i].outputs.as_slice())?;
        outputs.push(NameTable::new(alloc, names)?)?;
    }
    Ok(outputs)
}

fn give_values(inputs: &[Input], names: &NameTable<'_>, given: &[Argument]) -> bool
    requires { names.now ≡ valid.argument_names given.now }
    ensures { result ≡ input_gives given.now inputs.now }
{
    for i in 0..inputs.len() {
        if !has_value(&inputs[i], names, given) {
            return false;
        }
    }
    true
}

fn has_value(input: &Input, names: &NameTable<'_>, _given: &[Argument]) -> bool
    requires { names.now ≡ valid.argument_names _given.now }
    ensures { result ≡ valid.has_value _given.now input.now }
{
    input.value.is_some() || input.default.is_some() || names.has(&input.name)
}

/// The locks that have a limit, found by how they are written. Contracts see them as their list.
#[derive(Drop)]
pub struct LockLimits<'a> {
    locks: NameTable<'a>,
}

impl<'a> Model for LockLimits<'a> {
    ghost use Rattle.std.specs.Prelude.{ℕ, List as Seq};

    ghost Value = { Seq (Seq ℕ) };

    ghost view = { λ known. known.locks };
}

impl<'a> LockLimits<'a> {
    /// The locks of these limits.
    pub fn new(alloc: Global, limits: &'a [Limit]) -> Result<LockLimits<'a>, Memory>
        ensures { IfOk result (λ known. known ≡ map (λ limit. limit.lock.text) limits.entry.now) }
    {
        Ok(LockLimits {
            locks: NameTable::new(alloc, names_of(alloc, limits)?)?,
        })
    }

    pub(crate) fn has(&self, lock: &Text) -> bool
        ensures { result ≡ is_among self.now lock.now }
    {
        self.locks.has(lock)
    }
}
