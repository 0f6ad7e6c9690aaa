//! Tags and their values.

use base_types::{Memory, Text, TryCopy};
use indexmap::IndexMap;
use std::alloc::Global;
use std::marker::Model;
use tree_types::Params;

/// Tags and their values, which contracts see as a list, of which the first entry of a tag counts.
#[derive(Debug, Drop)]
pub struct Tags {
    alloc: Global,
    tags: IndexMap<String, Text>,
}

impl Model for Tags {
    ghost use Rattle.std.specs.Prelude.{List, ℕ};

    ghost Value = { List (List ℕ × List ℕ) };

    ghost use Rattle.scopes.specs.Inside.Entries.{shown};

    ghost view = { λ a. shown a.tags.entries };
}

impl Tags {
    ghost use Rattle.std.specs.Prelude.{◌≡◌, ◌∷◌, ◌++◌, [], MatchOption, Some, None, IfOk, OnOk, OnErr};
    ghost use Rattle.scopes.specs.Substitution.{value_in, parameter_tags, workflow_tags, input_tags};
    ghost use Rattle.scopes.specs.Values.{HasValuesOf};

    /// No tags.
    pub fn new(alloc: Global) -> Tags
        ensures { result ≡ [] }
    {
        Tags {
            alloc,
            tags: IndexMap::new(alloc),
        }
    }

    /// A workflow's tags, with its parameters' (Argo, "Workflow variables", Global).
    pub fn of_workflow(alloc: Global, workflow: &Text, params: &Params) -> Result<Tags, Memory>
        ensures { IfOk result (λ tags. HasValuesOf tags (workflow_tags workflow.now params.now)) }
    {
        let mut tags = Tags::new(alloc);
        tags.add_parameters("workflow.parameters.", params)?;
        tags.add(Text::from_text(alloc, "workflow.name")?, workflow.copy()?)?;
        Ok(tags)
    }

    /// The tags of a template's inputs (Argo, "Workflow variables", All templates).
    pub fn of_inputs(alloc: Global, inputs: &Params) -> Result<Tags, Memory>
        ensures { IfOk result (λ tags. HasValuesOf tags (input_tags inputs.now)) }
    {
        let mut tags = Tags::new(alloc);
        tags.add_parameters("inputs.parameters.", inputs)?;
        Ok(tags)
    }

    /// Gives a tag a value, which counts from now on.
    pub fn add(&mut self, tag: Text, value: Text) -> Result<(), Memory>
        ensures ok { OnOk result (HasValuesOf self.new ((tag, value) ∷ self.old)) }
        ensures err { OnErr result (self.new ≡ self.old) }
    {
        self.tags.insert(tag.into_string()?, value)?;
        Ok(())
    }

    /// Gives the tags of parameters, with this prefix, their values. Of two parameters of one name the first counts.
    pub fn add_parameters(&mut self, prefix: &str, params: &Params) -> Result<(), Memory>
        ensures { OnOk result (HasValuesOf self.new (parameter_tags prefix.now params.now ++ self.old)) }
    {
        let mut left = params.len();
        while left > 0 {
            left -= 1;
            let param = params.get(left);
            let mut tag = Text::from_text(self.alloc, prefix)?;
            tag.push(param.name.as_str())?;
            self.add(tag, param.value.copy()?)?;
        }
        Ok(())
    }

    // The value of a tag.
    pub(crate) fn value_of(&self, tag: &str) -> Option<&Text>
        ensures { MatchOption result
            (value_in self.now tag.now ≡ None)
            (λ value. value_in self.now tag.now ≡ Some value.now) }
    {
        self.tags.get(tag)
    }

    pub(crate) fn allocator(&self) -> Global {
        self.alloc
    }
}
