//! Scopes: tags and their values, over those of the scopes around.

ghost use Rattle.std.specs.Prelude.{◌≡◌};

use crate::Tags;
use base_types::{Memory, Text};
use std::alloc::Global;
use std::marker::Model;
use std::sync::Arc;
use tree_types::Params;

// Tags and their values, over those of the layers below. A layer that several scopes stand on is shared.
#[derive(Debug, Drop)]
struct Layer {
    tags: Tags,
    outer: Option<Arc<Layer>>,
}

impl Model for Layer {
    ghost use Rattle.std.specs.Prelude.{◌++◌, suc};
    ghost use Rattle.scopes.specs.Inside.Layers.{Layered, outer_tags, outer_height};

    ghost Value = { Layered };

    ghost view = { λ a. record {
      tags = a.tags ++ outer_tags a.outer;
      height = suc (outer_height a.outer);
    } };

    ghost size = { λ v. v.height };

    ghost use Rattle.scopes.specs.Inside.Lower.{outer_is_lower};

    ghost size_decreases = { λ a h. outer_is_lower a };
}

/// The values of tags, which contracts see as a list of tags and values, of which the first of a tag counts. What stands in
/// the scopes around is shared and not copied.
#[derive(Debug, Drop)]
pub struct Scope {
    alloc: Global,
    layer: Arc<Layer>,
}

impl Model for Scope {
    ghost use Rattle.std.specs.Prelude.{List, ℕ};

    ghost Value = { List (List ℕ × List ℕ) };

    ghost view = { λ a. a.layer.value.tags };
}

impl Scope {
    ghost use Rattle.std.specs.Prelude.{◌++◌, MatchOption, Some, None, IfOk};
    ghost use Rattle.scopes.specs.Substitution.{value_in, workflow_tags, input_tags};
    ghost use Rattle.scopes.specs.Values.{HasValuesOf};

    /// The scope of tags alone.
    pub fn of(tags: Tags) -> Result<Scope, Memory>
        ensures { IfOk result (λ scope. scope ≡ tags) }
    {
        let alloc = tags.allocator();
        let layer = Layer { tags, outer: None };
        Ok(Scope {
            alloc,
            layer: Arc::new(alloc, layer)?,
        })
    }

    /// The scope of a workflow's tags, and of the inputs of one of its templates.
    pub fn new(
        alloc: Global,
        workflow: &Text,
        params: &Params,
        inputs: &Params,
    ) -> Result<Scope, Memory>
        ensures { IfOk result (λ scope.
            HasValuesOf scope (input_tags inputs.now ++ workflow_tags workflow.now params.now)) }
    {
        Scope::of(Tags::of_workflow(alloc, workflow, params)?)?.with(Tags::of_inputs(
            alloc, inputs,
        )?)
    }

    /// This scope once more.
    pub fn share(&self) -> Result<Scope, Memory>
        ensures { IfOk result (λ scope. scope ≡ self.now) }
    {
        Ok(Scope {
            alloc: self.alloc,
            layer: self.layer.clone()?,
        })
    }

    /// A scope inside this one, in which these tags have these values.
    pub fn with(&self, tags: Tags) -> Result<Scope, Memory>
        ensures { IfOk result (λ scope. scope ≡ tags ++ self.now) }
    {
        let layer = Layer {
            tags,
            outer: Some(self.layer.clone()?),
        };
        Ok(Scope {
            alloc: self.alloc,
            layer: Arc::new(self.alloc, layer)?,
        })
    }

    // The value of a tag.
    pub(crate) fn value_of(&self, tag: &str) -> Option<&Text>
        ensures { MatchOption result
            (value_in self.now tag.now ≡ None)
            (λ value. value_in self.now tag.now ≡ Some value.now) }
    {
        self.layer.value_of(tag)
    }

    pub(crate) fn allocator(&self) -> Global {
        self.alloc
    }
}

impl Layer {
    ghost use Rattle.std.specs.Prelude.{MatchOption, Some, None};
    ghost use Rattle.scopes.specs.Substitution.{value_in};

    fn value_of(&self, tag: &str) -> Option<&Text>
        ensures { MatchOption result
            (value_in self.now.tags tag.now ≡ None)
            (λ value. value_in self.now.tags tag.now ≡ Some value.now) }
    {
        if let Some(value) = self.tags.value_of(tag) {
            return Some(value);
        }
        match &self.outer {
            None => None,
            Some(outer) => outer.value_of(tag),
        }
    }
}
