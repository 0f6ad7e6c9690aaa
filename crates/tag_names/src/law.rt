//! The laws of what tags name.

ghost use Rattle.std.specs.Prelude.{◌≡◌, ◌∷◌, ℕ, List, map};
ghost use Rattle.tree_types.specs.declared.outcome.Param.{Param};
ghost use Rattle.scopes.specs.Substitution.{workflow_tags, input_tags};
ghost use Rattle.tag_names.specs.Tags.{named, workflow_name, workflow_parameter, input_parameter};
ghost use Rattle.tag_names.specs.Spelling.{SpellsBack, SpelledIsNamed};

/// What a known tag names is spelled as the tag's text.
pub fn spelling()
    ensures { (text : List ℕ) → SpellsBack text (named text) }
{}

/// What is spelled is named, where the name of its step or task has no dot.
pub fn naming()
    ensures { SpelledIsNamed }
{}

/// The tags of a workflow and of its parameters name these.
pub fn workflow_tags_named()
    ensures { (name : List ℕ) (params : List Param) →
        map (λ entry. named entry.0) (workflow_tags name params)
        ≡ workflow_name ∷ map (λ param. workflow_parameter param.name) params }
{}

/// The tags of a template's inputs name these.
pub fn input_tags_named()
    ensures { (inputs : List Param) →
        map (λ entry. named entry.0) (input_tags inputs)
        ≡ map (λ input. input_parameter input.name) inputs }
{}
