//! Input parameters.

ghost use Rattle.std.specs.Prelude.{◌≡◌};
ghost use Rattle.serde_json.specs.View.{view};
ghost use Rattle.field_kinds.specs.Refusing.{Reads};
ghost use Rattle.template_reader.specs.Templates as reads;

use base_types::List;
use base_types::limits::MOST_MEMBERS;
use call_reader::Tagged;
use field_kinds::{
    FieldPath, Fields, KindRefused, Object, list_or_empty, optional, optional_by, refuse_all,
    required_text,
};
use serde_json::Value;
use std::alloc::Global;
use wf_manifest::{Input, Inputs};

// The fields of an input parameter.
struct InputFields;

impl Fields for InputFields {
    type Made = Input;

    type Around = ();

    ghost fields = { λ _. reads.input_fields };

    #[tactic(auto, unfolding(crate::specs::Templates::input_fields))]
    fn read_fields(
        alloc: Global,
        input: &Value,
        at: &FieldPath,
        _around: &(),
    ) -> Result<Input, KindRefused> {
        refuse_all(input, &["valueFrom"], at)?;
        Ok(Input {
            name: required_text(alloc, input, "name", at)?,
            value: optional_by::<Tagged>(alloc, input, "value", at)?,
            default: optional_by::<Tagged>(alloc, input, "default", at)?,
        })
    }
}

// The fields of `inputs`.
struct InputsFields;

impl Fields for InputsFields {
    type Made = Inputs;

    type Around = ();

    ghost fields = { λ _. reads.inputs_fields };

    #[tactic(auto, unfolding(crate::specs::Templates::inputs_fields))]
    fn read_fields(
        alloc: Global,
        inputs: &Value,
        at: &FieldPath,
        _around: &(),
    ) -> Result<Inputs, KindRefused> {
        refuse_all(inputs, &["artifacts"], at)?;
        list_or_empty::<Object<InputFields>>(alloc, inputs, "parameters", MOST_MEMBERS, at, &())
    }
}

// The inputs of a template, none where the field is absent.
pub(crate) fn read_inputs(
    alloc: Global,
    template: &Value,
    at: &FieldPath,
) -> Result<Inputs, KindRefused>
    ensures { Reads result (reads.inputs at.now (view template.now)) }
{
    match optional::<Object<InputsFields>>(alloc, template, "inputs", at, &())? {
        Some(inputs) => Ok(inputs),
        None => Ok(List::new(alloc)),
    }
}
