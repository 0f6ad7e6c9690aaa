//! Arguments.

ghost use Rattle.std.specs.Prelude.{◌≡◌};
ghost use Rattle.serde_json.specs.View.{view};
ghost use Rattle.field_kinds.specs.Refusing.{Reads};
ghost use Rattle.call_reader.specs.Calls as reads;

use crate::Tagged;
use base_types::List;
use base_types::limits::MOST_MEMBERS;
use field_kinds::{
    FieldPath, Fields, KindRefused, Object, list_or_empty, optional, refuse_all, required_by,
    required_text,
};
use serde_json::Value;
use std::alloc::Global;
use wf_manifest::{Argument, Arguments};

// The fields of an argument.
struct ArgumentFields;

impl Fields for ArgumentFields {
    type Made = Argument;

    type Around = ();

    ghost fields = { λ _. reads.argument_fields };

    #[tactic(auto, unfolding(crate::specs::Calls::argument_fields))]
    fn read_fields(
        alloc: Global,
        argument: &Value,
        at: &FieldPath,
        _around: &(),
    ) -> Result<Argument, KindRefused> {
        refuse_all(argument, &["valueFrom"], at)?;
        Ok(Argument {
            name: required_text(alloc, argument, "name", at)?,
            value: required_by::<Tagged>(alloc, argument, "value", at)?,
        })
    }
}

// The fields of `arguments`.
struct ArgumentsFields;

impl Fields for ArgumentsFields {
    type Made = Arguments;

    type Around = ();

    ghost fields = { λ _. reads.arguments_fields };

    #[tactic(auto, unfolding(crate::specs::Calls::arguments_fields))]
    fn read_fields(
        alloc: Global,
        arguments: &Value,
        at: &FieldPath,
        _around: &(),
    ) -> Result<Arguments, KindRefused> {
        refuse_all(arguments, &["artifacts"], at)?;
        list_or_empty::<Object<ArgumentFields>>(
            alloc,
            arguments,
            "parameters",
            MOST_MEMBERS,
            at,
            &(),
        )
    }
}

/// The arguments of a workflow, a step, a task or a hook, none where the field is absent.
pub fn read_arguments(
    alloc: Global,
    object: &Value,
    at: &FieldPath,
) -> Result<Arguments, KindRefused>
    ensures { Reads result (reads.arguments at.now (view object.now)) }
{
    match optional::<Object<ArgumentsFields>>(alloc, object, "arguments", at, &())? {
        Some(given) => Ok(given),
        None => Ok(List::new(alloc)),
    }
}
