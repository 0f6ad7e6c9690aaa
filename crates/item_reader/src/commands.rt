//! Commands: what is done to workflows from outside.

ghost use Rattle.std.specs.Prelude.{◌≡◌};
ghost use Rattle.serde_json.specs.View.{view};
ghost use Rattle.field_kinds.specs.Refusing.{Reads};
ghost use Rattle.item_reader.specs.Commands as reads;

use base_types::limits::{LATEST_TICK, MOST_MEMBERS};
use base_types::{List, Text};
use field_kinds::rules::MISSING;
use field_kinds::{
    FieldPath, Fields, KindRefused, Object, flag_or, list_or_empty, no_second, optional_text_by,
    refused_at, required_number, required_text_by,
};
use serde_json::Value;
use std::alloc::Global;
use template_reader::ResourceName;
use wf_reader::Created;

/// A command, which counts from a tick on.
#[derive(Debug, Drop)]
pub enum Command {
    /// Resume the suspended nodes of a workflow.
    Resume {
        tick: u64,
        workflow: Text,
    },
    /// Submit a workflow that is over once more, under another name.
    Resubmit {
        tick: u64,
        old: Text,
        name: Text,
        /// Whether what Succeeded is carried over.
        memoized: bool,
        /// The creation of the new workflow in Unix seconds.
        created: i64,
    },
}

/// A list of commands.
pub type Commands = List<Command>;

#[tactic(auto, unfolding(crate::specs::Commands::resubmit))]
fn resubmit(
    alloc: Global,
    tick: u64,
    old: Text,
    command: &Value,
    at: &FieldPath,
) -> Result<Command, KindRefused>
    ensures { Reads result (reads.resubmit tick old at.now (view command.now)) }
{
    Ok(Command::Resubmit {
        tick,
        old,
        name: required_text_by::<ResourceName>(alloc, command, "name", at)?,
        memoized: flag_or(command, "memoized", false, at)?,
        created: optional_text_by::<Created>(alloc, command, "creationTimestamp", at)?.unwrap_or(0),
    })
}

fn action(
    alloc: Global,
    tick: u64,
    resumed: Option<Text>,
    resubmitted: Option<Text>,
    command: &Value,
    at: &FieldPath,
) -> Result<Command, KindRefused>
    ensures { Reads result (reads.action tick resumed resubmitted at.now (view command.now)) }
{
    match resumed {
        Some(workflow) => Ok(Command::Resume { tick, workflow }),
        None => match resubmitted {
            Some(old) => resubmit(alloc, tick, old, command, at),
            None => Err(refused_at(MISSING, at)?),
        },
    }
}

impl Fields for Command {
    type Made = Command;

    type Around = ();

    ghost fields = { λ _. reads.command_fields };

    #[tactic(auto, unfolding(crate::specs::Commands::command_fields))]
    fn read_fields(
        alloc: Global,
        command: &Value,
        at: &FieldPath,
        _around: &(),
    ) -> Result<Command, KindRefused> {
        let tick = required_number(command, "tick", 0, LATEST_TICK, at)?;
        let resumed = optional_text_by::<ResourceName>(alloc, command, "resume", at)?;
        no_second(resumed.is_some(), command, "resubmit", at)?;
        let resubmitted = optional_text_by::<ResourceName>(alloc, command, "resubmit", at)?;
        action(alloc, tick, resumed, resubmitted, command, at)
    }
}

// A list of commands, of at most so many.
pub(crate) fn read_commands(
    alloc: Global,
    item: &Value,
    at: &FieldPath,
) -> Result<Commands, KindRefused>
    ensures { Reads result (reads.commands at.now (view item.now)) }
{
    list_or_empty::<Object<Command>>(alloc, item, "commands", MOST_MEMBERS, at, &())
}
