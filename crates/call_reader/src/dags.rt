//! Tasks and DAGs.

ghost use Rattle.std.specs.Prelude.{◌≡◌, [], codes};
ghost use Rattle.serde_json.specs.View.{view};
ghost use Rattle.field_kinds.specs.Fields.{default};
ghost use Rattle.field_kinds.specs.Kinds.{text, of};
ghost use Rattle.field_kinds.specs.Refusing.{Reads};
ghost use Rattle.call_reader.specs.Calls as reads;
ghost use Rattle.call_reader.specs.Words.{task_names};

use crate::steps::{call_of, head_fields, tail_fields};
use crate::{DependsText, TaskNames};
use base_types::limits::MOST_MEMBERS;
use base_types::{List, Names, Text};
use field_kinds::{
    FieldPath, Fields, KindRefused, Object, flag_or, optional, optional_text_by, required_list,
    written_text_by,
};
use serde_json::Value;
use std::alloc::Global;
use wf_manifest::{Dag, Task};

// The fields of a task.
struct TaskFields;

impl Fields for TaskFields {
    type Made = Task;

    type Around = ();

    ghost fields = { λ _. reads.task_fields };

    #[tactic(auto, unfolding(crate::specs::Calls::task_fields))]
    fn read_fields(
        alloc: Global,
        task: &Value,
        at: &FieldPath,
        _around: &(),
    ) -> Result<Task, KindRefused> {
        let head = head_fields(alloc, task, at)?;
        let dependencies = optional::<List<Text>>(alloc, task, "dependencies", at, &())?;
        let depends = written_text_by::<DependsText>(alloc, task, "depends", at)?;
        let tail = tail_fields(alloc, task, at)?;
        Ok(Task {
            call: call_of(head, tail),
            depends,
            dependencies,
        })
    }
}

fn targets(alloc: Global, dag: &Value, at: &FieldPath) -> Result<Names, KindRefused>
    ensures { Reads result
        (default [] (of task_names text) (codes "target") at.now (view dag.now)) }
{
    match optional_text_by::<TaskNames>(alloc, dag, "target", at)? {
        Some(names) => Ok(names),
        None => Ok(List::new(alloc)),
    }
}

/// The fields of a DAG.
pub struct DagFields;

impl Fields for DagFields {
    type Made = Dag;

    type Around = ();

    ghost fields = { λ _. reads.dag_fields };

    #[tactic(auto, unfolding(crate::specs::Calls::dag_fields))]
    fn read_fields(
        alloc: Global,
        dag: &Value,
        at: &FieldPath,
        _around: &(),
    ) -> Result<Dag, KindRefused> {
        Ok(Dag {
            targets: targets(alloc, dag, at)?,
            fail_fast: flag_or(dag, "failFast", true, at)?,
            tasks: required_list::<Object<TaskFields>>(alloc, dag, "tasks", MOST_MEMBERS, at, &())?,
        })
    }
}
