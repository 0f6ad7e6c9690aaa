//! The places of DAGs.

ghost use Rattle.std.specs.Prelude.{◌≡◌, ◌&&◌, ◌++◌, IfOk, OnOk};
ghost use Rattle.std.specs.List.{list_all};
ghost use Rattle.depends_expr.specs.Truth.{names_of};
ghost use Rattle.base_types.specs.Names.{is_among};
ghost use Rattle.wf_manifest.specs.Valid as valid;
ghost use Rattle.wf_manifest.specs.declared.templates.Body.TheVariants as body;
ghost use Rattle.wf_places.specs.Tags as tags;
ghost use Rattle.wf_places.specs.Dags as dags;
ghost use Rattle.wf_places.specs.Inside.Spelling as spelling;
ghost use Rattle.wf_places.specs.Inside.Views.{around_of};

use crate::Place;
use crate::around::{Before, Inside, Spot};
use crate::broken::{note, note_field};
use crate::calls::{add_back, add_front};
use crate::tables::Calls;
use base_types::{Memory, Text};
use depends_expr::Depends;
use field_kinds::FieldPath;
use field_kinds::rules::{CYCLE, DEPENDS_MIX, UNKNOWN_NAME};
use std::alloc::Global;
use wf_manifest::{Dag, Task};

// ---- spellings

fn fits_depends(task: &Task) -> bool
    ensures { result ≡ valid.fits_depends task.now }
{
    task.dependencies.is_none() && task.call.continue_on.is_none()
}

fn some_depends(tasks: &[Task]) -> bool
    ensures { result ≡ spelling.some_depends tasks.now }
{
    for i in 0..tasks.len() {
        if tasks[i].depends.is_some() {
            return true;
        }
    }
    false
}

fn all_fit(tasks: &[Task]) -> bool
    ensures { result ≡ spelling.all_fit tasks.now }
{
    for i in 0..tasks.len() {
        if !fits_depends(&tasks[i]) {
            return false;
        }
    }
    true
}

fn is_of_one_spelling(dag: &Dag) -> bool
    ensures { result ≡ valid.is_of_one_spelling (body.Dag dag.now) }
{
    let tasks = dag.tasks.as_slice();
    !some_depends(tasks) || all_fit(tasks)
}

// ---- names of tasks

fn are_known(known: &Calls<'_>, names: &[Text]) -> bool
    ensures { result ≡ list_all (is_among (tags.call_names known.now)) names.now }
{
    for i in 0..names.len() {
        if !known.has(&names[i]) {
            return false;
        }
    }
    true
}

fn is_known(alloc: Global, known: &Calls<'_>, name: &str) -> Result<bool, Memory>
    ensures { IfOk result (λ is. is ≡ is_among (tags.call_names known.now) name.now) }
{
    let name = Text::from_text(alloc, name)?;
    Ok(known.has(&name))
}

fn both(one: bool, other: bool) -> bool
    ensures { result ≡ (one && other) }
{
    one && other
}

fn all_named(alloc: Global, known: &Calls<'_>, depends: &Depends) -> Result<bool, Memory>
    ensures { IfOk result
        (λ all. all ≡ list_all (is_among (tags.call_names known.now)) (names_of depends.now)) }
{
    let mut all = true;
    for i in 0..depends.names() {
        let one = is_known(alloc, known, depends.name(i))?;
        all = both(all, one);
    }
    Ok(all)
}

fn add_named(
    out: &mut Vec<Place>,
    known: &Calls<'_>,
    at: &FieldPath,
    names: &[Text],
) -> Result<(), Memory>
    ensures { OnOk result (out.new.items ≡ out.old.items
        ++ dags.named_places (tags.call_names known.now) at.now 0 names.now) }
{
    for i in 0..names.len() {
        let here = at.member(i)?;
        note(out, UNKNOWN_NAME, !known.has(&names[i]), &here)?;
    }
    Ok(())
}

fn add_waited(
    out: &mut Vec<Place>,
    inside: &Inside<'_, '_>,
    at: &FieldPath,
    task: &Task,
) -> Result<(), Memory>
    ensures { OnOk result (out.new.items ≡ out.old.items
        ++ spelling.waited_places (tags.call_names inside.now.tasks) at.now task.now) }
{
    if let Some(names) = &task.dependencies {
        let path = at.field("dependencies")?;
        add_named(out, &inside.tasks, &path, names.as_slice())?;
    }
    if let Some(depends) = &task.depends {
        let all = all_named(inside.outside.alloc, &inside.tasks, depends)?;
        note_field(out, UNKNOWN_NAME, !all, at, "depends")?;
    }
    Ok(())
}

// ---- tasks

fn add_task<'c>(
    out: &mut Vec<Place>,
    inside: &Inside<'_, '_>,
    spot: Spot<'c>,
    position: usize,
    at: &FieldPath,
    task: &'c Task,
) -> Result<(), Memory>
    ensures { OnOk result (out.new.items ≡ out.old.items
        ++ dags.task_places (around_of inside.now spot.entry) position at.now task.entry.now) }
{
    let again = inside.tasks.is_before(position, &task.call.name);
    add_front(out, inside, spot, again, at, &task.call)?;
    add_waited(out, inside, at, task)?;
    add_back(out, inside, spot, at, &task.call)
}

fn add_tasks<'c>(
    out: &mut Vec<Place>,
    inside: &Inside<'_, '_>,
    spot: Spot<'c>,
    at: &FieldPath,
    tasks: &'c [Task],
) -> Result<(), Memory>
    ensures { OnOk result (out.new.items ≡ out.old.items ++ dags.tasks_places
        (around_of inside.now spot.entry) inside.now.ancestry at.now 0 tasks.entry.now) }
{
    for i in 0..tasks.len() {
        let here = at.member(i)?;
        let task = &tasks[i];
        let spot = Spot {
            before: Before::Ancestors(&task.call.name),
            ..spot
        };
        add_task(out, inside, spot, i, &here, task)?;
    }
    Ok(())
}

/// Adds the places of a DAG, of whose tasks the template's are made.
pub(crate) fn add_dag<'c>(
    out: &mut Vec<Place>,
    inside: &Inside<'_, '_>,
    spot: Spot<'c>,
    at: &FieldPath,
    dag: &'c Dag,
) -> Result<(), Memory>
    requires { inside.now.ancestry ≡ dag.now.tasks }
    ensures { OnOk result (out.new.items ≡ out.old.items
        ++ dags.dag_places (around_of inside.now spot.entry) at.now dag.entry.now) }
{
    let path = at.field("tasks")?;
    let known = are_known(&inside.tasks, dag.targets.as_slice());
    note(out, DEPENDS_MIX, !is_of_one_spelling(dag), at)?;
    note(out, CYCLE, inside.ancestry.has_circle(), at)?;
    note_field(out, UNKNOWN_NAME, !known, at, "target")?;
    add_tasks(out, inside, spot, &path, dag.tasks.as_slice())
}
