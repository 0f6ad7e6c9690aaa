//! Places of nodes.

ghost use Rattle.std.specs.Prelude.{◌≡◌, ◌+◌, ◌^◌, ◌<◌, IfOk, IsTrue};
ghost use Rattle.node_names.specs.Names.{IsSound, is_step_name};
ghost use Rattle.fanout.specs.Items.{is_whole};
ghost use Rattle.meaning.specs.Lines as lines;
ghost use Rattle.meaning.specs.Pods as pods;
ghost use Rattle.meaning.specs.Steps as steps;
ghost use Rattle.meaning.specs.Dags as dags;
ghost use Rattle.meaning.specs.Calls as calls;

use base_types::{Memory, TryCopy};
use fanout::name_text;
use meaning::Place;
use node_names::{Seg, child_name};
use std::alloc::Global;
use tree_types::Sel;
use wf_manifest::{Call, Json, Task};

/// An equal place.
pub fn copy_place(place: &Place) -> Result<Place, Memory>
    ensures { IfOk result (λ copy. copy ≡ place.now) }
{
    Ok(Place {
        sels: place.sels.copy()?,
        name: place.name.copy()?,
        depth: place.depth,
    })
}

/// The place one selector below another. The depth of a place is bounded by the depths that calls may have.
pub fn child(place: &Place, sel: Sel, seg: &Seg) -> Result<Place, Memory>
    requires sound { IsSound seg.now }
    requires shallow { place.now.depth + 1 < 2 ^ 32 }
    ensures { IfOk result (λ child. child ≡ lines.below place.now sel seg.now) }
{
    let mut sels = place.sels.copy()?;
    sels.push(sel)?;
    Ok(Place {
        sels,
        name: child_name(&place.name, seg)?,
        depth: place.depth + 1,
    })
}

/// The place of group `i` of steps.
pub fn group_place(place: &Place, i: u32) -> Result<Place, Memory>
    requires { place.now.depth + 1 < 2 ^ 32 }
    ensures { IfOk result (λ group. group ≡ steps.group_place place.now i) }
{
    child(place, Sel::Group(i), &Seg::Group(i))
}

/// The place of member `j` of a group.
pub fn member_place(group: &Place, j: u32, call: &Call) -> Result<Place, Memory>
    requires named { IsTrue (is_step_name call.now.name) }
    requires shallow { group.now.depth + 1 < 2 ^ 32 }
    ensures { IfOk result (λ member. member ≡ steps.member_place group.now j call.now) }
{
    let name = call.name.copy()?;
    child(group, Sel::Step(j), &Seg::Call(name))
}

/// The place of task `i` of a DAG.
pub fn task_place(place: &Place, i: u32, task: &Task) -> Result<Place, Memory>
    requires named { IsTrue (is_step_name task.now.call.name) }
    requires shallow { place.now.depth + 1 < 2 ^ 32 }
    ensures { IfOk result (λ child. child ≡ dags.task_place place.now i task.now) }
{
    let name = task.call.name.copy()?;
    child(place, Sel::Task(i), &Seg::Call(name))
}

/// The place of the exit hook of a step or task.
pub fn hook_place(place: &Place) -> Result<Place, Memory>
    requires { place.now.depth + 1 < 2 ^ 32 }
    ensures { IfOk result (λ hook. hook ≡ calls.hook_place place.now) }
{
    child(place, Sel::Exit, &Seg::Exit)
}

/// The place of attempt `k` of a pod with a retry.
pub fn attempt_place(place: &Place, k: u32) -> Result<Place, Memory>
    requires { place.now.depth + 1 < 2 ^ 32 }
    ensures { IfOk result (λ attempt. attempt ≡ pods.attempt place.now k) }
{
    child(place, Sel::Attempt(k), &Seg::Attempt(k))
}

/// The place of item `i` of a looped call. Each item of a loop has whole numbers alone.
pub fn item_place(alloc: Global, place: &Place, i: u32, item: &Json) -> Result<Place, Memory>
    requires whole { IsTrue (is_whole item.now) }
    requires shallow { place.now.depth + 1 < 2 ^ 32 }
    ensures { IfOk result (λ child. child ≡ calls.item_place place.now i item.now) }
{
    let text = name_text(alloc, item)?;
    child(place, Sel::Item(i), &Seg::Item(i, text))
}
