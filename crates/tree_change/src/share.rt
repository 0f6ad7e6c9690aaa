//! What stands beside the way down is shared, and the room of its nodes is taken.

ghost use Rattle.std.specs.Prelude.{◌≡◌, ◌-◌, ◌≤◌, ◌∷◌, IfOk, IfSome, IsTrue, Some, is_some, length, take};
ghost use Rattle.wf_manifest.specs.declared.templates.Body.TheVariants as body;
ghost use Rattle.tree_types.specs.declared.path.Sel.TheVariants as sels;
ghost use Rattle.tree_state.specs.Counting.{Gives, TakesAll, count};
ghost use Rattle.tree_state.specs.Replacing.{call_at};
ghost use Rattle.dag_plan.specs.Plans.{IsPlan};
ghost use Rattle.tree_walk.specs.Planned.{MayWalk};
ghost use Rattle.tree_walk.specs.Walking.{GivesRow};

use crate::leaf::split;
use base_types::{List, Memory, TryCopy};
use dag_plan::DagPlan;
use scopes::Tags;
use std::alloc::Global;
use tree_state::{Room, Shared, State, TreeRefused};
use tree_types::Sel;
use tree_walk::{Group, Named};
use wf_manifest::{Body, Dag, Groups, Template};

/// The groups of a steps template, the number of the one that a path goes down into, which exists, and what the path has
/// behind it.
pub fn group_below<'a>(
    template: &'a Template,
    old: &State,
    path: &'a [Sel],
) -> Option<(&'a Groups, u32, &'a [Sel])>
    ensures steps { IfSome result (λ below. template.now.body ≡ body.Steps below.0.now) }
    ensures path { IfSome result (λ below. path.now ≡ sels.Group below.1 ∷ below.2.now) }
    ensures exists { IfSome result (λ below. IsTrue (is_some (call_at old.now.parts below.1))) }
{
    let Body::Steps(groups) = &template.body else {
        return None;
    };
    let (first, others) = split(path)?;
    let Sel::Group(i) = first else {
        return None;
    };
    old.call_at(i as usize)?;
    Some((groups, i, others))
}

/// The DAG of a template, its plan, the number of the task that a path goes down into, and what the path has behind it.
pub fn task_below<'a>(
    named: Named<'a>,
    path: &'a [Sel],
) -> Option<(&'a Dag, &'a DagPlan, u32, &'a [Sel])>
    requires { MayWalk named }
    ensures dag { IfSome result (λ below. named.entry.template.now.body ≡ body.Dag below.0.now) }
    ensures plan { IfSome result (λ below. IsPlan below.0.now below.1.now) }
    ensures path { IfSome result (λ below. path.now ≡ sels.Task below.2 ∷ below.3.now) }
{
    let Body::Dag(dag) = &named.template.body else {
        return None;
    };
    let plan = named.plan?;
    let (first, others) = split(path)?;
    match first {
        Sel::Task(j) => Some((dag, plan, j, others)),
        _ => None,
    }
}

/// The number of the item of a looped call that a path goes down into, what it made, and what the path has behind it.
pub fn item_below<'a>(old: &'a State, path: &'a [Sel]) -> Option<(u32, &'a State, &'a [Sel])>
    ensures path { IfSome result (λ below. path.now ≡ sels.Item below.0 ∷ below.2.now) }
    ensures item { IfSome result (λ below. call_at old.now.parts below.0 ≡ Some below.1.now) }
{
    let (first, others) = split(path)?;
    let Sel::Item(i) = first else {
        return None;
    };
    let item = old.call_at(i as usize)?;
    Some((i, item, others))
}

/// The number of the member of a group that a path goes down into, what it made, and what the path has behind it.
pub fn member_below<'a>(old: &'a State, path: &'a [Sel]) -> Option<(u32, &'a State, &'a [Sel])>
    ensures path { IfSome result (λ below. path.now ≡ sels.Step below.0 ∷ below.2.now) }
    ensures member { IfSome result (λ below. call_at old.now.parts below.0 ≡ Some below.1.now) }
{
    let (first, others) = split(path)?;
    let Sel::Step(j) = first else {
        return None;
    };
    let member = old.call_at(j as usize)?;
    Some((j, member, others))
}

/// Takes the room of all nodes of a state but those of one call below its node.
pub fn take_others(old: &State, call: &State, room: &mut Room) -> Result<(), TreeRefused>
    ensures { TakesAll (count old.now - count call.now) room.old room.new result }
{
    room.take_all(old.count().saturating_sub(call.count()))
}

/// What a call made, once more.
pub fn shared(old: &Shared, room: &mut Room) -> Result<Shared, TreeRefused>
    ensures { Gives room.old room.new result old.now }
{
    room.take_all(old.state().count())?;
    Ok(old.copy()?)
}

/// What the first calls of a row made, once more.
pub fn shared_first(
    old: &List<Shared>,
    count: usize,
    room: &mut Room,
) -> Result<List<Shared>, TreeRefused>
    requires { count ≤ length old.now }
    ensures { GivesRow room.old room.new result (take count old.now) }
{
    let mut states = List::new(old.allocator());
    for i in 0..count {
        states.push(shared(old.get(i), room)?)?;
    }
    Ok(states)
}

/// A group without the tags of its members, which are not asked for before it Succeeded.
pub fn untagged(alloc: Global, state: State) -> Result<Group, Memory>
    ensures { IfOk result (λ group. group.state ≡ state) }
{
    Ok(Group {
        state: Shared::new(state)?,
        tags: Tags::new(alloc),
    })
}
