//! What a walk does where it calls no template.

ghost use Rattle.std.specs.Prelude.{◌≡◌, ◌||◌, not, ◌∷◌, ◌++◌, [], map, IfOk, OnOk, List as Seq};
ghost use Rattle.tree_types.specs.Phases as phases;
ghost use Rattle.scopes.specs.Substitution.{Scope as Values};
ghost use Rattle.scopes.specs.Values.{HasValuesOf};
ghost use Rattle.meaning.specs.Lines as lines;
ghost use Rattle.meaning.specs.Calls as meant;
ghost use Rattle.meaning.specs.Steps as steps;
ghost use Rattle.tree_walk.specs.Walking.{GivesHalted, behind_lock as lock_made, group_seen, groups_kept, AddsHook, label_of, prefix_of};

use base_types::{List, Memory, Text};
use call_nodes::add_tags_of;
use call_texts::Halt;
use leaf_states::lone;
use meaning::Place;
use recorded::Recorded;
use row_states::{group_state, group_tags, row, steps_state};
use scopes::{Scope, Tags};
use std::alloc::Global;
use tree_state::{Room, Shared, State, TreeRefused};
use tree_types::{Kind, LockId, Node, Phase};
use wf_manifest::{Dag, Group as Calls, Hook, OutputDecls, Template};

/// Whether a call is a step or a task, by which the prefix of its tags is told.
#[derive(Clone, Copy, Debug)]
pub enum Listed {
    Steps,
    Tasks,
}

/// What follows the node of a template: the exit hook of a call, which sees the tags of its step or task.
#[derive(Clone, Copy)]
pub struct After<'a> {
    pub of: Listed,
    pub name: &'a Text,
    pub exit: Option<&'a Hook>,
}

/// The groups of a steps template that exist, and the scope behind them.
pub struct Row {
    pub states: List<Shared>,
    pub scope: Scope,
}

// Written out, so that proofs about code that drops a row see one call.
impl Drop for Row {
    fn drop(self) {
        let Row {
            states: _,
            scope: _,
        } = self;
    }
}

/// A group of steps, and the tags of its members.
#[derive(Drop)]
pub struct Group {
    pub state: Shared,
    pub tags: Tags,
}

impl Row {
    /// No groups, and the scope of the template.
    pub fn new(alloc: Global, scope: &Scope) -> Result<Row, Memory>
        ensures { IfOk result (λ row. row ≡ record { states = []; scope = scope.now }) }
    {
        Ok(Row {
            states: List::new(alloc),
            scope: scope.share()?,
        })
    }

    /// Adds a group: what follows sees its tags.
    pub fn add(&mut self, group: Group) -> Result<(), Memory>
        ensures { OnOk result (self.new ≡ record {
          states = self.old.states ++ group.state ∷ [];
          scope = group.tags ++ self.old.scope;
        }) }
    {
        self.scope = self.scope.with(group.tags)?;
        self.states.push(group.state)
    }

    /// The groups and the scope, apart: no field can be taken out of a row.
    pub fn into_parts(self) -> (List<Shared>, Scope)
        ensures states { result.0 ≡ self.states }
        ensures scope { result.1 ≡ self.scope }
    {
        let Row { states, scope } = self;
        (states, scope)
    }
}

impl Group {
    /// Whether the group's node Succeeded, so that the next group begins.
    pub fn has_succeeded(&self) -> bool
        ensures { result ≡ phases.is_succeeded self.now.state.own.node.phase }
    {
        matches!(self.state.state().phase(), Phase::Succeeded)
    }
}

/// The Error node of a fault.
pub(crate) fn halted(
    place: Place,
    kind: Kind,
    halt: Halt,
    room: &mut Room,
) -> Result<State, TreeRefused>
    ensures { GivesHalted room.old room.new result place kind halt }
{
    match halt {
        Halt::Fault(note) => lone(place, kind, Phase::Error, note, room),
        Halt::Memory => Err(TreeRefused::Memory),
    }
}

/// Whether a task that nothing holds back begins: with `failFast` exactly where its beginning is recorded.
pub fn begins<R: Recorded>(recorded: &R, dag: &Dag, at: &Place) -> bool
    ensures { result ≡ (not dag.now.fail_fast || (R.answers recorded.now).begun at.now.sels) }
{
    if !dag.fail_fast {
        return true;
    }
    recorded.begun(&at.sels)
}

/// The lock that a template's node waits for, if it waits.
pub(crate) fn behind_lock<'a, R: Recorded>(
    recorded: &R,
    place: &Place,
    template: &'a Template,
) -> Option<&'a LockId>
    ensures { (called : steps.Caller) (scope : Values) →
        meant.template_made (R.answers recorded.now) called place.now scope template.entry.now
        ≡ lock_made (R.answers recorded.now) called place.now scope template.entry.now result }
{
    match &template.lock {
        None => None,
        Some(lock) => {
            if recorded.granted(&place.sels) {
                None
            } else {
                Some(lock)
            }
        }
    }
}

fn prefix(of: Listed) -> &'static str
    ensures { result.now ≡ prefix_of of }
{
    match of {
        Listed::Steps => "steps.",
        Listed::Tasks => "tasks.",
    }
}

/// The scope of an exit hook: over that of its call, the tags of the call itself.
pub(crate) fn hook_scope(
    alloc: Global,
    scope: &Scope,
    after: After<'_>,
    node: &Node,
) -> Result<Scope, Memory>
    ensures { IfOk result (λ inner. (b : lines.Made) → b.own.node ≡ node.now →
        HasValuesOf inner (lines.tags_of (label_of after.entry) b ++ scope.now)) }
{
    let mut tags = Tags::new(alloc);
    add_tags_of(&mut tags, prefix(after.of), after.name, node)?;
    scope.with(tags)
}

/// A call with its exit hook behind it.
pub(crate) fn with_hook(
    state: State,
    hook: Result<State, TreeRefused>,
) -> Result<State, TreeRefused>
    ensures { AddsHook state hook result }
{
    let hook = hook?;
    let mut state = state;
    state.add_hook(hook)?;
    Ok(state)
}

/// A group over what its members made.
pub fn group_over(place: Place, calls: &Calls, states: List<Shared>) -> Result<Group, Memory>
    ensures { (ms : Seq steps.Member) → map (λ m. m.0) ms ≡ calls.now → steps.makings ms ≡ states →
        IfOk result (group_seen place ms) }
{
    let tags = group_tags(calls, &states)?;
    let state = Shared::new(group_state(place, calls, states)?)?;
    Ok(Group { state, tags })
}

/// The phase of the first group that did not succeed, else Succeeded.
fn phase_of(states: &List<Shared>) -> Phase
    ensures { result ≡ steps.steps_phase states.now }
{
    for state in states.as_slice() {
        let phase = state.state().phase();
        if !matches!(phase, Phase::Succeeded) {
            return phase;
        }
    }
    Phase::Succeeded
}

/// The node of a steps template over its groups.
pub fn steps_over(place: Place, declared: &OutputDecls, groups: Row) -> Result<State, Memory>
    ensures { IfOk result (λ state. state ≡ steps.steps_by place declared.now (groups_kept groups)) }
{
    let phase = phase_of(&groups.states);
    let (states, scope) = groups.into_parts();
    let below = row(states)?;
    steps_state(place, &scope, declared, phase, below)
}
