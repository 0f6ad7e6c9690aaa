//! The groups of a steps template that are gone through. The tags of their members are made only where a text asks for some.

ghost use Rattle.std.specs.Prelude.{◌≡◌, ℕ, [], true, IfOk, OnOk};
ghost use Rattle.scopes.specs.Values.{HasValuesOf};
ghost use Rattle.meaning.specs.declared.lines.Place.{Place};
ghost use Rattle.meaning.specs.Steps as steps;
ghost use Rattle.tree_types.specs.Phases as phases;
ghost use Rattle.tree_change.specs.Inside.Groups.{IsFront, IsEnd, IsSaid, SeesAlike, first_groups, with_group};

use base_types::{List, Memory};
use mentions::{group_asks_for, outputs_ask_for};
use row_states::group_tags;
use scopes::Scope;
use tree_state::Shared;
use tree_types::Phase;
use tree_walk::{Group, Row};
use wf_manifest::{Group as Calls, Groups, OutputDecls};

// By what the tags of all members of groups begin.
const PREFIX: &str = "steps.";

/// Groups that are gone through, and the scope that the next one is made in: it has the tags of all their members, or it is
/// that of the template.
#[derive(Drop)]
pub struct Front {
    pub row: Row,
    pub tagged: bool,
}

impl Front {
    /// Groups of which nothing has asked for a tag.
    pub fn new(scope: &Scope, states: List<Shared>) -> Result<Front, Memory>
        ensures { (groups : steps.Groups) → states ≡ groups.all → (states ≡ [] → groups.scope ≡ scope.now) →
            IfOk result (λ front. IsFront front scope.now groups) }
    {
        let tagged = states.is_empty();
        let scope = scope.share()?;
        Ok(Front {
            row: Row { states, scope },
            tagged,
        })
    }

    /// Makes the tags where a group that follows asks for one. Where the groups have fewer members than so many, they are made
    /// without a look at its texts.
    pub fn ready_for_group(
        &mut self,
        scope: &Scope,
        groups: &Groups,
        calls: &Calls,
        many: usize,
    ) -> Result<(), Memory>
        ensures { (called : steps.Caller) (place : Place) (n : ℕ) →
            let made = first_groups called place scope.now groups.now n in
            IsFront self.old scope.now made → OnOk result
            (IsFront self.new scope.now made × SeesAlike self.new.row.scope made.scope calls.now) }
    {
        if self.tagged {
            return Ok(());
        }
        if have_fewer(groups, self.row.states.len(), many) {
            return self.tag(scope, groups);
        }
        if group_asks_for(calls.allocator(), PREFIX, calls)? {
            return self.tag(scope, groups);
        }
        Ok(())
    }

    /// Makes the tags where all groups Succeeded and a declared output asks for one.
    pub fn ready_for_outputs(
        &mut self,
        scope: &Scope,
        groups: &Groups,
        declared: &OutputDecls,
    ) -> Result<(), Memory>
        ensures { (called : steps.Caller) (place : Place) →
            let made = steps.groups_from called place 0 scope.now groups.now in
            IsEnd self.old scope.now made → OnOk result (IsSaid self.new.row declared.now made) }
    {
        if self.tagged {
            return Ok(());
        }
        if !have_succeeded(&self.row.states) {
            return Ok(());
        }
        if outputs_ask_for(PREFIX, declared) {
            return self.tag(scope, groups);
        }
        Ok(())
    }

    fn tag(&mut self, scope: &Scope, groups: &Groups) -> Result<(), Memory>
        ensures states { OnOk result (self.new.row.states ≡ self.old.row.states) }
        ensures tagged { OnOk result (self.new.tagged ≡ true) }
        ensures scope { (called : steps.Caller) (place : Place) (n : ℕ) →
            let made = first_groups called place scope.now groups.now n in
            self.old.row.states ≡ made.all → OnOk result (HasValuesOf self.new.row.scope made.scope) }
    {
        self.row.scope = scope_behind(scope, groups, &self.row.states)?;
        self.tagged = true;
        Ok(())
    }

    /// Adds a group: what follows sees its tags where it sees those of the groups in front of it.
    pub fn add(&mut self, group: Group) -> Result<(), Memory>
        ensures { OnOk result (self.new ≡ with_group self.old group) }
    {
        if self.tagged {
            return self.row.add(group);
        }
        let Group { state, tags: _ } = group;
        self.row.states.push(state)
    }

    /// The groups, and the scope that was made last.
    pub fn into_row(self) -> Row
        ensures { result ≡ self.row }
    {
        let Front { row, tagged: _ } = self;
        row
    }
}

// The scope behind groups that made these states: over that of their template, the tags of all their members.
fn scope_behind(scope: &Scope, groups: &Groups, states: &List<Shared>) -> Result<Scope, Memory>
    ensures { (called : steps.Caller) (place : Place) (n : ℕ) →
        let made = first_groups called place scope.now groups.now n in
        states.now ≡ made.all → IfOk result (λ behind. HasValuesOf behind made.scope) }
{
    let mut behind = scope.share()?;
    for i in 0..groups.len().min(states.len()) {
        let members = states.get(i).state().calls()?;
        let tags = group_tags(groups.get(i), &members)?;
        behind = behind.with(tags)?;
    }
    Ok(behind)
}

// Each of the groups Succeeded.
fn have_succeeded(states: &List<Shared>) -> bool
    ensures { result ≡ phases.is_succeeded (steps.steps_phase states.now) }
{
    for state in states.as_slice() {
        if !matches!(state.state().phase(), Phase::Succeeded) {
            return false;
        }
    }
    true
}

// Whether the first groups have fewer members than so many.
fn have_fewer(groups: &Groups, count: usize, many: usize) -> bool {
    let mut left = many;
    for i in 0..count.min(groups.len()) {
        let members = groups.get(i).len();
        if left <= members {
            return false;
        }
        left -= members;
    }
    true
}
