//! The walk that is made again once one fact more is recorded: it goes down the path of the fact alone. What stands beside the
//! path is shared with what was made before, and what begins anew is made by the walk over all.

ghost use Rattle.std.specs.Prelude.{◌≡◌, ◌+◌, ◌++◌, ◌∷◌, ◌*◌, ◌<◌, ◌≤◌, All, IsTrue, Some, codes, is_some, length, option_copied};
ghost use Rattle.base_types.specs.Limits.{most_nodes};
ghost use Rattle.tree_types.specs.declared.path.Sel.TheVariants as sels;
ghost use Rattle.fanout.specs.Items.{is_whole, items};
ghost use Rattle.tree_change.specs.Inside.OneItem.{IsItemAt};
ghost use Rattle.meaning.specs.Calls as meant;
ghost use Rattle.meaning.specs.Steps as steps;
ghost use Rattle.meaning.specs.Trees as trees;
ghost use Rattle.locality.specs.Answered.{SameBut};
ghost use Rattle.tree_state.specs.Counting.{Gives};
ghost use Rattle.tree_state.specs.Replacing.{call_at};
ghost use Rattle.tree_walk.specs.Index.{IsReady};
ghost use Rattle.tree_walk.specs.Walkable.{IsNamed, AreNamed};
ghost use Rattle.tree_walk.specs.Planned.{MayWalk};
ghost use Rattle.tree_walk.specs.Walking.{hook_depth, label_of, prefix_of};
ghost use Rattle.tree_change.specs.Entered.{IsRunning};
ghost use Rattle.tree_change.specs.Inside.Groups.{KeepsFront, KeepsGroup};
ghost use Rattle.tree_change.specs.Inside.Resuming.{Resumes, calls_now, calls_before};

use crate::front::Front;
use crate::leaf::{is_running, runs_on};
use crate::share::{
    group_below, item_below, member_below, shared_first, take_others, task_below, untagged,
};
use base_types::{List, Text, TryCopy};
use call_nodes::{copy_place, group_place, item_place, member_place};
use call_texts::{item_scope, said, template_scope};
use leaf_states::saving;
use loop_item::loop_item;
use meaning::Place;
use recorded::Recorded;
use scopes::Scope;
use tree_state::{Room, Shared, State, TreeRefused};
use tree_types::Sel;
use tree_walk::{
    After, FURTHER_DEPTHS, Group, Listed, Named, Positions, Walk, group_over, steps_over, top_state,
};
use wf_manifest::{
    Arguments, Call, Group as Calls, Groups, Json, Loop, Manifest, Memoize, OutputDecls,
};

// A walk over a manifest and what is recorded of it together with a fact, and what was recorded before the fact.
pub(crate) struct Again<'a, R> {
    pub(crate) walk: Walk<'a, R>,
    pub(crate) before: &'a R,
}

impl<R> Drop for Again<'_, R> {
    fn drop(self) {
        let Again { walk: _, before: _ } = self;
    }
}

/// What the entrypoint makes once one fact more is recorded, by what it made before it: what is not on the way to the fact
/// is shared. `before` is what was recorded without the fact, and `rest` what the path of the fact has behind the
/// entrypoint's node.
pub fn made_again<R: Recorded>(
    manifest: &Manifest,
    positions: &Positions,
    globals: &Scope,
    recorded: &R,
    before: &R,
    place: Place,
    template: &Text,
    old: &State,
    rest: &[Sel],
    room: &mut Room,
) -> Result<State, TreeRefused>
    requires ready { IsReady manifest.now positions.now }
    requires shallow { place.depth ≡ 1 }
    requires same { SameBut (R.answers recorded.now) (R.answers before.now)
        (place.sels ++ rest.now) }
    requires old { old.now ≡ trees.top_call manifest.now (R.answers before.now)
        globals.now place template.now }
    ensures { Gives room.old room.new result
        (trees.top_call manifest.now (R.answers recorded.now) globals.now place template.now) }
{
    if !is_running(old) {
        return top_state(
            manifest, positions, globals, recorded, place, template, room,
        );
    }
    let walk = Walk {
        manifest,
        positions,
        globals,
        recorded,
    };
    let again = Again { walk, before };
    let after = After {
        of: Listed::Steps,
        name: &manifest.name,
        exit: None,
    };
    let given = &manifest.arguments;
    again.called(
        place,
        globals,
        template,
        given,
        after,
        old,
        rest,
        FURTHER_DEPTHS,
        room,
    )
}

impl<R: Recorded> Again<'_, R> {
    // A call with so many depths left, its own among them.
    #[cycle(again)]
    pub(crate) fn call(
        &self,
        of: Listed,
        place: Place,
        scope: &Scope,
        call: &Call,
        old: &State,
        rest: &[Sel],
        left: u32,
        room: &mut Room,
    ) -> Result<State, TreeRefused>
        requires resumes { Resumes R.answers self.now (place.sels ++ rest.now) }
        requires shallow { place.depth + 5 * left + 5 < 1000 }
        requires was { old.now ≡ calls_before R.answers self.now left (prefix_of of) place scope.now call.now }
        ensures { Gives room.old room.new result
            (calls_now R.answers self.now left (prefix_of of) place scope.now call.now) }
    {
        if left == 0 {
            return self.walk.call(of, place, scope, call, left, room);
        }
        if !is_running(old) {
            return self.walk.call(of, place, scope, call, left, room);
        }
        let Some(each) = &call.each else {
            return self.one(of, place, scope, call, old, rest, left - 1, room);
        };
        let Some((i, before, others)) = item_below(old, rest) else {
            return self.walk.call(of, place, scope, call, left, room);
        };
        let Some(item) = loop_item(self.walk.alloc(), each, scope, i as usize)? else {
            return self.walk.call(of, place, scope, call, left, room);
        };
        let left = left - 1;
        self.looped(
            of, place, scope, call, each, i, &item, old, before, others, left, room,
        )
    }

    // A looped call whose node ran, where the path goes down into its item `i`. All other items stay as they are: only where
    // all items are finished now are they gone through.
    #[cycle(again)]
    fn looped(
        &self,
        of: Listed,
        place: Place,
        scope: &Scope,
        call: &Call,
        each: &Loop,
        i: u32,
        item: &Json,
        old: &State,
        before: &State,
        rest: &[Sel],
        left: u32,
        room: &mut Room,
    ) -> Result<State, TreeRefused>
        requires resumes { Resumes R.answers self.now (place.sels ++ sels.Item i ∷ rest.now) }
        requires item { IsItemAt scope.now each.now i item.now }
        requires whole { IsTrue (is_whole item.now) }
        requires shallow { place.depth + 5 * left + 10 < 1000 }
        requires at { call_at old.now.parts i ≡ Some before.now }
        requires was { let m = self.now.walk.manifest.now in
            let B = R.answers self.now.before.now in
            let g = self.now.walk.globals.now in
            old.now ≡ meant.looped m B g (meant.calls m B g left) (prefix_of of) place scope.now call.now (items scope.now each.now) }
        ensures { let m = self.now.walk.manifest.now in
            let A = R.answers self.now.walk.recorded.now in
            let g = self.now.walk.globals.now in
            Gives room.old room.new result
            (meant.looped m A g (meant.calls m A g left) (prefix_of of) place scope.now call.now (items scope.now each.now)) }
    {
        take_others(old, before, room)?;
        let new = self.item(of, &place, scope, call, i, item, before, rest, left, room)?;
        let state = old.with_item(i as usize, new)?;
        if runs_on(old, &state) {
            return Ok(state);
        }
        let states = state.calls()?;
        Ok(self.walk.loop_of(place, call, states)?)
    }

    // An item of a looped call.
    #[cycle(again)]
    fn item(
        &self,
        of: Listed,
        place: &Place,
        scope: &Scope,
        call: &Call,
        i: u32,
        item: &Json,
        old: &State,
        rest: &[Sel],
        left: u32,
        room: &mut Room,
    ) -> Result<State, TreeRefused>
        requires resumes { Resumes R.answers self.now (place.now.sels ++ sels.Item i ∷ rest.now) }
        requires whole { IsTrue (is_whole item.now) }
        requires shallow { place.now.depth + 5 * left + 10 < 1000 }
        requires was { let m = self.now.walk.manifest.now in
            let B = R.answers self.now.before.now in
            let g = self.now.walk.globals.now in
            old.now ≡ meant.item_made m B g (meant.calls m B g left) (prefix_of of) place.now scope.now call.now i item.now }
        ensures { let m = self.now.walk.manifest.now in
            let A = R.answers self.now.walk.recorded.now in
            let g = self.now.walk.globals.now in
            Gives room.old room.new result
            (meant.item_made m A g (meant.calls m A g left) (prefix_of of) place.now scope.now call.now i item.now) }
    {
        let inner = item_scope(self.walk.alloc(), scope, item)?;
        let at = item_place(self.walk.alloc(), place, i, item)?;
        self.one(of, at, &inner, call, old, rest, left, room)
    }

    // One item of a call, or a call without a loop.
    #[cycle(again)]
    fn one(
        &self,
        of: Listed,
        place: Place,
        scope: &Scope,
        call: &Call,
        old: &State,
        rest: &[Sel],
        left: u32,
        room: &mut Room,
    ) -> Result<State, TreeRefused>
        requires resumes { Resumes R.answers self.now (place.sels ++ rest.now) }
        requires shallow { place.depth + 5 * left + 9 < 1000 }
        requires was { let m = self.now.walk.manifest.now in
            let B = R.answers self.now.before.now in
            let g = self.now.walk.globals.now in
            old.now ≡ meant.one_made m B g (meant.calls m B g left) (prefix_of of) place scope.now call.now }
        ensures { let m = self.now.walk.manifest.now in
            let A = R.answers self.now.walk.recorded.now in
            let g = self.now.walk.globals.now in
            Gives room.old room.new result
            (meant.one_made m A g (meant.calls m A g left) (prefix_of of) place scope.now call.now) }
    {
        if !is_running(old) {
            return self.walk.one(of, place, scope, call, left, room);
        }
        let after = After {
            of,
            name: &call.name,
            exit: call.exit.as_ref(),
        };
        let given = &call.arguments;
        self.called(
            place,
            scope,
            &call.template,
            given,
            after,
            old,
            rest,
            left,
            room,
        )
    }

    // A call of a template whose node ran, and what follows the template's node.
    #[cycle(again)]
    fn called(
        &self,
        place: Place,
        scope: &Scope,
        name: &Text,
        given: &Arguments,
        after: After<'_>,
        old: &State,
        rest: &[Sel],
        left: u32,
        room: &mut Room,
    ) -> Result<State, TreeRefused>
        requires resumes { Resumes R.answers self.now (place.sels ++ rest.now) }
        requires shallow { place.depth + 5 * left + 8 + hook_depth after.exit < 1000 }
        requires runs { IsRunning old.now }
        requires was { let m = self.now.walk.manifest.now in
            let B = R.answers self.now.before.now in
            let g = self.now.walk.globals.now in
            old.now ≡ meant.call_of_template m B g (meant.calls m B g left) place scope.now name.now given.now
            (meant.hooked m B g (meant.calls m B g left) (label_of after) place scope.now (option_copied after.exit)) }
        ensures { let m = self.now.walk.manifest.now in
            let A = R.answers self.now.walk.recorded.now in
            let g = self.now.walk.globals.now in
            Gives room.old room.new result
            (meant.call_of_template m A g (meant.calls m A g left) place scope.now name.now given.now
            (meant.hooked m A g (meant.calls m A g left) (label_of after.entry) place scope.now (option_copied after.entry.exit))) }
    {
        let Some(named) = self.walk.template_of(name) else {
            return self
                .walk
                .called(place, scope, name, given, after, left, room);
        };
        let globals = self.walk.globals;
        let inputs = &named.template.inputs;
        match template_scope(self.walk.alloc(), globals, scope, given, inputs) {
            Ok(inner) => self.entered(place, scope, &inner, named, after, old, rest, left, room),
            Err(_) => self
                .walk
                .called(place, scope, name, given, after, left, room),
        }
    }

    #[cycle(again)]
    fn entered(
        &self,
        place: Place,
        scope: &Scope,
        inner: &Scope,
        named: Named<'_>,
        after: After<'_>,
        old: &State,
        rest: &[Sel],
        left: u32,
        room: &mut Room,
    ) -> Result<State, TreeRefused>
        requires resumes { Resumes R.answers self.now (place.sels ++ rest.now) }
        requires walkable { MayWalk named }
        requires shallow { place.depth + 5 * left + 8 + hook_depth after.exit < 1000 }
        requires runs { IsRunning old.now }
        requires was { let B = R.answers self.now.before.now in
            old.now ≡ meant.template_made B (calls_before R.answers self.now left) place inner.now named.template.now }
        ensures { let m = self.now.walk.manifest.now in
            let A = R.answers self.now.walk.recorded.now in
            let g = self.now.walk.globals.now in
            Gives room.old room.new result
            (meant.hooked m A g (meant.calls m A g left) (label_of after.entry) place scope.now (option_copied after.entry.exit)
            (meant.template_made A (meant.calls m A g left) place inner.now named.entry.template.now)) }
    {
        let Some(hook) = after.exit else {
            return self.template(place, inner, named, old, rest, left, room);
        };
        let at = copy_place(&place)?;
        let state = self.template(place, inner, named, old, rest, left, room)?;
        self.walk.hook(state, &at, scope, hook, after, left, room)
    }

    // A template's node that ran.
    #[cycle(again)]
    fn template(
        &self,
        place: Place,
        scope: &Scope,
        named: Named<'_>,
        old: &State,
        rest: &[Sel],
        left: u32,
        room: &mut Room,
    ) -> Result<State, TreeRefused>
        requires resumes { Resumes R.answers self.now (place.sels ++ rest.now) }
        requires walkable { MayWalk named }
        requires shallow { place.depth + 5 * left + 8 < 1000 }
        requires runs { IsRunning old.now }
        requires was { let B = R.answers self.now.before.now in
            old.now ≡ meant.template_made B (calls_before R.answers self.now left) place scope.now named.template.now }
        ensures { let A = R.answers self.now.walk.recorded.now in
            Gives room.old room.new result
            (meant.template_made A (calls_now R.answers self.now left) place scope.now named.entry.template.now) }
    {
        let Some((groups, j, others)) = group_below(named.template, old, rest) else {
            return self.other(place, scope, named, old, rest, left, room);
        };
        let declared = &named.template.outputs;
        let Some(memoize) = &named.template.memoize else {
            return self.steps(place, scope, declared, groups, old, j, others, left, room);
        };
        match said(&memoize.key, scope) {
            Ok(key) => self.missed(
                place, scope, declared, memoize, key, groups, old, j, others, left, room,
            ),
            Err(_) => self.walk.template(place, scope, named, left, room),
        }
    }

    // A template's node that ran, where the path goes down into no group.
    #[cycle(again)]
    fn other(
        &self,
        place: Place,
        scope: &Scope,
        named: Named<'_>,
        old: &State,
        rest: &[Sel],
        left: u32,
        room: &mut Room,
    ) -> Result<State, TreeRefused>
        requires resumes { Resumes R.answers self.now (place.sels ++ rest.now) }
        requires walkable { MayWalk named }
        requires shallow { place.depth + 5 * left + 8 < 1000 }
        requires runs { IsRunning old.now }
        requires was { let B = R.answers self.now.before.now in
            old.now ≡ meant.template_made B (calls_before R.answers self.now left) place scope.now named.template.now }
        ensures { let A = R.answers self.now.walk.recorded.now in
            Gives room.old room.new result
            (meant.template_made A (calls_now R.answers self.now left) place scope.now named.entry.template.now) }
    {
        let Some((dag, plan, j, others)) = task_below(named, rest) else {
            return self.walk.template(place, scope, named, left, room);
        };
        let declared = &named.template.outputs;
        let Some(memoize) = &named.template.memoize else {
            return self.dag(
                place, scope, declared, dag, plan, old, j, others, left, room,
            );
        };
        match said(&memoize.key, scope) {
            Ok(key) => self.missed_dag(
                place, scope, declared, memoize, key, dag, plan, old, j, others, left, room,
            ),
            Err(_) => self.walk.template(place, scope, named, left, room),
        }
    }

    // A steps template whose cache had nothing.
    #[cycle(again)]
    fn missed(
        &self,
        place: Place,
        scope: &Scope,
        declared: &OutputDecls,
        memoize: &Memoize,
        key: Text,
        groups: &Groups,
        old: &State,
        j: u32,
        rest: &[Sel],
        left: u32,
        room: &mut Room,
    ) -> Result<State, TreeRefused>
        requires resumes { Resumes R.answers self.now (place.sels ++ sels.Group j ∷ rest.now) }
        requires named { AreNamed groups.now }
        requires shallow { place.depth + 5 * left + 8 < 1000 }
        requires exists { IsTrue (is_some (call_at old.now.parts j)) }
        requires was { old.now ≡ steps.steps_made (calls_before R.answers self.now left) place scope.now declared.now groups.now }
        ensures { Gives room.old room.new result (meant.saving place memoize.now key
            (steps.steps_made (calls_now R.answers self.now left) place scope.now declared.now groups.now)) }
    {
        let at = place.sels.copy()?;
        let state = self.steps(place, scope, declared, groups, old, j, rest, left, room)?;
        Ok(saving(state, at, memoize, key)?)
    }

    // A steps template, where the path goes down into its group `j`.
    #[cycle(again)]
    fn steps(
        &self,
        place: Place,
        scope: &Scope,
        declared: &OutputDecls,
        groups: &Groups,
        old: &State,
        j: u32,
        rest: &[Sel],
        left: u32,
        room: &mut Room,
    ) -> Result<State, TreeRefused>
        requires resumes { Resumes R.answers self.now (place.sels ++ sels.Group j ∷ rest.now) }
        requires named { AreNamed groups.now }
        requires shallow { place.depth + 5 * left + 8 < 1000 }
        requires exists { IsTrue (is_some (call_at old.now.parts j)) }
        requires was { old.now ≡ steps.steps_made (calls_before R.answers self.now left) place scope.now declared.now groups.now }
        ensures { Gives room.old room.new result
            (steps.steps_made (calls_now R.answers self.now left) place scope.now declared.now groups.now) }
    {
        room.take()?;
        let before = old.calls()?;
        let mut front = self.groups(&place, scope, groups, &before, j, rest, left, room)?;
        front.ready_for_outputs(scope, groups, declared)?;
        Ok(steps_over(place, declared, front.into_row())?)
    }

    // The groups that exist: those in front of group `j` are shared.
    #[cycle(again)]
    fn groups(
        &self,
        place: &Place,
        scope: &Scope,
        groups: &Groups,
        old: &List<Shared>,
        j: u32,
        rest: &[Sel],
        left: u32,
        room: &mut Room,
    ) -> Result<Front, TreeRefused>
        requires resumes { Resumes R.answers self.now (place.now.sels ++ sels.Group j ∷ rest.now) }
        requires named { AreNamed groups.now }
        requires few { room.now ≤ most_nodes }
        requires shallow { place.now.depth + 5 * left + 8 < 1000 }
        requires exists { j < length old.now }
        requires was { old.now ≡ (steps.groups_from (calls_before R.answers self.now left) place.now 0 scope.now groups.now).all }
        ensures { KeepsFront room.old room.new result scope.now
            (steps.groups_from (calls_now R.answers self.now left) place.now 0 scope.now groups.now) }
    {
        let mut front = Front::new(scope, shared_first(old, j as usize, room)?)?;
        let before = old.get(j as usize).state();
        let many = before.count();
        for i in j as usize..groups.len() {
            let calls = groups.get(i);
            front.ready_for_group(scope, groups, calls, many)?;
            let inner = &front.row.scope;
            let group = self.group_at(place, i as u32, inner, calls, before, j, rest, left, room)?;
            let goes_on = group.has_succeeded();
            front.add(group)?;
            if !goes_on {
                return Ok(front);
            }
        }
        Ok(front)
    }

    // Group `i`: the one that the path goes down into, or one behind it, which is made anew.
    #[cycle(again)]
    fn group_at(
        &self,
        place: &Place,
        i: u32,
        scope: &Scope,
        calls: &Calls,
        old: &State,
        j: u32,
        rest: &[Sel],
        left: u32,
        room: &mut Room,
    ) -> Result<Group, TreeRefused>
        requires resumes { Resumes R.answers self.now (place.now.sels ++ sels.Group j ∷ rest.now) }
        requires named { All IsNamed calls.now }
        requires shallow { place.now.depth + 5 * left + 8 < 1000 }
        requires turn { j ≤ i }
        requires was { i ≡ j → old.now ≡ steps.group_made (steps.group_place place.now i)
            (steps.members_at (calls_before R.answers self.now left) place.now i scope.now calls.now) }
        ensures { KeepsGroup room.old room.new result (steps.group_place place.now i)
            (steps.members_at (calls_now R.answers self.now left) place.now i scope.now calls.now) }
    {
        let at = group_place(place, i)?;
        if j < i {
            return self.walk.group(at, scope, calls, left, room);
        }
        self.group(at, scope, calls, old, rest, left, room)
    }

    // A group of steps, with the tags of its members where it Succeeded. Where it runs on, all members but the one that the
    // path goes down into stay as they are.
    #[cycle(again)]
    fn group(
        &self,
        place: Place,
        scope: &Scope,
        calls: &Calls,
        old: &State,
        rest: &[Sel],
        left: u32,
        room: &mut Room,
    ) -> Result<Group, TreeRefused>
        requires resumes { Resumes R.answers self.now (place.sels ++ rest.now) }
        requires named { All IsNamed calls.now }
        requires shallow { place.depth + 5 * left + 7 < 1000 }
        requires was { old.now ≡ steps.group_made place (steps.members (calls_before R.answers self.now left) place scope.now calls.now) }
        ensures { KeepsGroup room.old room.new result place
            (steps.members (calls_now R.answers self.now left) place scope.now calls.now) }
    {
        let Some((j, before, others)) = member_below(old, rest) else {
            return self.walk.group(place, scope, calls, left, room);
        };
        take_others(old, before, room)?;
        let call = calls.get(j as usize);
        let new = self.member(&place, j, scope, call, before, others, left, room)?;
        let state = old.with_call(j as usize, new)?;
        if runs_on(old, &state) {
            return Ok(untagged(self.walk.alloc(), state)?);
        }
        let states = state.calls()?;
        Ok(group_over(place, calls, states)?)
    }

    // A member of a group.
    #[cycle(again)]
    fn member(
        &self,
        group: &Place,
        j: u32,
        scope: &Scope,
        call: &Call,
        old: &State,
        rest: &[Sel],
        left: u32,
        room: &mut Room,
    ) -> Result<State, TreeRefused>
        requires resumes { Resumes R.answers self.now (group.now.sels ++ sels.Step j ∷ rest.now) }
        requires named { IsNamed call.now }
        requires shallow { group.now.depth + 5 * left + 6 < 1000 }
        requires was { old.now ≡ calls_before R.answers self.now left (codes "steps.") (steps.member_place group.now j call.now) scope.now call.now }
        ensures { Gives room.old room.new result
            (calls_now R.answers self.now left (codes "steps.") (steps.member_place group.now j call.now) scope.now call.now) }
    {
        let at = member_place(group, j, call)?;
        self.call(Listed::Steps, at, scope, call, old, rest, left, room)
    }
}
