//! The walk over a manifest that makes what its calls make.

ghost use Rattle.std.specs.Prelude.{◌≡◌, ◌+◌, ◌*◌, ◌<◌, ◌≤◌, All, IsTrue, IfOk, IfSome, Ok, Some, option_copied, option_map};
ghost use Rattle.base_types.specs.Limits.{most_nodes};
ghost use Rattle.fanout.specs.Items.{is_whole};
ghost use Rattle.meaning.specs.Calls as meant;
ghost use Rattle.meaning.specs.Steps as steps;
ghost use Rattle.meaning.specs.Trees as trees;
ghost use Rattle.tree_state.specs.Counting.{Gives, count};
ghost use Rattle.tree_walk.specs.Walkable.{IsNamed, AreNamed};
ghost use Rattle.tree_walk.specs.Planned.{MayWalk};
ghost use Rattle.tree_walk.specs.Index.{IsReady};
ghost use Rattle.tree_walk.specs.Walking.{GivesRow, GivesGroups, GivesGroup, hook_depth, label_of, prefix_of};

use crate::over::{
    After, Group, Listed, Row, behind_lock, group_over, halted, hook_scope, steps_over, with_hook,
};
use crate::templates::{Named, Positions, find_template};
use base_types::limits::MOST_DEPTH;
use base_types::{List, Memory, Text, TryCopy};
use call_nodes::{copy_place, group_place, hook_place, item_place, kind_of, member_place};
use call_texts::{goes_on, item_scope, loop_items, said, template_scope};
use fanout::Items;
use hooks_exit::hook_runs;
use leaf_states::{hit, lone, looking, pod, retried, saving, suspended, waiting};
use meaning::Place;
use recorded::Recorded;
use row_states::loop_state;
use scopes::Scope;
use std::alloc::Global;
use tree_state::{Room, Shared, State, TreeRefused};
use tree_types::{Kind, Note, Phase};
use wf_manifest::{
    Arguments, Body, Call, Group as Calls, Groups, Hook, Json, Manifest, Memoize, OutputDecls,
};

/// How many depths may be called below the entrypoint and the exit handler, which have depth 1.
pub const FURTHER_DEPTHS: u32 = MOST_DEPTH - 1;

/// A manifest, where its templates stand, with the plans of its DAGs, the scope of the workflow's tags, and what is recorded
/// of it.
pub struct Walk<'a, R> {
    pub manifest: &'a Manifest,
    pub positions: &'a Positions,
    pub globals: &'a Scope,
    pub recorded: &'a R,
}

impl<R> Drop for Walk<'_, R> {
    fn drop(self) {
        let Walk {
            manifest: _,
            positions: _,
            globals: _,
            recorded: _,
        } = self;
    }
}

/// What the entrypoint makes, or the exit handler: a template that is called at depth 1 with the workflow's arguments, in a
/// scope of the workflow's tags.
pub fn top_state<R: Recorded>(
    manifest: &Manifest,
    positions: &Positions,
    globals: &Scope,
    recorded: &R,
    place: Place,
    template: &Text,
    room: &mut Room,
) -> Result<State, TreeRefused>
    requires ready { IsReady manifest.now positions.now }
    requires shallow { place.depth ≡ 1 }
    ensures { Gives room.old room.new result
        (trees.top_call manifest.now (R.answers recorded.now) globals.now place template.now) }
{
    let walk = Walk {
        manifest,
        positions,
        globals,
        recorded,
    };
    let after = After {
        of: Listed::Steps,
        name: &manifest.name,
        exit: None,
    };
    let given = &manifest.arguments;
    walk.called(place, globals, template, given, after, FURTHER_DEPTHS, room)
}

impl<R: Recorded> Walk<'_, R> {
    /// The allocator that the manifest keeps.
    pub fn alloc(&self) -> Global {
        self.manifest.name.allocator()
    }

    // The kind of the nodes of a template by its name.
    fn kind_named(&self, name: &Text) -> Kind
        requires ready { IsReady self.now.manifest.now self.now.positions.now }
        ensures { result ≡ meant.kind_named self.now.manifest.now name.now }
    {
        match find_template(self.manifest, self.positions, name) {
            Some(named) => kind_of(named.template),
            None => Kind::Pod,
        }
    }

    /// The template of a name, which may be walked over, with its plan.
    pub fn template_of(&self, name: &Text) -> Option<Named<'_>>
        requires ready { IsReady self.now.manifest.now self.now.positions.now }
        ensures found { option_map (λ n. n.template.now) result
            ≡ meant.template_named self.now.manifest.now name.now }
        ensures walkable { IfSome result (λ n. MayWalk n) }
    {
        find_template(self.manifest, self.positions, name)
    }

    /// The node of a looped call, over what its items made.
    pub fn loop_of(&self, place: Place, call: &Call, states: List<Shared>) -> Result<State, Memory>
        requires ready { IsReady self.now.manifest.now self.now.positions.now }
        ensures { IfOk result (λ state. state ≡ meant.loop_made place
            (meant.declared_by (meant.template_named self.now.manifest.now call.now.template)) states) }
    {
        match find_template(self.manifest, self.positions, &call.template) {
            Some(named) => loop_state(place, &named.template.outputs, states),
            None => loop_state(place, &OutputDecls::new(self.alloc()), states),
        }
    }

    /// A call with so many depths left, its own among them.
    #[cycle(walk)]
    pub fn call(
        &self,
        of: Listed,
        place: Place,
        scope: &Scope,
        call: &Call,
        left: u32,
        room: &mut Room,
    ) -> Result<State, TreeRefused>
        requires ready { IsReady self.now.manifest.now self.now.positions.now }
        requires shallow { place.depth + 5 * left + 5 < 1000 }
        ensures { let m = self.now.manifest.now in
            let A = R.answers self.now.recorded.now in
            let g = self.now.globals.now in
            Gives room.old room.new result
            (meant.calls m A g left (prefix_of of) place scope.now call.now) }
    {
        let kind = self.kind_named(&call.template);
        if left == 0 {
            return lone(place, kind, Phase::Error, Note::TooDeep, room);
        }
        match goes_on(self.alloc(), scope, &call.when, false) {
            Ok(true) => self.each(of, place, scope, call, left - 1, room),
            Ok(false) => lone(place, Kind::Skipped, Phase::Skipped, Note::WhenFalse, room),
            Err(halt) => halted(place, kind, halt, room),
        }
    }

    #[cycle(walk)]
    fn each(
        &self,
        of: Listed,
        place: Place,
        scope: &Scope,
        call: &Call,
        left: u32,
        room: &mut Room,
    ) -> Result<State, TreeRefused>
        requires ready { IsReady self.now.manifest.now self.now.positions.now }
        requires shallow { place.depth + 5 * left + 10 < 1000 }
        ensures { let m = self.now.manifest.now in
            let A = R.answers self.now.recorded.now in
            let g = self.now.globals.now in
            Gives room.old room.new result
            (meant.each_made m A g (meant.calls m A g left) (prefix_of of) place scope.now call.now call.now.each) }
    {
        let Some(each) = &call.each else {
            return self.one(of, place, scope, call, left, room);
        };
        match loop_items(self.alloc(), each, scope) {
            Ok(items) => self.looped(of, place, scope, call, &items, left, room),
            Err(halt) => halted(place, Kind::TaskGroup, halt, room),
        }
    }

    #[cycle(walk)]
    fn looped(
        &self,
        of: Listed,
        place: Place,
        scope: &Scope,
        call: &Call,
        items: &Items,
        left: u32,
        room: &mut Room,
    ) -> Result<State, TreeRefused>
        requires ready { IsReady self.now.manifest.now self.now.positions.now }
        requires whole { All (λ item. IsTrue (is_whole item)) items.now }
        requires shallow { place.depth + 5 * left + 10 < 1000 }
        ensures { let m = self.now.manifest.now in
            let A = R.answers self.now.recorded.now in
            let g = self.now.globals.now in
            Gives room.old room.new result
            (meant.looped m A g (meant.calls m A g left) (prefix_of of) place scope.now call.now (Ok items.now)) }
    {
        if items.is_empty() {
            return lone(place, Kind::Skipped, Phase::Skipped, Note::NoItems, room);
        }
        room.take()?;
        let states = self.items(of, &place, scope, call, items, left, room)?;
        Ok(self.loop_of(place, call, states)?)
    }

    #[cycle(walk)]
    fn items(
        &self,
        of: Listed,
        place: &Place,
        scope: &Scope,
        call: &Call,
        items: &Items,
        left: u32,
        room: &mut Room,
    ) -> Result<List<Shared>, TreeRefused>
        requires ready { IsReady self.now.manifest.now self.now.positions.now }
        requires whole { All (λ item. IsTrue (is_whole item)) items.now }
        requires few { room.now ≤ most_nodes }
        requires shallow { place.now.depth + 5 * left + 10 < 1000 }
        ensures { let m = self.now.manifest.now in
            let A = R.answers self.now.recorded.now in
            let g = self.now.globals.now in
            GivesRow room.old room.new result
            (meant.items_made m A g (meant.calls m A g left) (prefix_of of) place.now scope.now call.now items.now) }
    {
        let mut states = List::new(self.alloc());
        let mut i: u32 = 0;
        for item in items.as_slice() {
            let state = self.item(of, place, scope, call, i, item, left, room)?;
            states.push(Shared::new(state)?)?;
            i += 1;
        }
        Ok(states)
    }

    /// One item of a looped call.
    #[cycle(walk)]
    pub fn item(
        &self,
        of: Listed,
        place: &Place,
        scope: &Scope,
        call: &Call,
        i: u32,
        item: &Json,
        left: u32,
        room: &mut Room,
    ) -> Result<State, TreeRefused>
        requires ready { IsReady self.now.manifest.now self.now.positions.now }
        requires whole { IsTrue (is_whole item.now) }
        requires shallow { place.now.depth + 5 * left + 10 < 1000 }
        ensures { let m = self.now.manifest.now in
            let A = R.answers self.now.recorded.now in
            let g = self.now.globals.now in
            Gives room.old room.new result
            (meant.item_made m A g (meant.calls m A g left) (prefix_of of) place.now scope.now call.now i item.now) }
    {
        let inner = item_scope(self.alloc(), scope, item)?;
        let at = item_place(self.alloc(), place, i, item)?;
        self.one(of, at, &inner, call, left, room)
    }

    /// One item of a call, or a call without a loop.
    #[cycle(walk)]
    pub fn one(
        &self,
        of: Listed,
        place: Place,
        scope: &Scope,
        call: &Call,
        left: u32,
        room: &mut Room,
    ) -> Result<State, TreeRefused>
        requires ready { IsReady self.now.manifest.now self.now.positions.now }
        requires shallow { place.depth + 5 * left + 9 < 1000 }
        ensures { let m = self.now.manifest.now in
            let A = R.answers self.now.recorded.now in
            let g = self.now.globals.now in
            Gives room.old room.new result
            (meant.one_made m A g (meant.calls m A g left) (prefix_of of) place scope.now call.now) }
    {
        let kind = self.kind_named(&call.template);
        let after = After {
            of,
            name: &call.name,
            exit: call.exit.as_ref(),
        };
        match goes_on(self.alloc(), scope, &call.when, true) {
            Ok(true) => self.called(
                place,
                scope,
                &call.template,
                &call.arguments,
                after,
                left,
                room,
            ),
            Ok(false) => lone(place, Kind::Skipped, Phase::Skipped, Note::WhenFalse, room),
            Err(halt) => halted(place, kind, halt, room),
        }
    }

    /// A call of a template with arguments, and what follows the template's node.
    #[cycle(walk)]
    pub fn called(
        &self,
        place: Place,
        scope: &Scope,
        name: &Text,
        given: &Arguments,
        after: After<'_>,
        left: u32,
        room: &mut Room,
    ) -> Result<State, TreeRefused>
        requires ready { IsReady self.now.manifest.now self.now.positions.now }
        requires shallow { place.depth + 5 * left + 8 + hook_depth after.exit < 1000 }
        ensures { let m = self.now.manifest.now in
            let A = R.answers self.now.recorded.now in
            let g = self.now.globals.now in
            Gives room.old room.new result
            (meant.call_of_template m A g (meant.calls m A g left) place scope.now name.now given.now
            (meant.hooked m A g (meant.calls m A g left) (label_of after.entry) place scope.now (option_copied after.entry.exit))) }
    {
        let Some(named) = self.template_of(name) else {
            return lone(place, Kind::Pod, Phase::Error, Note::None, room);
        };
        let template = named.template;
        match template_scope(self.alloc(), self.globals, scope, given, &template.inputs) {
            Ok(inner) => self.entered(place, scope, &inner, named, after, left, room),
            Err(halt) => halted(place, kind_of(template), halt, room),
        }
    }

    #[cycle(walk)]
    fn entered(
        &self,
        place: Place,
        scope: &Scope,
        inner: &Scope,
        named: Named<'_>,
        after: After<'_>,
        left: u32,
        room: &mut Room,
    ) -> Result<State, TreeRefused>
        requires ready { IsReady self.now.manifest.now self.now.positions.now }
        requires walkable { MayWalk named }
        requires shallow { place.depth + 5 * left + 8 + hook_depth after.exit < 1000 }
        ensures { let m = self.now.manifest.now in
            let A = R.answers self.now.recorded.now in
            let g = self.now.globals.now in
            Gives room.old room.new result
            (meant.hooked m A g (meant.calls m A g left) (label_of after.entry) place scope.now (option_copied after.entry.exit)
            (meant.template_made A (meant.calls m A g left) place inner.now named.entry.template.now)) }
    {
        let Some(hook) = after.exit else {
            return self.template(place, inner, named, left, room);
        };
        let at = copy_place(&place)?;
        let state = self.template(place, inner, named, left, room)?;
        self.hook(state, &at, scope, hook, after, left, room)
    }

    /// The exit hook behind a node that is made.
    #[cycle(walk)]
    pub fn hook(
        &self,
        state: State,
        place: &Place,
        scope: &Scope,
        hook: &Hook,
        after: After<'_>,
        left: u32,
        room: &mut Room,
    ) -> Result<State, TreeRefused>
        requires ready { IsReady self.now.manifest.now self.now.positions.now }
        requires shallow { place.now.depth + 5 * left + 9 < 1000 }
        ensures { let m = self.now.manifest.now in
            let A = R.answers self.now.recorded.now in
            let g = self.now.globals.now in
            Gives (room.old + count state) room.new result
            (meant.hooked m A g (meant.calls m A g left) (label_of after.entry) place.now scope.now (Some hook.now) state) }
    {
        if !hook_runs(state.phase()) {
            return Ok(state);
        }
        let inner = hook_scope(self.alloc(), scope, after, state.node())?;
        let at = hook_place(place)?;
        let nothing = After {
            exit: None,
            ..after
        };
        let made = self.called(
            at,
            &inner,
            &hook.template,
            &hook.arguments,
            nothing,
            left,
            room,
        );
        with_hook(state, made)
    }

    /// The template's node: first its lock, then its memoized answer, then its body.
    #[cycle(walk)]
    pub fn template(
        &self,
        place: Place,
        scope: &Scope,
        named: Named<'_>,
        left: u32,
        room: &mut Room,
    ) -> Result<State, TreeRefused>
        requires ready { IsReady self.now.manifest.now self.now.positions.now }
        requires walkable { MayWalk named }
        requires shallow { place.depth + 5 * left + 8 < 1000 }
        ensures { let m = self.now.manifest.now in
            let A = R.answers self.now.recorded.now in
            let g = self.now.globals.now in
            Gives room.old room.new result
            (meant.template_made A (meant.calls m A g left) place scope.now named.entry.template.now) }
    {
        let template = named.template;
        if let Some(lock) = behind_lock(self.recorded, &place, template) {
            return waiting(place, kind_of(template), lock, room);
        }
        match &template.memoize {
            None => self.body(place, scope, named, left, room),
            Some(memoize) => self.memoized(place, scope, named, memoize, left, room),
        }
    }

    #[cycle(walk)]
    fn memoized(
        &self,
        place: Place,
        scope: &Scope,
        named: Named<'_>,
        memoize: &Memoize,
        left: u32,
        room: &mut Room,
    ) -> Result<State, TreeRefused>
        requires ready { IsReady self.now.manifest.now self.now.positions.now }
        requires walkable { MayWalk named }
        requires shallow { place.depth + 5 * left + 8 < 1000 }
        ensures { let m = self.now.manifest.now in
            let A = R.answers self.now.recorded.now in
            let g = self.now.globals.now in
            Gives room.old room.new result
            (meant.memo_made A (meant.calls m A g left) place scope.now named.entry.template.now (Some memoize.now)) }
    {
        match said(&memoize.key, scope) {
            Ok(key) => self.remembered(place, scope, named, memoize, key, left, room),
            Err(halt) => halted(place, kind_of(named.template), halt, room),
        }
    }

    #[cycle(walk)]
    fn remembered(
        &self,
        place: Place,
        scope: &Scope,
        named: Named<'_>,
        memoize: &Memoize,
        key: Text,
        left: u32,
        room: &mut Room,
    ) -> Result<State, TreeRefused>
        requires ready { IsReady self.now.manifest.now self.now.positions.now }
        requires walkable { MayWalk named }
        requires shallow { place.depth + 5 * left + 8 < 1000 }
        ensures { let m = self.now.manifest.now in
            let A = R.answers self.now.recorded.now in
            let g = self.now.globals.now in
            Gives room.old room.new result
            (meant.remembered A (meant.calls m A g left) place scope.now named.entry.template.now memoize.now key (A.memo place.sels)) }
    {
        let template = named.template;
        match self.recorded.memo(&place.sels) {
            None => looking(place, template, memoize, key, room),
            Some(Some(kept)) => hit(place, kind_of(template), memoize, key, kept, room),
            Some(None) => self.missed(place, scope, named, memoize, key, left, room),
        }
    }

    #[cycle(walk)]
    fn missed(
        &self,
        place: Place,
        scope: &Scope,
        named: Named<'_>,
        memoize: &Memoize,
        key: Text,
        left: u32,
        room: &mut Room,
    ) -> Result<State, TreeRefused>
        requires ready { IsReady self.now.manifest.now self.now.positions.now }
        requires walkable { MayWalk named }
        requires shallow { place.depth + 5 * left + 8 < 1000 }
        ensures { let m = self.now.manifest.now in
            let A = R.answers self.now.recorded.now in
            let g = self.now.globals.now in
            Gives room.old room.new result
            (meant.saving place memoize.now key (meant.body_made A (meant.calls m A g left) place scope.now named.entry.template.now)) }
    {
        let sels = place.sels.copy()?;
        let state = self.body(place, scope, named, left, room)?;
        Ok(saving(state, sels, memoize, key)?)
    }

    #[cycle(walk)]
    fn body(
        &self,
        place: Place,
        scope: &Scope,
        named: Named<'_>,
        left: u32,
        room: &mut Room,
    ) -> Result<State, TreeRefused>
        requires ready { IsReady self.now.manifest.now self.now.positions.now }
        requires walkable { MayWalk named }
        requires shallow { place.depth + 5 * left + 8 < 1000 }
        ensures { let m = self.now.manifest.now in
            let A = R.answers self.now.recorded.now in
            let g = self.now.globals.now in
            Gives room.old room.new result
            (meant.body_made A (meant.calls m A g left) place scope.now named.entry.template.now) }
    {
        let Named { template, plan } = named;
        let declared = &template.outputs;
        match (&template.body, &template.retry, plan) {
            (Body::Pod, None, _) => pod(self.recorded, place, declared, room),
            (Body::Pod, Some(retry), _) => retried(self.recorded, place, declared, retry, room),
            (Body::Steps(groups), _, _) => self.steps(place, scope, declared, groups, left, room),
            (Body::Dag(dag), _, Some(plan)) => {
                self.dag(place, scope, declared, dag, plan, left, room)
            }
            (Body::Dag(_), _, None) => unreachable!(),
            (Body::Suspend(duration), _, _) => {
                suspended(self.recorded, place, scope, declared, duration, room)
            }
        }
    }

    #[cycle(walk)]
    fn steps(
        &self,
        place: Place,
        scope: &Scope,
        declared: &OutputDecls,
        groups: &Groups,
        left: u32,
        room: &mut Room,
    ) -> Result<State, TreeRefused>
        requires ready { IsReady self.now.manifest.now self.now.positions.now }
        requires named { AreNamed groups.now }
        requires shallow { place.depth + 5 * left + 8 < 1000 }
        ensures { let m = self.now.manifest.now in
            let A = R.answers self.now.recorded.now in
            let g = self.now.globals.now in
            Gives room.old room.new result
            (steps.steps_made (meant.calls m A g left) place scope.now declared.now groups.now) }
    {
        room.take()?;
        let row = self.groups(&place, scope, groups, left, room)?;
        Ok(steps_over(place, declared, row)?)
    }

    // The groups that exist.
    #[cycle(walk)]
    fn groups(
        &self,
        place: &Place,
        scope: &Scope,
        groups: &Groups,
        left: u32,
        room: &mut Room,
    ) -> Result<Row, TreeRefused>
        requires ready { IsReady self.now.manifest.now self.now.positions.now }
        requires named { AreNamed groups.now }
        requires few { room.now ≤ most_nodes }
        requires shallow { place.now.depth + 5 * left + 8 < 1000 }
        ensures { let m = self.now.manifest.now in
            let A = R.answers self.now.recorded.now in
            let g = self.now.globals.now in
            GivesGroups room.old room.new result
            (steps.groups_from (meant.calls m A g left) place.now 0 scope.now groups.now) }
    {
        let mut row = Row::new(self.alloc(), scope)?;
        let mut i: u32 = 0;
        for calls in groups.as_slice() {
            let at = group_place(place, i)?;
            let group = self.group(at, &row.scope, calls, left, room)?;
            let goes_on = group.has_succeeded();
            row.add(group)?;
            if !goes_on {
                return Ok(row);
            }
            i += 1;
        }
        Ok(row)
    }

    /// A group of steps.
    #[cycle(walk)]
    pub fn group(
        &self,
        place: Place,
        scope: &Scope,
        calls: &Calls,
        left: u32,
        room: &mut Room,
    ) -> Result<Group, TreeRefused>
        requires ready { IsReady self.now.manifest.now self.now.positions.now }
        requires named { All IsNamed calls.now }
        requires shallow { place.depth + 5 * left + 7 < 1000 }
        ensures { let m = self.now.manifest.now in
            let A = R.answers self.now.recorded.now in
            let g = self.now.globals.now in
            GivesGroup room.old room.new result place
            (steps.members (meant.calls m A g left) place scope.now calls.now) }
    {
        room.take()?;
        let states = self.members(&place, scope, calls, left, room)?;
        Ok(group_over(place, calls, states)?)
    }

    #[cycle(walk)]
    fn members(
        &self,
        group: &Place,
        scope: &Scope,
        calls: &Calls,
        left: u32,
        room: &mut Room,
    ) -> Result<List<Shared>, TreeRefused>
        requires ready { IsReady self.now.manifest.now self.now.positions.now }
        requires named { All IsNamed calls.now }
        requires few { room.now ≤ most_nodes }
        requires shallow { group.now.depth + 5 * left + 6 < 1000 }
        ensures { let m = self.now.manifest.now in
            let A = R.answers self.now.recorded.now in
            let g = self.now.globals.now in
            GivesRow room.old room.new result
            (steps.makings (steps.members (meant.calls m A g left) group.now scope.now calls.now)) }
    {
        let mut states = List::new(self.alloc());
        let mut j: u32 = 0;
        for call in calls.as_slice() {
            let at = member_place(group, j, call)?;
            let state = self.call(Listed::Steps, at, scope, call, left, room)?;
            states.push(Shared::new(state)?)?;
            j += 1;
        }
        Ok(states)
    }
}
