//! What the entrypoint makes, and the exit handler.

ghost use Rattle.std.specs.Prelude.{◌≡◌, ◌<◌, ◌≤◌, ◌^◌, ◌∷◌, ◌++◌, IfOk, IfSome, OnOk, MatchOption, option_copied, option_map, length};
ghost use Rattle.std.specs.List.{find, filter};
ghost use Rattle.meaning.specs.Trees.{nodes_in, wants_in, beginnings_in};
ghost use Rattle.tree_state.specs.Asking.{is_of, first};
ghost use Rattle.tree_types.specs.declared.path.Sel.TheVariants.{Main, Exit};
ghost use Rattle.locality.specs.Answered.{SameBut};
ghost use Rattle.tree_state.specs.Finding.{passes, locks_in, pods_in, found_from, next_tick, IsFound};
ghost use Rattle.scopes.specs.Values.{HasValuesOf};
ghost use Rattle.meaning.specs.Trees as trees;
ghost use Rattle.wf_manifest.specs.Valid.{Valid};
ghost use Rattle.tree_state.specs.Counting.{Gives};
ghost use Rattle.tree_state.specs.Telling.{no_lines, told_with};
ghost use Rattle.tree_walk.specs.Index.{IsReady};
ghost use Rattle.tree_eval.specs.Inside.Tops as inside;
ghost use Rattle.tree_eval.specs.Pods.{NoneAmong};

use crate::roots::{exit_place, root_place};
use base_types::{Memory, Text, TryCopy};
use call_texts::{status_scope, workflow_scope};
use hooks_exit::workflow_phase;
use locality::laws::top_calls_off_stay;
use recorded::Recorded;
use scopes::Scope;
use std::alloc::Global;
use tree_change::made_again;
use tree_state::{
    Clue, NodeTest, Room, Shared, State, Told, TreeRefused, WantKind, WantTest, counts_nodes,
    sooner,
};
use tree_types::{Node, Path, Phase, Sel, Want, Wants};
use tree_walk::{Positions, positions_of, top_state};
use wf_manifest::Manifest;

/// What the entrypoint makes, and the exit handler where it runs: once the entrypoint is finished.
#[derive(Drop)]
pub struct Tops {
    pub main: Shared,
    pub exit: Option<State>,
}

fn main_state<R: Recorded>(
    manifest: &Manifest,
    positions: &Positions,
    globals: &Scope,
    recorded: &R,
    room: &mut Room,
) -> Result<State, TreeRefused>
    requires ready { IsReady manifest.now positions.now }
    requires said { HasValuesOf globals.now (trees.globals_of manifest.now) }
    ensures { Gives room.old room.new result
        (trees.main_made manifest.now (R.answers recorded.now)) }
{
    let place = root_place(manifest)?;
    let template = &manifest.entrypoint;
    top_state(
        manifest, positions, globals, recorded, place, template, room,
    )
}

// What the entrypoint makes once one fact more is recorded, by what it made before.
fn main_again<R: Recorded>(
    manifest: &Manifest,
    positions: &Positions,
    globals: &Scope,
    recorded: &R,
    before: &R,
    old: &State,
    rest: &[Sel],
    room: &mut Room,
) -> Result<State, TreeRefused>
    requires ready { IsReady manifest.now positions.now }
    requires said { HasValuesOf globals.now (trees.globals_of manifest.now) }
    requires same { SameBut (R.answers recorded.now) (R.answers before.now) (Main ∷ rest.now) }
    requires old { old.now ≡ trees.main_made manifest.now (R.answers before.now) }
    ensures { Gives room.old room.new result
        (trees.main_made manifest.now (R.answers recorded.now)) }
{
    let place = root_place(manifest)?;
    let template = &manifest.entrypoint;
    made_again(
        manifest, positions, globals, recorded, before, place, template, old, rest, room,
    )
}

// What the exit handler makes. Its texts see the phase of the entrypoint's node.
fn exit_state<R: Recorded>(
    manifest: &Manifest,
    positions: &Positions,
    globals: &Scope,
    recorded: &R,
    main: &State,
    template: &Text,
    room: &mut Room,
) -> Result<State, TreeRefused>
    requires ready { IsReady manifest.now positions.now }
    requires said { HasValuesOf globals.now (trees.globals_of manifest.now) }
    ensures { Gives room.old room.new result
        (trees.exit_made manifest.now (R.answers recorded.now) main.now template.now) }
{
    let place = exit_place(manifest)?;
    let scope = status_scope(manifest.name.allocator(), globals, main.phase())?;
    top_state(manifest, positions, &scope, recorded, place, template, room)
}

// What the exit handler makes once one fact more is recorded, by what it made before.
fn exit_again<R: Recorded>(
    manifest: &Manifest,
    positions: &Positions,
    globals: &Scope,
    recorded: &R,
    before: &R,
    main: &State,
    template: &Text,
    old: &State,
    rest: &[Sel],
    room: &mut Room,
) -> Result<State, TreeRefused>
    requires ready { IsReady manifest.now positions.now }
    requires said { HasValuesOf globals.now (trees.globals_of manifest.now) }
    requires same { SameBut (R.answers recorded.now) (R.answers before.now) (Exit ∷ rest.now) }
    requires old { old.now ≡ trees.exit_made manifest.now (R.answers before.now) main.now template.now }
    ensures { Gives room.old room.new result
        (trees.exit_made manifest.now (R.answers recorded.now) main.now template.now) }
{
    let place = exit_place(manifest)?;
    let scope = status_scope(manifest.name.allocator(), globals, main.phase())?;
    made_again(
        manifest, positions, &scope, recorded, before, place, template, old, rest, room,
    )
}

// The template of the exit handler, once the entrypoint is finished.
fn handler<'a>(manifest: &'a Manifest, main: &State) -> Option<&'a Text>
    ensures { option_copied result ≡ inside.once main.now.own.finished manifest.now.on_exit }
{
    if main.is_finished() {
        manifest.on_exit.as_ref()
    } else {
        None
    }
}

fn exit_once<R: Recorded>(
    manifest: &Manifest,
    positions: &Positions,
    globals: &Scope,
    recorded: &R,
    main: &State,
    room: &mut Room,
) -> Result<Option<State>, TreeRefused>
    requires ready { IsReady manifest.now positions.now }
    requires said { HasValuesOf globals.now (trees.globals_of manifest.now) }
    ensures { inside.GivesExit room.old room.new result
        (trees.exit_of manifest.now (R.answers recorded.now) main.now) }
{
    match handler(manifest, main) {
        None => Ok(None),
        Some(template) => {
            let exit = exit_state(manifest, positions, globals, recorded, main, template, room)?;
            Ok(Some(exit))
        }
    }
}

// What the exit handler makes once one fact more is recorded below its node, where it runs.
fn exit_after<R: Recorded>(
    manifest: &Manifest,
    positions: &Positions,
    globals: &Scope,
    recorded: &R,
    before: &R,
    tops: &Tops,
    rest: &[Sel],
    room: &mut Room,
) -> Result<Option<State>, TreeRefused>
    requires ready { IsReady manifest.now positions.now }
    requires said { HasValuesOf globals.now (trees.globals_of manifest.now) }
    requires same { SameBut (R.answers recorded.now) (R.answers before.now) (Exit ∷ rest.now) }
    requires old { tops.now.exit ≡ trees.exit_of manifest.now (R.answers before.now) tops.now.main }
    ensures { inside.GivesExit room.old room.new result
        (trees.exit_of manifest.now (R.answers recorded.now) tops.now.main) }
{
    let main = tops.main.state();
    let Some(template) = handler(manifest, main) else {
        return Ok(None);
    };
    match &tops.exit {
        None => {
            let exit = exit_state(manifest, positions, globals, recorded, main, template, room)?;
            Ok(Some(exit))
        }
        Some(old) => {
            let exit = exit_again(
                manifest, positions, globals, recorded, before, main, template, old, rest, room,
            )?;
            Ok(Some(exit))
        }
    }
}

impl Tops {
    /// Walks over the manifest: no more nodes are made than a tree may have.
    pub fn of<R: Recorded>(manifest: &Manifest, recorded: &R) -> Result<Tops, TreeRefused>
        requires valid { Valid manifest.now }
        ensures { inside.GivesTops result manifest.now (R.answers recorded.now) }
    {
        let positions = positions_of(manifest)?;
        let globals = workflow_scope(manifest.name.allocator(), manifest)?;
        let mut room = Room::new();
        let main = main_state(manifest, &positions, &globals, recorded, &mut room)?;
        let exit = exit_once(manifest, &positions, &globals, recorded, &main, &mut room)?;
        let main = Shared::new(main)?;
        Ok(Tops { main, exit })
    }

    /// Both once one fact more is recorded below the entrypoint, by what was made before. `rest` is what the path of the fact has
    /// behind the entrypoint's node. What is on no way to the fact is shared.
    pub fn again<R: Recorded>(
        &self,
        manifest: &Manifest,
        positions: &Positions,
        recorded: &R,
        before: &R,
        rest: &[Sel],
    ) -> Result<Tops, TreeRefused>
        requires ready { IsReady manifest.now positions.now }
        requires same { SameBut (R.answers recorded.now) (R.answers before.now) (Main ∷ rest.now) }
        requires old { self.now.main ≡ trees.main_made manifest.now (R.answers before.now) }
        ensures { inside.GivesTops result manifest.now (R.answers recorded.now) }
    {
        let globals = workflow_scope(manifest.name.allocator(), manifest)?;
        let mut room = Room::new();
        let old = self.main.state();
        let main = main_again(
            manifest, positions, &globals, recorded, before, old, rest, &mut room,
        )?;
        let exit = exit_once(manifest, positions, &globals, recorded, &main, &mut room)?;
        let main = Shared::new(main)?;
        Ok(Tops { main, exit })
    }

    /// Both once one fact more is recorded below the exit handler, by what was made before. `rest` is what the path of the fact
    /// has behind the exit handler's node. What the entrypoint made is shared, and so is what is on no way to the fact.
    pub fn again_behind<R: Recorded>(
        &self,
        manifest: &Manifest,
        positions: &Positions,
        recorded: &R,
        before: &R,
        rest: &[Sel],
    ) -> Result<Tops, TreeRefused>
        requires ready { IsReady manifest.now positions.now }
        requires same { SameBut (R.answers recorded.now) (R.answers before.now) (Exit ∷ rest.now) }
        requires old { self.now ≡ inside.meant_tops manifest.now (R.answers before.now) }
        ensures { inside.GivesTops result manifest.now (R.answers recorded.now) }
    {
        top_calls_off_stay();
        let globals = workflow_scope(manifest.name.allocator(), manifest)?;
        let mut room = Room::new();
        room.take_all(self.main.state().count())?;
        let exit = exit_after(
            manifest, positions, &globals, recorded, before, self, rest, &mut room,
        )?;
        let main = self.main.copy()?;
        Ok(Tops { main, exit })
    }

    /// The phase of a workflow that runs.
    pub fn phase(&self) -> Phase
        ensures { result ≡ inside.phase_of self.now }
    {
        workflow_phase(self.main.state().phase(), exit_phase(&self.exit))
    }

    /// How many nodes both have.
    pub fn count(&self) -> usize
        ensures { result ≡ length (nodes_in (inside.lines_of self.now)) }
    {
        counts_nodes();
        match &self.exit {
            None => self.main.state().count(),
            Some(exit) => self.main.state().count() + exit.count(),
        }
    }

    /// How many pods both ask for, where that can be counted.
    pub fn pods(&self) -> Option<usize>
        ensures { MatchOption result (2 ^ 64 ≤ length (pods_in (wants_in (inside.lines_of self.now))))
            (λ count. count ≡ length (pods_in (wants_in (inside.lines_of self.now)))) }
    {
        let main = self.main.state().pods();
        match &self.exit {
            None => Some(main),
            Some(exit) => main.checked_add(exit.pods()),
        }
    }

    /// How many locks both ask for, where that can be counted.
    pub fn locks(&self) -> Option<usize>
        ensures { MatchOption result (2 ^ 64 ≤ length (locks_in (wants_in (inside.lines_of self.now))))
            (λ count. count ≡ length (locks_in (wants_in (inside.lines_of self.now)))) }
    {
        let main = self.main.state().locks();
        match &self.exit {
            None => Some(main),
            Some(exit) => main.checked_add(exit.locks()),
        }
    }

    /// The first want of a kind, in tree order.
    pub fn first_want(&self, kind: WantKind) -> Option<&Want>
        ensures { option_copied result ≡ find (is_of kind) (wants_in (inside.lines_of self.now)) }
    {
        if let Some(want) = self.main.state().first_want(kind) {
            return Some(want);
        }
        match &self.exit {
            None => None,
            Some(exit) => exit.first_want(kind),
        }
    }

    /// The first task that may begin, in tree order.
    pub fn first_beginning(&self) -> Option<&Path>
        ensures { option_copied result ≡ first (beginnings_in (inside.lines_of self.now)) }
    {
        if let Some(path) = self.main.state().first_beginning() {
            return Some(path);
        }
        match &self.exit {
            None => None,
            Some(exit) => exit.first_beginning(),
        }
    }

    /// The first want of a kind, in tree order, that passes a test.
    pub fn find_want<T: WantTest>(&self, kind: WantKind, test: &T) -> Option<&Want>
        ensures { option_copied result
            ≡ find (passes kind (T.accepts test.now)) (wants_in (inside.lines_of self.now)) }
    {
        if let Some(want) = self.main.state().find_want(kind, test) {
            return Some(want);
        }
        match &self.exit {
            None => None,
            Some(exit) => exit.find_want(kind, test),
        }
    }

    /// Adds all that is asked for of a kind, in tree order. What asks for none of the kind is not looked through.
    pub fn add_wants(&self, kind: WantKind, wants: &mut Wants) -> Result<(), Memory>
        ensures { OnOk result
            (wants.new ≡ wants.old ++ filter (is_of kind) (wants_in (inside.lines_of self.now))) }
    {
        self.main.state().add_wants(kind, wants)?;
        add_of_exit(&self.exit, kind, wants)?;
        Ok(())
    }

    /// The first pod that is asked for and passes a test, in tree order, where none of so many from the first does; and how many
    /// from the first are known not to: where it stands, if that can be counted.
    pub fn find_pod_behind<T: WantTest>(&self, known: usize, test: &T) -> Option<(usize, &Want)>
        ensures exact { length (pods_in (wants_in (inside.lines_of self.now))) < 2 ^ 64
            → option_map (λ f. (f.0, f.1.now)) result
            ≡ found_from known (T.accepts test.now) (pods_in (wants_in (inside.lines_of self.now))) }
        ensures first { NoneAmong known (T.accepts test.now) (pods_in (wants_in (inside.lines_of self.now)))
            → option_map (λ f. f.1.now) result
            ≡ find (T.accepts test.now) (pods_in (wants_in (inside.lines_of self.now))) }
        ensures known { NoneAmong known (T.accepts test.now) (pods_in (wants_in (inside.lines_of self.now)))
            → IfSome result (λ f.
            NoneAmong f.0 (T.accepts test.now) (pods_in (wants_in (inside.lines_of self.now)))) }
    {
        let main = self.main.state();
        if let Some(found) = main.find_pod_from(known, test) {
            return Some(found);
        }
        let Some(exit) = &self.exit else { return None };
        let before = main.pods();
        match exit.find_pod_from(known.saturating_sub(before), test) {
            None => None,
            Some((at, want)) => Some((before.saturating_add(at), want)),
        }
    }

    /// The first node, in tree order, that passes a test.
    pub fn find_node<T: NodeTest>(&self, test: &T) -> Option<&Node>
        ensures { option_copied result
            ≡ find (T.accepts test.now) (nodes_in (inside.lines_of self.now)) }
    {
        if let Some(node) = self.main.state().find_node(test) {
            return Some(node);
        }
        match &self.exit {
            None => None,
            Some(exit) => exit.find_node(test),
        }
    }

    /// A node that a clue leads to. Where none is found, there may be one all the same.
    pub fn on_way(&self, clue: &Clue<'_>) -> Option<&Node>
        ensures { IfSome result (λ node. IsFound clue.now (inside.lines_of self.now) node.now) }
    {
        if let Some(node) = self.main.state().on_way(clue) {
            return Some(node);
        }
        match &self.exit {
            None => None,
            Some(exit) => exit.on_way(clue),
        }
    }

    /// The least tick above a clock at which a timer is due that is asked for.
    pub fn next_timer(&self, clock: u64) -> Option<u64>
        ensures { result ≡ next_tick clock (wants_in (inside.lines_of self.now)) }
    {
        match &self.exit {
            None => self.main.state().next_timer(clock),
            Some(exit) => sooner(self.main.state().next_timer(clock), exit.next_timer(clock)),
        }
    }

    /// The lines of both, kind by kind.
    pub fn tell(&self, alloc: Global) -> Result<Told, Memory>
        ensures { IfOk result (λ told. told ≡ told_with no_lines (inside.lines_of self.now)) }
    {
        let mut told = Told::new(alloc);
        self.main.state().tell(&mut told)?;
        tell_exit(&self.exit, &mut told)?;
        Ok(told)
    }
}

fn exit_phase(exit: &Option<State>) -> Option<Phase>
    ensures { result ≡ inside.exit_phase exit.now }
{
    match exit {
        None => None,
        Some(exit) => Some(exit.phase()),
    }
}

fn tell_exit(exit: &Option<State>, told: &mut Told) -> Result<(), Memory>
    ensures { OnOk result (told.new ≡ told_with told.old (trees.exit_lines exit.now)) }
{
    match exit {
        None => Ok(()),
        Some(exit) => exit.tell(told),
    }
}

fn add_of_exit(exit: &Option<State>, kind: WantKind, wants: &mut Wants) -> Result<(), Memory>
    ensures { OnOk result
        (wants.new ≡ wants.old ++ filter (is_of kind) (wants_in (trees.exit_lines exit.now))) }
{
    match exit {
        None => Ok(()),
        Some(exit) => exit.add_wants(kind, wants),
    }
}
