//! States of pods with a retry.

ghost use Rattle.std.specs.Prelude.{◌≡◌, ◌+◌, ◌-◌, ◌^◌, ◌<◌, ◌≤◌, Some, length, IsTrue, IfOk, slice_get};
ghost use Rattle.wf_manifest.specs.Valid.{limit_fits};
ghost use Rattle.recorded.specs.Ends.{answered, outcome_of};
ghost use Rattle.meaning.specs.Lines.{Made, row_of};
ghost use Rattle.meaning.specs.Pods as pods;
ghost use Rattle.tree_state.specs.Counting.{Gives, GivesBelow};
ghost use Rattle.leaf_states.specs.Inside.Attempts as attempts;

use crate::pods::pod_by;
use base_types::{List, Memory, TryCopy};
use call_nodes::{attempt_place, bare, node};
use meaning::Place;
use recorded::{Ended, Recorded};
use retry_policy::{AttemptStep, Tried, step_after};
use tree_state::{Below, Room, State, TreeRefused};
use tree_types::{Kind, Node, Note, Path, Phase, Want, Wants};
use wf_manifest::{OutputDecls, Retry};

// What follows an attempt.
#[derive(Clone, Copy)]
pub(crate) enum Follow {
    // It is the last one, and the retry is over with it, or is not.
    Nothing { over: bool },
    // Attempt `k` waits for its timer.
    Waits { k: u32, tick: u64 },
    // Another attempt begins. `first` is the first of all, once it has ended.
    Starts { first: Option<Tried> },
}

// An attempt, and what follows it.
#[derive(Drop)]
pub(crate) struct Attempted {
    state: State,
    follow: Follow,
}

// Attempts, and what follows the last one.
#[derive(Drop)]
pub(crate) struct Tries {
    all: List<State>,
    follow: Follow,
}

/// A pod with a retry, of a template that declares these outputs.
pub fn retried<R: Recorded>(
    recorded: &R,
    place: Place,
    declared: &OutputDecls,
    retry: &Retry,
    room: &mut Room,
) -> Result<State, TreeRefused>
    requires fits { IsTrue (limit_fits retry.now.limit) }
    requires shallow { place.depth + 1 < 2 ^ 32 }
    ensures { Gives room.old room.new result
        (pods.retry_made (R.answers recorded.now) place declared.now retry.now) }
{
    room.take()?;
    let tries = try_all(recorded, &place, declared, retry, room)?;
    Ok(retry_state(place, tries)?)
}

// The attempts that exist.
fn try_all<R: Recorded>(
    recorded: &R,
    place: &Place,
    declared: &OutputDecls,
    retry: &Retry,
    room: &mut Room,
) -> Result<Tries, TreeRefused>
    requires fits { IsTrue (limit_fits retry.now.limit) }
    requires shallow { place.now.depth + 1 < 2 ^ 32 }
    ensures { let meant = pods.attempts (R.answers recorded.now) place.now declared.now retry.now in
        GivesBelow room.old room.new (λ tries _. attempts.AreTries tries meant) result (row_of meant.all) }
{
    let mut all = List::new(place.name.allocator());
    let mut follow = Follow::Starts { first: None };
    while let Follow::Starts { first } = follow {
        let k = all.len() as u32;
        let next = attempt(recorded, place, declared, retry, k, first, room)?;
        all.push(next.state)?;
        follow = next.follow;
    }
    Ok(Tries { all, follow })
}

// Attempt `k`.
fn attempt<R: Recorded>(
    recorded: &R,
    place: &Place,
    declared: &OutputDecls,
    retry: &Retry,
    k: u32,
    first: Option<Tried>,
    room: &mut Room,
) -> Result<Attempted, TreeRefused>
    requires few { k + 1 < 2 ^ 32 }
    requires shallow { place.now.depth + 1 < 2 ^ 32 }
    ensures { attempts.GivesAttempt room.old room.new result
        (pods.pod_made (R.answers recorded.now) (pods.attempt place.now k) declared.now)
        (attempts.followed (R.answers recorded.now) place.now declared.now retry.now k (k + 1) first) }
{
    let here = attempt_place(place, k)?;
    let ended = recorded.outcome(&here);
    let state = pod_by(here, declared, ended, room)?;
    let follow = follow_of(recorded, place, retry, k + 1, first, state.phase(), ended)?;
    Ok(Attempted { state, follow })
}

// What follows an attempt whose node has this phase, where the next one would be attempt `k`.
fn follow_of<R: Recorded>(
    recorded: &R,
    place: &Place,
    retry: &Retry,
    k: u32,
    first: Option<Tried>,
    phase: Phase,
    ended: Option<Ended<'_>>,
) -> Result<Follow, Memory>
    requires later { 1 ≤ k }
    requires shallow { place.now.depth + 1 < 2 ^ 32 }
    ensures { IfOk result (λ follow. follow ≡ attempts.follow_of
        (R.answers recorded.now) place.now retry.now k first phase (answered ended.entry)) }
{
    let Some(ended) = ended else {
        return Ok(Follow::Nothing { over: false });
    };
    let last = tried_by(phase, ended);
    let first = first.unwrap_or(last);
    let due = is_due(recorded, place, k)?;
    Ok(follow_by(first, step_after(retry, &first, &last, k, due)))
}

fn tried_by(phase: Phase, ended: Ended<'_>) -> Tried
    ensures { result ≡ attempts.tried phase (outcome_of ended.entry) }
{
    Tried {
        phase,
        transient: ended.phase == Phase::Error && ended.transient,
        begin: ended.begin,
        finish: ended.finish,
    }
}

fn follow_by(first: Tried, step: AttemptStep) -> Follow
    ensures { result ≡ attempts.follow_by first step }
{
    match step {
        AttemptStep::Over => Follow::Nothing { over: true },
        AttemptStep::At { k, tick } => Follow::Waits { k, tick },
        AttemptStep::Now { .. } => Follow::Starts { first: Some(first) },
    }
}

// Whether the timer of attempt `k` was due.
fn is_due<R: Recorded>(recorded: &R, place: &Place, k: u32) -> Result<bool, Memory>
    requires { place.now.depth + 1 < 2 ^ 32 }
    ensures { IfOk result
        (λ due. due ≡ (R.answers recorded.now).due (pods.attempt place.now k).sels) }
{
    let attempt = attempt_place(place, k)?;
    Ok(recorded.due(&attempt.sels))
}

// The Retry node over its attempts.
fn retry_state(place: Place, tries: Tries) -> Result<State, Memory>
    requires some { 0 < length tries.all }
    requires shallow { place.depth + 1 < 2 ^ 32 }
    ensures { IfOk result (λ state. (last : Made) →
        slice_get tries.all (length tries.all - 1) ≡ Some last →
        state ≡ attempts.retry_over place last tries.all tries.follow) }
{
    let alloc = place.name.allocator();
    let timer = next_timer(&place, tries.follow)?;
    let last = tries.all.get(tries.all.len() - 1);
    let node = retry_node(place, last, is_over(tries.follow))?;
    let below = below_retry(tries.all, timer)?;
    Ok(State::new(node, Wants::new(alloc), below))
}

fn is_over(follow: Follow) -> bool
    ensures { result ≡ attempts.is_over follow }
{
    matches!(follow, Follow::Nothing { over: true })
}

fn next_timer(place: &Place, follow: Follow) -> Result<Option<Want>, Memory>
    requires { place.now.depth + 1 < 2 ^ 32 }
    ensures { IfOk result (λ timer. timer ≡ attempts.next_timer place.now follow) }
{
    let Follow::Waits { k, tick } = follow else {
        return Ok(None);
    };
    let sels = attempt_place(place, k)?.sels;
    Ok(Some(Want::Timer(Path { sels }, tick)))
}

fn retry_node(place: Place, last: &State, over: bool) -> Result<Node, Memory>
    ensures { IfOk result
        (λ node. node ≡ pods.retry_node place (pods.ends_with last.now over) over) }
{
    if over {
        let outputs = last.node().outputs.copy()?;
        Ok(node(place, Kind::Retry, last.phase(), Note::None, outputs))
    } else {
        Ok(bare(place, Kind::Retry, Phase::Running, Note::None))
    }
}

// The attempts, and behind them the timer of the next one.
fn below_retry(all: List<State>, timer: Option<Want>) -> Result<Below, Memory>
    ensures { IfOk result (λ below. below ≡ attempts.below_retry all timer) }
{
    let mut below = row(all)?;
    match timer {
        None => Ok(below),
        Some(timer) => {
            below.asks(timer)?;
            Ok(below)
        }
    }
}

fn row(states: List<State>) -> Result<Below, Memory>
    ensures { IfOk result (λ below. below ≡ row_of states) }
{
    let mut below = Below::new(states.allocator());
    for state in states.into_vec() {
        below.push(state)?;
    }
    Ok(below)
}
