//! States of suspended nodes.

ghost use Rattle.std.specs.Prelude.{◌≡◌, ◌||◌, [], Bool, false, Ok, IfOk};
ghost use Rattle.meaning.specs.Suspends as suspends;
ghost use Rattle.tree_state.specs.Counting.{Gives};
ghost use Rattle.suspend_resume.specs.Suspension.{IsPhase};

use crate::lone;
use crate::making::{asking, silent};
use base_types::{Memory, TryCopy};
use call_nodes::{bare, suspended_node};
use call_texts::{Halt, seconds_of};
use meaning::Place;
use recorded::Recorded;
use scopes::Scope;
use suspend_resume::suspend_phase;
use tag_text::TagText;
use tree_state::{Room, State, TreeRefused};
use tree_types::{Kind, Note, Path, Phase, Want};
use wf_manifest::OutputDecls;

/// A suspended node of a template that declares these outputs and has this `duration`.
pub fn suspended<R: Recorded>(
    recorded: &R,
    place: Place,
    scope: &Scope,
    declared: &OutputDecls,
    duration: &Option<TagText>,
    room: &mut Room,
) -> Result<State, TreeRefused>
    ensures { Gives room.old room.new result (suspends.suspend_made
        (R.answers recorded.now) place scope.now declared.now duration.now) }
{
    match seconds_of(scope, duration) {
        Ok(seconds) => suspended_for(recorded, place, declared, seconds, room),
        Err(Halt::Fault(note)) => lone(place, Kind::Suspend, Phase::Error, note, room),
        Err(Halt::Memory) => Err(TreeRefused::Memory),
    }
}

// The same where the duration says so many seconds.
fn suspended_for<R: Recorded>(
    recorded: &R,
    place: Place,
    declared: &OutputDecls,
    seconds: Option<u64>,
    room: &mut Room,
) -> Result<State, TreeRefused>
    ensures { Gives room.old room.new result
        (suspends.suspended (R.answers recorded.now) place declared.now (Ok seconds)) }
{
    let phase = suspend_phase(recorded.due(&place.sels), recorded.resumed(&place.sels));
    let armed = recorded.armed(&place.sels);
    room.take()?;
    Ok(suspended_by(place, declared, seconds, armed, phase)?)
}

fn suspended_by(
    place: Place,
    declared: &OutputDecls,
    seconds: Option<u64>,
    armed: Option<u64>,
    phase: Phase,
) -> Result<State, Memory>
    ensures { (due resumed : Bool) → IsPhase due resumed phase → IfOk result
        (λ state. state ≡ suspends.suspend_by place declared.now seconds armed (due || resumed)) }
{
    match phase {
        Phase::Succeeded => Ok(silent(suspended_node(place, declared)?)),
        _ => still_suspended(place, seconds, armed),
    }
}

// A node that is neither due nor resumed.
fn still_suspended(place: Place, seconds: Option<u64>, armed: Option<u64>) -> Result<State, Memory>
    ensures { IfOk result (λ state. state ≡ suspends.suspend_by place [] seconds armed false) }
{
    let path = Path {
        sels: place.sels.copy()?,
    };
    let node = bare(place, Kind::Suspend, Phase::Running, Note::None);
    match (armed, seconds) {
        (None, _) => asking(node, Want::Arming(path)),
        (Some(tick), Some(seconds)) => {
            asking(node, Want::Timer(path, tick.saturating_add(seconds)))
        }
        (Some(_), None) => Ok(silent(node)),
    }
}
