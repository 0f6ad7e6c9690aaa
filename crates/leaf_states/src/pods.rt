//! States of pods.

ghost use Rattle.std.specs.Prelude.{◌≡◌, IfOk};
ghost use Rattle.recorded.specs.Ends.{answered, end_of, note_if};
ghost use Rattle.meaning.specs.Pods as pods;
ghost use Rattle.tree_state.specs.Counting.{Gives};

use crate::making::{asking, silent};
use base_types::{Memory, TryCopy};
use call_nodes::{bare, pod_node};
use meaning::Place;
use recorded::{Ended, Recorded};
use tree_state::{Room, State, TreeRefused};
use tree_types::{Kind, Note, Path, Phase, Want};
use wf_manifest::OutputDecls;

/// A pod of a template that declares these outputs.
pub fn pod<R: Recorded>(
    recorded: &R,
    place: Place,
    declared: &OutputDecls,
    room: &mut Room,
) -> Result<State, TreeRefused>
    ensures { Gives room.old room.new result
        (pods.pod_made (R.answers recorded.now) place declared.now) }
{
    let ended = recorded.outcome(&place);
    pod_by(place, declared, ended, room)
}

/// A pod that ended so, or runs.
pub(crate) fn pod_by(
    place: Place,
    declared: &OutputDecls,
    ended: Option<Ended<'_>>,
    room: &mut Room,
) -> Result<State, TreeRefused>
    ensures { Gives room.old room.new result
        (pods.pod_by place declared.now (answered ended.entry)) }
{
    room.take()?;
    match ended {
        None => Ok(running_pod(place)?),
        Some(ended) => Ok(ended_pod(place, declared, ended)?),
    }
}

fn running_pod(place: Place) -> Result<State, Memory>
    ensures { IfOk result (λ state. state ≡ pods.running_pod place) }
{
    let path = Path {
        sels: place.sels.copy()?,
    };
    let node = bare(place, Kind::Pod, Phase::Running, Note::None);
    asking(node, Want::Pod(path))
}

fn ended_pod(place: Place, declared: &OutputDecls, ended: Ended<'_>) -> Result<State, Memory>
    ensures { IfOk result (λ state. state ≡ pods.ended_pod place declared.now (end_of ended.entry)) }
{
    let note = note_of(ended.carried);
    let node = pod_node(
        place,
        declared,
        ended.phase,
        note,
        ended.result,
        ended.params,
    )?;
    Ok(silent(node))
}

fn note_of(carried: bool) -> Note
    ensures { result ≡ note_if carried }
{
    if carried { Note::Carried } else { Note::None }
}
