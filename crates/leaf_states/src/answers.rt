//! States of nodes that wait for a lock or for the answer of a cache, or have that answer.

ghost use Rattle.std.specs.Prelude.{◌≡◌, [], ◌∷◌, IfOk};
ghost use Rattle.tree_types.specs.declared.phase.Phase.TheVariants as phases;
ghost use Rattle.tree_types.specs.declared.node.Note.TheVariants as notes;
ghost use Rattle.tree_types.specs.declared.want.Want.TheVariants as wants;
ghost use Rattle.meaning.specs.declared.lines.Place.{Place as MeantPlace};
ghost use Rattle.meaning.specs.Answers.{path};
ghost use Rattle.meaning.specs.Lines as lines;
ghost use Rattle.meaning.specs.Calls as calls;
ghost use Rattle.tree_state.specs.Counting.{Gives};

use crate::making::{asking, silent};
use base_types::{Memory, Text, TryCopy};
use call_nodes::{bare, kind_of, node};
use meaning::Place;
use tree_state::{Room, State, TreeRefused};
use tree_types::{Kind, LockId, Note, Outputs, Path, Phase, Sels, Want};
use wf_manifest::{Memoize, Template};

/// A node whose lock is not granted.
pub fn waiting(
    place: Place,
    kind: Kind,
    lock: &LockId,
    room: &mut Room,
) -> Result<State, TreeRefused>
    ensures { Gives room.old room.new result (lines.made
        (lines.node place kind phases.Pending (notes.Waiting lock.now) lines.no_outputs)
        (wants.Lock (path place.sels) lock.now ∷ []) lines.nothing) }
{
    room.take()?;
    let path = Path {
        sels: place.sels.copy()?,
    };
    let want = Want::Lock(path, lock.copy()?);
    let note = Note::Waiting(lock.copy()?);
    Ok(asking(bare(place, kind, Phase::Pending, note), want)?)
}

/// A node whose look-up of this key is not answered.
pub fn looking(
    place: Place,
    template: &Template,
    memoize: &Memoize,
    key: Text,
    room: &mut Room,
) -> Result<State, TreeRefused>
    ensures { Gives room.old room.new result (calls.looking place template.now memoize.now key) }
{
    room.take()?;
    let path = Path {
        sels: place.sels.copy()?,
    };
    let want = Want::LookUp(path, memoize.cache.copy()?, key, memoize.max_age);
    let note = Note::Looking(memoize.cache.copy()?);
    let node = bare(place, kind_of(template), Phase::Pending, note);
    Ok(asking(node, want)?)
}

/// A node whose cache keeps these outputs under this key.
pub fn hit(
    place: Place,
    kind: Kind,
    memoize: &Memoize,
    key: Text,
    kept: &Outputs,
    room: &mut Room,
) -> Result<State, TreeRefused>
    ensures { Gives room.old room.new result (lines.made
        (lines.node place kind phases.Succeeded (notes.Hit memoize.now.cache key) kept.now)
        [] lines.nothing) }
{
    room.take()?;
    let note = Note::Hit(memoize.cache.copy()?, key);
    let outputs = kept.copy()?;
    Ok(silent(node(place, kind, Phase::Succeeded, note, outputs)))
}

/// What a node made of which the cache knew nothing: it asks to be saved under this key once it is Succeeded. `sels` is
/// the path of the node.
pub fn saving(mut state: State, sels: Sels, memoize: &Memoize, key: Text) -> Result<State, Memory>
    ensures { IfOk result (λ saved. (place : MeantPlace) → place.sels ≡ sels →
        saved ≡ calls.saving place memoize.now key state) }
{
    if state.phase() == Phase::Succeeded {
        let outputs = state.node().outputs.copy()?;
        let cache = memoize.cache.copy()?;
        state.add_want(Want::Save(Path { sels }, cache, key, outputs))?;
    }
    Ok(state)
}
