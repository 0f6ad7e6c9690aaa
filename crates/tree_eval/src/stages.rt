//! A workflow before it runs, and while it runs.

ghost use Rattle.std.specs.Prelude.{◌≡◌, [], ◌∷◌, IfOk, None, option_copied};
ghost use Rattle.tree_types.specs.declared.phase.Phase.TheVariants as phases;
ghost use Rattle.tree_types.specs.declared.node.Note.TheVariants as notes;
ghost use Rattle.tree_types.specs.declared.want.Want.TheVariants as asked;
ghost use Rattle.wf_manifest.specs.Valid.{Valid};
ghost use Rattle.meaning.specs.Answers.{path};
ghost use Rattle.tree_eval.specs.Whole as wholes;
ghost use Rattle.tree_eval.specs.Inside.Stages as inside;

use crate::roots::{root_kind, root_place};
use crate::tops::Tops;
use crate::workflow_tree::WorkflowTree;
use base_types::{Memory, TryCopy};
use call_nodes::bare;
use hooks_exit::law::phase_is_meant;
use recorded::Recorded;
use tree_state::{Below, Shared, State, TreeRefused};
use tree_types::{LockId, Note, Path, Phase, Sels, Want, Wants};
use wf_manifest::Manifest;

/// The root alone, with this note, and what it asks for.
pub fn pending(manifest: &Manifest, note: Note, wants: Wants) -> Result<WorkflowTree, Memory>
    ensures { IfOk result (λ whole. whole ≡ record {
      main = (wholes.root_alone manifest.now note wants).0;
      exit = None;
      phase = phases.Pending;
    }) }
{
    let place = root_place(manifest)?;
    let node = bare(place, root_kind(manifest), Phase::Pending, note);
    let main = State::new(node, wants, Below::new(manifest.name.allocator()));
    let main = Shared::new(main)?;
    Ok(WorkflowTree {
        tops: Tops { main, exit: None },
        phase: Phase::Pending,
    })
}

/// The root alone, which waits for the workflow's own lock.
pub fn waiting(manifest: &Manifest, lock: &LockId) -> Result<WorkflowTree, Memory>
    ensures { IfOk result (λ whole. whole ≡ record {
      main = (wholes.root_alone manifest.now
          (notes.Waiting lock.now) (asked.Lock (path []) lock.now ∷ [])).0;
      exit = None;
      phase = phases.Pending;
    }) }
{
    let alloc = manifest.name.allocator();
    let path = Path {
        sels: Sels::new(alloc)?,
    };
    let mut wants = Wants::new(alloc);
    wants.push(Want::Lock(path, lock.copy()?))?;
    pending(manifest, Note::Waiting(lock.copy()?), wants)
}

/// The workflow's own lock, while it is not granted.
pub fn awaited<'a, R: Recorded>(
    manifest: &'a Manifest,
    recorded: &R,
) -> Result<Option<&'a LockId>, Memory>
    ensures { IfOk result
        (λ lock. option_copied lock ≡ inside.awaited (R.answers recorded.now) manifest.now.lock) }
{
    let own = Sels::new(manifest.name.allocator())?;
    if recorded.granted(&own) {
        Ok(None)
    } else {
        Ok(manifest.lock.as_ref())
    }
}

/// What the entrypoint makes, and the exit handler where it runs.
pub fn running<R: Recorded>(manifest: &Manifest, recorded: &R) -> Result<WorkflowTree, TreeRefused>
    requires valid { Valid manifest.now }
    requires runs { inside.Runs manifest.now (R.answers recorded.now) }
    ensures { inside.GivesWhole result manifest.now (R.answers recorded.now) }
{
    phase_is_meant();
    let tops = Tops::of(manifest, recorded)?;
    let phase = tops.phase();
    Ok(WorkflowTree { tops, phase })
}
