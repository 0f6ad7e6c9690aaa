//! What is to be saved and is not among the saves.

ghost use Rattle.std.specs.Prelude.{◌≡◌, not};
ghost use Rattle.worker_job.specs.Inside.Saving as saving;

use base_types::Text;
use memo_cache::Cache;
use tree_incr::WantTest;
use tree_types::Want;

// A workflow's name, and the saves.
#[derive(Clone, Copy)]
pub(crate) struct ToSave<'a> {
    pub(crate) workflow: &'a Text,
    pub(crate) saves: &'a Cache,
}

impl ToSave<'_> {
    // Whether something is to be saved by a path that saved nothing.
    fn is_left(&self, want: &Want) -> bool
        ensures { result ≡ saving.is_left self.now.workflow.now self.now.saves.now want.now }
    {
        let Want::Save(path, _, _, _) = want else {
            return false;
        };
        !self.saves.has_saved(self.workflow, path)
    }
}

impl WantTest for ToSave<'_> {
    ghost accepts = { λ test want. saving.is_left test.workflow.now test.saves.now want };

    fn accepts(&self, want: &Want) -> bool {
        self.is_left(want)
    }
}
