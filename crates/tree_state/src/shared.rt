//! What a call made, shared.

ghost use Rattle.std.specs.Prelude.{◌≡◌, IfOk};

use crate::State;
use crate::state::Summed;
use base_types::{Memory, TryCopy};
use std::marker::Model;
use std::sync::Arc;

/// What a call made. Copies share it.
#[derive(Debug)]
pub struct Shared {
    pub(crate) state: Arc<Summed>,
}

// Written out, so that proofs about code that drops what is shared see one call.
impl Drop for Shared {
    fn drop(self) {
        let Shared { state: _ } = self;
    }
}

impl Model for Shared {
    ghost use Rattle.std.specs.Prelude.{◌≡◌};
    ghost use Rattle.meaning.specs.Lines.{Made};
    ghost use Rattle.tree_state.specs.MadeCode.{made_code};

    ghost Value = { Made };

    ghost coded = { made_code };

    ghost view = { λ a. a.state.value };
}

impl Shared {
    pub fn new(state: State) -> Result<Shared, Memory>
        ensures { IfOk result (λ shared. shared ≡ state) }
    {
        let alloc = state.node.name.allocator();
        Ok(Shared {
            state: Arc::new(alloc, Summed::of(state)?)?,
        })
    }

    pub(crate) fn into_arc(self) -> Arc<Summed>
        ensures { result.value ≡ self }
    {
        let Shared { state } = self;
        state
    }

    pub fn state(&self) -> &State
        ensures { result.now ≡ self.now }
    {
        &self.state.state
    }
}

impl TryCopy for Shared {
    fn copy(&self) -> Result<Shared, Memory> {
        Ok(Shared {
            state: Arc::try_clone(&self.state)?,
        })
    }
}
