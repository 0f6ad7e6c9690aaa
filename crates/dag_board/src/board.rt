//! How the tasks of a DAG stand.

ghost use Rattle.std.specs.Prelude.{◌≡◌, replicate, None, IfOk};
ghost use Rattle.dag_template.specs.Stands.{waits};
ghost use Rattle.dag_board.specs.Turns.{IsNew};

use base_types::Memory;
use dag_template::{Stand, waiting};
use std::alloc::Global;
use tree_state::Shared;
use wf_manifest::Dag;

/// How the tasks of a DAG stand so far: what others see of each, and what it made.
#[derive(Debug, Drop)]
pub struct Board {
    pub(crate) stands: Vec<Stand>,
    pub(crate) states: Vec<Option<Shared>>,
}

impl Board {
    /// The board of tasks that were not gone through.
    pub fn new(alloc: Global, dag: &Dag) -> Result<Board, Memory>
        ensures { IfOk result (λ board. IsNew dag.now board) }
    {
        let count = dag.tasks.len();
        Ok(Board {
            stands: no_stands(alloc, count)?,
            states: no_states(alloc, count)?,
        })
    }
}

fn no_stands(alloc: Global, count: usize) -> Result<Vec<Stand>, Memory>
    ensures { IfOk result (λ stands. stands.items ≡ replicate count waits) }
{
    let mut stands = Vec::with_capacity(alloc, count)?;
    for _ in 0..count {
        stands.push(waiting())?;
    }
    Ok(stands)
}

fn no_states(alloc: Global, count: usize) -> Result<Vec<Option<Shared>>, Memory>
    ensures { IfOk result (λ states. states.items ≡ replicate count None) }
{
    let mut states = Vec::with_capacity(alloc, count)?;
    for _ in 0..count {
        states.push(None)?;
    }
    Ok(states)
}
