//! The run of a document over a new store.

ghost use Rattle.std.specs.Prelude.{◌≡◌, ℕ, [], IfOk, Some, None};
ghost use Rattle.command_words.specs.declared.order.Mode.{Mode as ModeSaid};
ghost use Rattle.run_laws.specs.Submissions.{begun};
ghost use Rattle.wf_object.specs.Documents.{law_of};
ghost use Rattle.wf_program.specs.Runs.{RunEnds};
ghost use Rattle.wf_program.specs.Inside.Ends.{IsSound, EndedSo, kept_of, kept_in, RunLeaves, status_in, text_in};

use crate::ended::Ended;
use crate::status::Status;
use crate::texts::Made;
use base_types::{Memory, TryCopy};
use command_words::Mode;
use io_edge::Outage;
use lawful::laws::{meets_once, state_is_as_said};
use next_laws::laws::plays_lawfully;
use object_store::{Starts, Store};
use plain_laws::laws::plain_runs_as_planned;
use run_laws::laws::submissions_go_well;
use run_texts::{Shown, run_text, too_large_text};
use sim_schedule::{RunEnd, simulate, sweep};
use std::alloc::Global;
use wf_bundle::Document;
use wf_object::{WfContent, starts};

// The text of a run that ended so.
fn end_of_run<O: Outage>(
    alloc: Global,
    document: &Document,
    store: &Store<WfContent, O>,
    shown: Shown,
    ended: Result<(), RunEnd>,
) -> Result<Made, Status>
    ensures { (mode : ModeSaid) (before : ℕ) → EndedSo mode before document.now (kept_of O.faults store.now) ended →
        RunEnds mode before document.now shown (kept_of O.faults store.now) (status_in result) (text_in result) }
{
    match ended {
        Ok(()) => Ok(Made {
            status: Status::Done,
            text: run_text(alloc, store, shown)?,
        }),
        Err(RunEnd::TooLarge { workflows }) => {
            let mut text = run_text(alloc, store, shown)?;
            text.extend(too_large_text(alloc, workflows.as_slice())?.as_slice())?;
            Ok(Made {
                status: Status::TooLarge,
                text,
            })
        }
        Err(RunEnd::StoreFault) => Err(Status::StoreFault),
        Err(RunEnd::Memory) => Err(Status::Memory),
    }
}

// What the store of a document begins with.
fn new_starts(alloc: Global, document: &Document) -> Result<Starts<WfContent>, Memory>
    ensures { IfOk result (λ start. start ≡ (begun (law_of document.now) []).start) }
{
    Ok(starts(alloc, document.limits.copy()?)?)
}

// Runs a document in a mode over a new store.
fn run_over<O: Outage>(
    alloc: Global,
    mode: Mode,
    document: &Document,
    store: &mut Store<WfContent, O>,
) -> Result<(), RunEnd>
    requires sound { IsSound document.now }
    requires new { store.old.history ≡ begun (law_of document.now) [] }
    ensures { EndedSo mode (O.faults store.old.outage) document.now (kept_of O.faults store.new) result }
{
    submissions_go_well();
    plain_runs_as_planned();
    plays_lawfully();
    meets_once();
    state_is_as_said();
    match mode {
        Mode::Simulate => simulate(alloc, store, document),
        Mode::Run | Mode::Check | Mode::Generate => sweep(alloc, store, document),
    }
}

/// Runs a document in a mode over a new store, which is left in `ended`; or the outage, where there is no memory for a store.
pub(crate) fn run<O: Outage>(
    alloc: Global,
    mode: Mode,
    document: &Document,
    shown: Shown,
    outage: O,
    ended: &mut Ended<O>,
) -> Result<Made, Status>
    requires { IsSound document.now }
    ensures left { RunLeaves mode (O.faults outage) document.now shown
        (kept_in O.faults ended.new.store) (status_in result) (text_in result) }
    ensures outage { ended.new.store ≡ None → ended.new.outage ≡ Some outage }
{
    ended.store = None;
    match new_starts(alloc, document) {
        Ok(start) => {
            let mut store = Store::new(outage, start);
            let end = run_over(alloc, mode, document, &mut store);
            let made = end_of_run(alloc, document, &store, shown, end);
            ended.store = Some(store);
            made
        }
        Err(Memory) => {
            ended.outage = Some(outage);
            Err(Status::Memory)
        }
    }
}
