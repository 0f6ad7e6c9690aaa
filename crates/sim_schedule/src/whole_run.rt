//! A run on this thread.

ghost use Rattle.std.specs.Prelude.{◌≡◌, ◌≤◌, false, Some, Err, IfOk, OnOk};
ghost use Rattle.history.specs.History.{clock_of};
ghost use Rattle.law.specs.Justified.{IsLawful};
ghost use Rattle.lawful.specs.Manifests.{HasValidWorkflows};
ghost use Rattle.object_store.specs.Stored.{most_faults};
ghost use Rattle.next_step.specs.Ticks.{next_tick};
ghost use Rattle.next_step.specs.Rounds.{jobs_of};
ghost use Rattle.run_laws.specs.Rounds.{JobsDone};
ghost use Rattle.wf_object.specs.Documents.{law_of};
ghost use Rattle.sim_schedule.specs.declared.end.RunEnd.TheVariants.{StoreFault};
ghost use Rattle.sim_schedule.specs.Sweeping.{GoesOn, KeepsPace, NamesNone, SweepGives};
ghost use Rattle.sim_schedule.specs.Inside.Turns.{TurnGives, EndGives};
ghost use Rattle.sim_schedule.specs.Inside.Restings.{KnowsRest};
ghost use Rattle.sim_schedule.specs.Inside.Rosters.{Follows};

use crate::RunEnd;
use crate::due::next_after;
use crate::roster::Roster;
use crate::round::do_round;
use crate::submit::submit_all;
use base_types::Names;
use io_edge::Outage;
use next_laws::laws::runs_keep_pace;
use object_store::{MOST_FAULTS, Store, StoreRefused};
use run_laws::laws::{jobs_keep_pace, last_round_is_quiet, round_is_still};
use std::alloc::Global;
use wf_bundle::Document;
use wf_object::WfContent;

// Whether the run ends by a call of the clock.
fn end_if_lost(answer: Result<(), StoreRefused>, row: u64) -> Result<(), RunEnd>
    ensures fault { result ≡ Err StoreFault → row ≡ most_faults }
    ensures names { NamesNone result }
{
    if row == MOST_FAULTS {
        return Err(RunEnd::StoreFault);
    }
    match answer {
        Err(StoreRefused::Memory) => Err(RunEnd::Memory),
        _ => Ok(()),
    }
}

// Moves the clock on to the next tick, after a round without an entry and without a fault. Where the call fails another
// round follows.
fn move_clock<O: Outage>(
    store: &mut Store<WfContent, O>,
    document: &Document,
    full: &Names,
    tick: u64,
) -> Result<(), RunEnd>
    requires valid { HasValidWorkflows (law_of document.now) }
    ensures on { GoesOn (law_of document.now) store.old.history store.new.history }
    ensures rising { O.faults store.old.outage ≤ O.faults store.new.outage }
    ensures pace { next_tick (law_of document.now) store.old.history ≡ Some tick →
        IsLawful (law_of document.now) store.old.history →
        JobsDone (law_of document.now) store.old.history (jobs_of store.old.history)
        store.old.history full.now false →
        KeepsPace (law_of document.now) store.old.history store.new.history }
    ensures fault { result ≡ Err StoreFault → store.new.row ≡ most_faults }
    ensures names { NamesNone result }
{
    jobs_keep_pace();
    let answer = store.tick(tick);
    end_if_lost(answer, store.row())
}

// One round, and what follows it: where the run is over, the workflows that are full.
fn turn<O: Outage>(
    alloc: Global,
    store: &mut Store<WfContent, O>,
    document: &Document,
    roster: &mut Roster,
) -> Result<Option<Names>, RunEnd>
    requires valid { HasValidWorkflows (law_of document.now) }
    requires follows { Follows (law_of document.now) store.old.history roster.old }
    requires resting { KnowsRest (law_of document.now) store.old.history roster.old.resting }
    ensures follows { OnOk result (Follows (law_of document.now) store.new.history roster.new) }
    ensures resting { OnOk result (KnowsRest (law_of document.now) store.new.history roster.new.resting) }
    ensures on { GoesOn (law_of document.now) store.old.history store.new.history }
    ensures rising { O.faults store.old.outage ≤ O.faults store.new.outage }
    ensures pace { IsLawful (law_of document.now) store.old.history → IfOk result (λ _.
        KeepsPace (law_of document.now) store.old.history store.new.history) }
    ensures over { IsLawful (law_of document.now) store.old.history → IfOk result (λ full.
        TurnGives (law_of document.now) full store.new.history) }
    ensures fault { result ≡ Err StoreFault → store.new.row ≡ most_faults }
    ensures names { NamesNone result }
{
    jobs_keep_pace();
    last_round_is_quiet();
    round_is_still();
    let entries = store.len();
    let done = do_round(alloc, store, document, roster)?;
    if done.failed || entries != store.len() {
        return Ok(None);
    }
    match next_after(store, document, roster)? {
        None => Ok(Some(done.full)),
        Some(tick) => {
            move_clock(store, document, &done.full, tick)?;
            Ok(None)
        }
    }
}

// The end of a run at which nothing is due but in these workflows.
fn end_with(full: Names) -> Result<(), RunEnd>
    ensures { EndGives full result }
{
    if full.is_empty() {
        Ok(())
    } else {
        Err(RunEnd::TooLarge { workflows: full })
    }
}

/// Submits the workflows of the document that the store has not, in their order, and does rounds until nothing is due: a
/// worker's job for each workflow, then a runner's for each pod that has not ended; after a round in which nothing
/// happened the clock goes to the next tick at which something is due. A worker's job that would find nothing to do, by
/// what it found the last time and by the entries since then, is passed.
///
/// StoreFault only where sixteen calls of the store in a row had failed; TooLarge exactly where, at the end, some workflow is
/// full.
pub fn sweep<O: Outage>(
    alloc: Global,
    store: &mut Store<WfContent, O>,
    document: &Document,
) -> Result<(), RunEnd>
    requires valid { HasValidWorkflows (law_of document.now) }
    ensures on { GoesOn (law_of document.now) store.old.history store.new.history }
    ensures rising { O.faults store.old.outage ≤ O.faults store.new.outage }
    ensures swept { IsLawful (law_of document.now) store.old.history →
        SweepGives (law_of document.now) store.old.history result store.new.history }
    ensures fault { result ≡ Err StoreFault → store.new.row ≡ most_faults }
{
    runs_keep_pace();
    submit_all(alloc, store, document)?;
    let mut roster = Roster::of(alloc, store, document)?;
    // A round is followed by another only where an entry came or a call failed: no memory holds so many entries, nor the numbers
    // of so many calls that are to fail.
    'rounds: for _ in 0..u64::MAX {
        if let Some(full) = turn(alloc, store, document, &mut roster)? {
            return end_with(full);
        }
    }
    Err(RunEnd::Memory)
}
