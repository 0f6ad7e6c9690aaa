//! A run that follows the schedule of its document.

ghost use Rattle.std.specs.Prelude.{◌≡◌, Err, OnOk};
ghost use Rattle.document_laws.specs.Schedules.{HasItsHands};
ghost use Rattle.law.specs.Justified.{IsLawful};
ghost use Rattle.lawful.specs.Manifests.{HasValidWorkflows};
ghost use Rattle.object_store.specs.Stored.{most_faults};
ghost use Rattle.sim_schedule.specs.declared.end.RunEnd.TheVariants.{StoreFault};
ghost use Rattle.sim_schedule.specs.Sweeping.{GoesOn, NamesNone};
ghost use Rattle.wf_object.specs.Documents.{law_of};
ghost use Rattle.sim_schedule.specs.Simulating.{Followed, SimulationGives};

use crate::RunEnd;
use crate::playing::{idle_hands, play};
use crate::submit::submit_all;
use crate::whole_run::sweep;
use io_edge::Outage;
use next_laws::laws::plays_lawfully;
use object_store::{MOST_FAULTS, Store};
use std::alloc::Global;
use wf_bundle::Document;
use wf_object::WfContent;

// Follows the schedule of a document, with hands that have no jobs at first.
fn follow<O: Outage>(
    alloc: Global,
    store: &mut Store<WfContent, O>,
    document: &Document,
) -> Result<(), RunEnd>
    requires valid { HasValidWorkflows (law_of document.now) }
    requires hands { HasItsHands document.now.schedule }
    requires lawful { IsLawful (law_of document.now) store.old.history }
    ensures on { GoesOn (law_of document.now) store.old.history store.new.history }
    ensures followed { OnOk result (Followed (law_of document.now) document.now.schedule
        store.old.history (O.faults store.old.outage) store.new.history (O.faults store.new.outage)) }
    ensures fault { result ≡ Err StoreFault → store.new.row ≡ most_faults }
    ensures names { NamesNone result }
{
    plays_lawfully();
    let mut hands = idle_hands(alloc, document.schedule.workers)?;
    let steps = document.schedule.steps.as_slice();
    'steps: for i in 0..steps.len() {
        play(alloc, store, document, &mut hands, &steps[i])?;
        if store.row() == MOST_FAULTS {
            return Err(RunEnd::StoreFault);
        }
    }
    Ok(())
}

/// Submits the workflows of the document that the store has not, in their order; follows the schedule of the document, each of
/// whose steps makes one call at most; and then drops the hands with their jobs and does rounds until nothing is due, as `sweep`
/// does.
///
/// StoreFault only where sixteen calls of the store in a row had failed; TooLarge exactly where, at the end, some workflow is
/// full.
pub fn simulate<O: Outage>(
    alloc: Global,
    store: &mut Store<WfContent, O>,
    document: &Document,
) -> Result<(), RunEnd>
    requires valid { HasValidWorkflows (law_of document.now) }
    requires hands { HasItsHands document.now.schedule }
    requires lawful { IsLawful (law_of document.now) store.old.history }
    ensures on { GoesOn (law_of document.now) store.old.history store.new.history }
    ensures simulated { SimulationGives (law_of document.now) document.now.schedule
        store.old.history (O.faults store.old.outage) result store.new.history (O.faults store.new.outage) }
    ensures fault { result ≡ Err StoreFault → store.new.row ≡ most_faults }
{
    submit_all(alloc, store, document)?;
    follow(alloc, store, document)?;
    sweep(alloc, store, document)
}
