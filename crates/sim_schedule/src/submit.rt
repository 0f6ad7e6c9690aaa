//! The submissions of a document's workflows.

ghost use Rattle.std.specs.Prelude.{◌≡◌, ◌≤◌, true, false, Err, IfOk, OnOk};
ghost use Rattle.growth.specs.Growth.{Among};
ghost use Rattle.wf_manifest.specs.Valid.{Valid as IsValid};
ghost use Rattle.lawful.specs.Manifests.{HasValidWorkflows};
ghost use Rattle.object_store.specs.Stored.{most_faults};
ghost use Rattle.wf_object.specs.Documents.{law_of};
ghost use Rattle.sim_schedule.specs.declared.end.RunEnd.TheVariants.{StoreFault};
ghost use Rattle.sim_schedule.specs.Sweeping.{GoesOn, NamesNone, with_submission, with_submissions};
ghost use Rattle.sim_schedule.specs.Inside.Submitting.{IsDone};

use crate::RunEnd;
use base_types::{List, Memory, TryCopy};
use io_edge::Outage;
use lawful::additions::submitted_still;
use object_store::{MOST_FAULTS, Snapshot, Store, StoreRefused};
use std::alloc::Global;
use tree_types::{Entry, Key};
use wf_bundle::Document;
use wf_check::Valid;
use wf_object::{WfContent, WfObject};

// Whether a submission is there after this answer; not where the call failed.
fn is_done(answer: Result<Snapshot<WfContent>, StoreRefused>) -> Result<bool, Memory>
    ensures { IsDone answer result }
{
    match answer {
        Ok(_) => Ok(true),
        Err(StoreRefused::Exists) => Ok(true),
        Err(StoreRefused::Fault) => Ok(false),
        Err(_) => Err(Memory),
    }
}

// Submits a workflow once. The answer is false where the call failed.
fn submit_once<O: Outage>(
    alloc: Global,
    store: &mut Store<WfContent, O>,
    document: &Document,
    valid: &Valid,
) -> Result<bool, Memory>
    requires valid { IsValid valid.now }
    requires given { Among valid.now (law_of document.now).workflows }
    ensures on { GoesOn (law_of document.now) store.old.history store.new.history }
    ensures rising { O.faults store.old.outage ≤ O.faults store.new.outage }
    ensures done { IfOk result (λ done. done ≡ true →
        store.new.history ≡ with_submission store.old.history valid.now) }
    ensures failed { IfOk result (λ done. done ≡ false → store.new.history ≡ store.old.history) }
{
    submitted_still();
    let name = &valid.manifest().name;
    let key = Key::Workflow(name.copy()?);
    let change = Entry::Submit {
        workflow: name.copy()?,
        old: None,
        facts: List::new(alloc),
    };
    let object = WfObject::new(valid.copy()?)?;
    is_done(store.create(key, WfContent::of_workflow(object)?, change))
}

// Submits a workflow, again after each call that failed.
fn submit<O: Outage>(
    alloc: Global,
    store: &mut Store<WfContent, O>,
    document: &Document,
    valid: &Valid,
) -> Result<(), RunEnd>
    requires valid { IsValid valid.now }
    requires given { Among valid.now (law_of document.now).workflows }
    ensures on { GoesOn (law_of document.now) store.old.history store.new.history }
    ensures rising { O.faults store.old.outage ≤ O.faults store.new.outage }
    ensures done { OnOk result (store.new.history ≡ with_submission store.old.history valid.now) }
    ensures fault { result ≡ Err StoreFault → store.new.row ≡ most_faults }
    ensures names { NamesNone result }
{
    // So often no call is made: the store counts as lost long before.
    'tries: for _ in 0..u64::MAX {
        if submit_once(alloc, store, document, valid)? {
            return Ok(());
        }
        if store.row() == MOST_FAULTS {
            return Err(RunEnd::StoreFault);
        }
    }
    Err(RunEnd::Memory)
}

/// Submits the workflows of the document, in their order, but those that the store has.
///
/// StoreFault only where sixteen calls of the store in a row had failed.
pub(crate) fn submit_all<O: Outage>(
    alloc: Global,
    store: &mut Store<WfContent, O>,
    document: &Document,
) -> Result<(), RunEnd>
    requires valid { HasValidWorkflows (law_of document.now) }
    ensures on { GoesOn (law_of document.now) store.old.history store.new.history }
    ensures rising { O.faults store.old.outage ≤ O.faults store.new.outage }
    ensures done { OnOk result
        (store.new.history ≡ with_submissions store.old.history (law_of document.now).workflows) }
    ensures fault { result ≡ Err StoreFault → store.new.row ≡ most_faults }
    ensures names { NamesNone result }
{
    let workflows = document.workflows.as_slice();
    'workflows: for i in 0..workflows.len() {
        submit(alloc, store, document, &workflows[i])?;
    }
    Ok(())
}
