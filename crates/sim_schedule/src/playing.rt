//! The steps of a schedule.

ghost use Rattle.std.specs.Prelude.{◌≡◌, ◌≢◌, List, Err, true, length, replicate, IfOk, OnOk};
ghost use Rattle.bundle_rules.specs.Schedules.{is_of_hands};
ghost use Rattle.lawful.specs.Manifests.{HasValidWorkflows};
ghost use Rattle.next_laws.specs.Playing.{IsLawfulStage};
ghost use Rattle.next_step.specs.Hands.{Hand as ScheduleHand, idle_hand};
ghost use Rattle.next_step.specs.Plays.{stage, set_clock};
ghost use Rattle.object_store.specs.declared.refused.StoreRefused.TheVariants as refused;
ghost use Rattle.sim_schedule.specs.Sweeping.{GoesOn};
ghost use Rattle.wf_object.specs.Documents.{law_of};
ghost use Rattle.sim_schedule.specs.Simulating.{step_of};
ghost use Rattle.sim_schedule.specs.Inside.Steps.{StepPlayed};

use crate::hand::Hand;
use crate::hand_job::Job;
use base_types::{Memory, TryCopy};
use io_edge::Outage;
use item_reader::ScheduleStep;
use object_store::{Store, StoreRefused};
use std::alloc::Global;
use wf_bundle::Document;
use wf_object::WfContent;

/// So many hands without jobs.
pub(crate) fn idle_hands(alloc: Global, count: u32) -> Result<Vec<Hand>, Memory>
    ensures { IfOk result (λ hands. hands.items ≡ replicate count idle_hand) }
{
    let mut hands = Vec::new(alloc);
    'hands: for made in 0..count {
        hands.push(Hand::idle(alloc))?;
    }
    Ok(hands)
}

// Whether a call of the clock was answered, be it that it failed.
fn is_answered(answer: &Result<(), StoreRefused>) -> Result<(), Memory>
    ensures { OnOk result (answer.now ≢ Err refused.Memory) }
{
    match answer {
        Ok(()) => Ok(()),
        Err(StoreRefused::Memory) => Err(Memory),
        Err(StoreRefused::NoObject)
        | Err(StoreRefused::Exists)
        | Err(StoreRefused::Conflict { .. })
        | Err(StoreRefused::Behind { .. })
        | Err(StoreRefused::Fault) => Ok(()),
    }
}

// Moves the clock on, where it is below. A call that failed leaves it.
fn move_clock<O: Outage>(
    store: &mut Store<WfContent, O>,
    document: &Document,
    to: u64,
) -> Result<(), Memory>
    ensures on { GoesOn (law_of document.now) store.old.history store.new.history }
    ensures played { (hands : List ScheduleHand) → OnOk result (StepPlayed (law_of document.now) (set_clock to)
        (stage store.old.history hands) (O.faults store.old.outage)
        (stage store.new.history hands) (O.faults store.new.outage)) }
{
    let answer = store.tick(to);
    is_answered(&answer)
}

/// Plays one step.
pub(crate) fn play<O: Outage>(
    alloc: Global,
    store: &mut Store<WfContent, O>,
    document: &Document,
    hands: &mut Vec<Hand>,
    step: &ScheduleStep,
) -> Result<(), Memory>
    requires valid { HasValidWorkflows (law_of document.now) }
    requires there { is_of_hands (length hands.old.items) step.now ≡ true }
    requires lawful { IsLawfulStage (law_of document.now) (stage store.old.history hands.old.items) }
    ensures on { GoesOn (law_of document.now) store.old.history store.new.history }
    ensures count { OnOk result (length hands.new.items ≡ length hands.old.items) }
    ensures played { OnOk result (StepPlayed (law_of document.now) (step_of step.now)
        (stage store.old.history hands.old.items) (O.faults store.old.outage)
        (stage store.new.history hands.new.items) (O.faults store.new.outage)) }
{
    match step {
        ScheduleStep::Give { hand, workflow } => {
            let job = Job::Workflow(workflow.copy()?);
            hands[*hand as usize].give(alloc, job)
        }
        ScheduleStep::GivePod {
            hand,
            workflow,
            node,
        } => {
            let job = Job::Pod(workflow.copy()?, node.copy()?);
            hands[*hand as usize].give(alloc, job)
        }
        ScheduleStep::Step { hand } => hands[*hand as usize].step(alloc, store, document),
        ScheduleStep::Restart { hand } => {
            hands[*hand as usize].restart(alloc);
            Ok(())
        }
        ScheduleStep::Lag { hand, back } => {
            hands[*hand as usize].set_lag(*back);
            Ok(())
        }
        ScheduleStep::Tick { to } => move_clock(store, document, *to),
    }
}
