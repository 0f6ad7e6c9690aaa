//! A hand of a schedule: it does its jobs one after the other, step by step.

ghost use Rattle.std.specs.Prelude.{◌≡◌, [], ◌∷◌, ◌++◌, map, IfOk, IfSome, OnOk};
ghost use Rattle.lawful.specs.Manifests.{HasValidWorkflows};
ghost use Rattle.next_laws.specs.Playing.{HandHasSeen};
ghost use Rattle.next_step.specs.Hands.{idle_hand};
ghost use Rattle.sim_schedule.specs.Sweeping.{GoesOn};
ghost use Rattle.wf_object.specs.Documents.{law_of};
ghost use Rattle.sim_schedule.specs.Inside.Hands.{given, IsBusyFirst, hand_after};
ghost use Rattle.sim_schedule.specs.Inside.Steps.{HandMoves};

use crate::hand_job::{Doing, Job, begin, begin_next};
use crate::hand_step::{Left, run, work};
use base_types::Memory;
use io_edge::Outage;
use object_store::Store;
use std::alloc::Global;
use std::collections::VecDeque;
use std::marker::Model;
use std::mem;
use wf_bundle::Document;
use wf_object::WfContent;

/// Contracts see its jobs, the oldest first, what was read in that one, and the lag of its next get.
#[derive(Drop)]
pub(crate) struct Hand {
    doing: Doing,
    waiting: VecDeque<Job>,
    lag: u64,
}

impl Model for Hand {
    ghost use Rattle.std.specs.Prelude.{map};
    ghost use Rattle.next_step.specs.Hands.{Hand as ScheduleHand};

    ghost Value = { ScheduleHand };

    ghost use Rattle.sim_schedule.specs.HandCode.{hand_code};

    ghost coded = { hand_code };

    ghost use Rattle.sim_schedule.specs.Inside.Hands.{given, hand_in, IsBusyFirst};

    ghost view = { λ hand. hand_in hand.doing hand.waiting.items hand.lag };

    ghost invariant = { λ hand. IsBusyFirst hand.doing (map given hand.waiting.items) };
}

impl Hand {
    /// A hand without jobs. It takes no memory.
    pub(crate) fn idle(alloc: Global) -> Hand
        ensures { result ≡ idle_hand }
    {
        Hand {
            doing: Doing::Nothing,
            waiting: VecDeque::new(alloc),
            lag: 0,
        }
    }

    /// Gives a job, after those that are there.
    pub(crate) fn give(&mut self, alloc: Global, job: Job) -> Result<(), Memory>
        ensures { OnOk result (self.new ≡ record self.old { jobs = self.old.jobs ++ given job ∷ [] }) }
    {
        match self.doing {
            Doing::Nothing => self.doing = begin(alloc, job)?,
            Doing::Workflow(_) | Doing::Pod(_) => self.waiting.push_back(job)?,
        }
        Ok(())
    }

    /// Forgets all.
    pub(crate) fn restart(&mut self, alloc: Global)
        ensures { self.new ≡ idle_hand }
    {
        *self = Hand::idle(alloc);
    }

    /// Makes the next get, other than of the saves, read so many versions back.
    pub(crate) fn set_lag(&mut self, back: u64)
        ensures { self.new ≡ record self.old { lag = back } }
    {
        self.lag = back;
    }

    // The hand in the job that is left, or in the first of those that wait.
    fn with(alloc: Global, left: Left, mut waiting: VecDeque<Job>) -> Result<Hand, Memory>
        requires { IfSome left.doing (λ doing. IsBusyFirst doing (map given waiting.items)) }
        ensures { IfOk result (λ hand. hand ≡ hand_after left (map given waiting.items)) }
    {
        let Left { doing, lag } = left;
        match doing {
            Some(doing) => Ok(Hand {
                doing,
                waiting,
                lag,
            }),
            None => {
                let doing = begin_next(alloc, &mut waiting)?;
                Ok(Hand {
                    doing,
                    waiting,
                    lag,
                })
            }
        }
    }

    // The hand after the next step of its oldest job.
    fn stepped<O: Outage>(
        self,
        alloc: Global,
        store: &mut Store<WfContent, O>,
        document: &Document,
    ) -> Result<Hand, Memory>
        requires valid { HasValidWorkflows (law_of document.now) }
        requires seen { HandHasSeen store.old.history self }
        ensures on { GoesOn (law_of document.now) store.old.history store.new.history }
        ensures made { IfOk result (λ hand. HandMoves (law_of document.now)
            store.old.history self (O.faults store.old.outage)
            store.new.history hand (O.faults store.new.outage)) }
    {
        let Hand {
            doing,
            waiting,
            lag,
        } = self;
        match doing {
            Doing::Nothing => Ok(Hand {
                doing: Doing::Nothing,
                waiting,
                lag,
            }),
            Doing::Workflow(worker) => {
                let left = work(store, document, worker, lag)?;
                Hand::with(alloc, left, waiting)
            }
            Doing::Pod(runner) => {
                let left = run(store, document, runner, lag)?;
                Hand::with(alloc, left, waiting)
            }
        }
    }

    /// Makes the next step of the oldest job: at most one call. A job that ends, or is given up, gives way to the next. For want
    /// of memory the hand loses its jobs.
    pub(crate) fn step<O: Outage>(
        &mut self,
        alloc: Global,
        store: &mut Store<WfContent, O>,
        document: &Document,
    ) -> Result<(), Memory>
        requires valid { HasValidWorkflows (law_of document.now) }
        requires seen { HandHasSeen store.old.history self.old }
        ensures on { GoesOn (law_of document.now) store.old.history store.new.history }
        ensures made { OnOk result (HandMoves (law_of document.now)
            store.old.history self.old (O.faults store.old.outage)
            store.new.history self.new (O.faults store.new.outage)) }
    {
        let hand = mem::replace(self, Hand::idle(alloc));
        *self = hand.stepped(alloc, store, document)?;
        Ok(())
    }
}
