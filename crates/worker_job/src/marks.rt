//! Which pods that are asked for are known to give nothing to a step, so that a step looks only behind them.

ghost use Rattle.std.specs.Prelude.{◌≡◌, List, map, IfOk, IfSome, IsTrue, option_copied, option_map};
ghost use Rattle.std.specs.List.{find};
ghost use Rattle.pod_laws.specs.NewPods.{OneNew};
ghost use Rattle.tree_eval.specs.Pods.{NoneAmong};
ghost use Rattle.tree_state.specs.Finding.{pods_in};
ghost use Rattle.law.specs.Justified.{wants_of};
ghost use Rattle.worker_job.specs.declared.marks.Read.TheVariants.{First};
ghost use Rattle.worker_job.specs.Inside.{look_told};
ghost use Rattle.worker_job.specs.Inside.Marks as marked;
ghost use Rattle.worker_job.specs.Jobs.{HasMore};

use crate::fresh::fresh_name;
use crate::job::SeenPod;
use base_types::{Memory, Text, TryCopy};
use looks::Looks;
use tree_incr::{NewPods, WantTest};
use tree_types::{Fact, Want};
use wf_object::WfObject;

// The count that stands for all pods, however many they are.
const ALL: usize = usize::MAX;

// Which pods give nothing to the step that reads them, since they were looked at.
#[derive(Drop)]
pub(crate) enum Read {
    // So many from the first in tree order.
    First(usize),
    // All but the one of this name, which is asked for and was not looked at.
    AllBut(Text),
}

impl Read {
    // What is left of it once the pod of a name was looked at.
    fn after(self, name: &Text) -> Read
        ensures { result ≡ marked.read_after name.now self }
    {
        match self {
            Read::First(known) => Read::First(known),
            Read::AllBut(fresh) => {
                if *name == fresh {
                    Read::First(ALL)
                } else {
                    Read::AllBut(fresh)
                }
            }
        }
    }

    // What is left of it where no pod is new.
    fn left(&self) -> Read
        ensures { result ≡ marked.read_left self.now }
    {
        match self {
            Read::First(known) => Read::First(one_fewer(*known)),
            Read::AllBut(_) => Read::First(0),
        }
    }

    // Whether each pod was looked at.
    fn is_all(&self) -> bool
        ensures { IsTrue result → self.now ≡ First marked.all }
    {
        match self {
            Read::First(known) => *known == ALL,
            Read::AllBut(_) => false,
        }
    }
}

// Which pods give nothing to the step that reads them; and how many, from the first in tree order, to the one that settles them,
// and to the one that creates them.
#[derive(Drop)]
pub(crate) struct Marks {
    pub(crate) read: Read,
    pub(crate) settled: usize,
    pub(crate) created: usize,
}

impl Marks {
    pub(crate) fn none() -> Marks
        ensures { result ≡ marked.none }
    {
        Marks {
            read: Read::First(0),
            settled: 0,
            created: 0,
        }
    }

    // What is left of them once the pod of a name was looked at: one that ended may be settled, and one that is absent created.
    pub(crate) fn after(self, name: &Text, found: &Option<SeenPod>) -> Marks
        ensures { result ≡ marked.after name.now found.now self }
    {
        let Marks {
            read,
            settled,
            created,
        } = self;
        let read = read.after(name);
        match found {
            None => Marks {
                read,
                settled,
                created: 0,
            },
            Some(seen) => {
                let settled = if seen.pod.outcome().is_some() {
                    0
                } else {
                    settled
                };
                Marks {
                    read,
                    settled,
                    created,
                }
            }
        }
    }

    // What is left of them once the workflow has one fact more, if no pod is new or the one that is new is known. The pods stand
    // as they stood, and one of them at the most is gone. What the object tells is of its last fact alone.
    pub(crate) fn behind(
        &self,
        fact: &Fact,
        before: &WfObject,
        pods: &Pods<'_>,
    ) -> Result<Marks, Memory>
        requires more { HasMore before.now pods.now.object.now }
        requires marked { marked.IsMarked (map look_told pods.now.looks.now) before.now self.now }
        ensures { IfOk result (marked.IsMarked (map look_told pods.now.looks.now) pods.now.object.now) }
    {
        let more = pods.object.journal().len() - before.journal().len();
        if more != 1 {
            return Ok(Marks::none());
        }
        match pods.object.state().new_pods() {
            NewPods::None => Ok(self.left()),
            NewPods::OneAtMost => self.all_but_fresh(fact, before, pods),
            NewPods::Unknown => Ok(Marks::none()),
        }
    }

    fn left(&self) -> Marks
        ensures { result ≡ marked.left self.now }
    {
        Marks {
            read: self.read.left(),
            settled: one_fewer(self.settled),
            created: one_fewer(self.created),
        }
    }

    // The same, where one pod at the most is new. One that was not looked at gives nothing to the steps that settle and create.
    fn all_but_fresh(
        &self,
        fact: &Fact,
        before: &WfObject,
        pods: &Pods<'_>,
    ) -> Result<Marks, Memory>
        requires one { marked.GoesOnBy OneNew before.now pods.now.object.now }
        requires marked { marked.IsMarked (map look_told pods.now.looks.now) before.now self.now }
        ensures { IfOk result (marked.IsMarked (map look_told pods.now.looks.now) pods.now.object.now) }
    {
        if !self.read.is_all() {
            return Ok(Marks::none());
        }
        match fresh_name(fact, pods)? {
            None => Ok(Marks::none()),
            Some(name) => Ok(Marks {
                read: Read::AllBut(name.copy()?),
                settled: one_fewer(self.settled),
                created: one_fewer(self.created),
            }),
        }
    }
}

// So many fewer from the first, since one of them may be gone; all are all.
fn one_fewer(known: usize) -> usize
    ensures { result ≡ marked.one_fewer known }
{
    if known == ALL {
        known
    } else {
        known.saturating_sub(1)
    }
}

// What a step looks for among the pods that are asked for, by the last look at each: one that was not looked at, one that had
// ended, or one that was not there.
#[derive(Clone, Copy, Debug)]
pub(crate) enum Sought {
    Unread,
    Ended,
    Absent,
}

// The first such pod that is asked for, as it was found when the marks moved on.
#[derive(Drop)]
pub(crate) struct Found {
    pub(crate) sought: Sought,
    pub(crate) want: Want,
}

impl Found {
    // Where there is no memory to keep it, it is found again.
    fn kept(sought: Sought, want: &Want) -> Option<Found>
        ensures { marked.IsOf sought want.now result }
    {
        match want.copy() {
            Ok(want) => Some(Found { sought, want }),
            Err(_) => None,
        }
    }

    // The pod, where it is such.
    pub(crate) fn such(&self, sought: Sought) -> Option<&Want>
        ensures { IfSome result (λ want. self.now ≡ record { sought = sought; want = want.now }) }
    {
        match (self.sought, sought) {
            (Sought::Unread, Sought::Unread)
            | (Sought::Ended, Sought::Ended)
            | (Sought::Absent, Sought::Absent) => Some(&self.want),
            _ => None,
        }
    }
}

// The pods that a workflow asks for, and the looks at pods.
#[derive(Clone, Copy)]
pub(crate) struct Pods<'a> {
    pub(crate) looks: &'a Looks<SeenPod>,
    pub(crate) object: &'a WfObject,
}

impl<'a> Pods<'a> {
    // The name of a pod that is asked for.
    fn name(&self, want: &Want) -> Option<&Text>
        ensures { option_copied result ≡ marked.pod_name self.now.object.now want.now }
    {
        let Want::Pod(path) = want else { return None };
        match self.object.state().node(path.sels.as_slice()) {
            None => None,
            Some(node) => Some(&node.name),
        }
    }

    fn is_unread(&self, want: &Want) -> bool
        ensures { result ≡ marked.unread (map look_told self.now.looks.now) self.now.object.now want.now }
    {
        match self.name(want) {
            None => false,
            Some(name) => match self.looks.last(name) {
                None => true,
                Some(_) => false,
            },
        }
    }

    fn has_ended(&self, want: &Want) -> bool
        ensures { result ≡ marked.ended (map look_told self.now.looks.now) self.now.object.now want.now }
    {
        let Some(name) = self.name(want) else {
            return false;
        };
        match self.looks.last(name) {
            None => false,
            Some(look) => match &look.found {
                None => false,
                Some(seen) => seen.pod.outcome().is_some(),
            },
        }
    }

    fn is_absent(&self, want: &Want) -> bool
        ensures { result ≡ marked.absent (map look_told self.now.looks.now) self.now.object.now want.now }
    {
        let Some(name) = self.name(want) else {
            return false;
        };
        match self.looks.last(name) {
            None => false,
            Some(look) => match &look.found {
                None => true,
                Some(_) => false,
            },
        }
    }

    // Whether it is such a pod.
    fn fits(&self, sought: Sought, want: &Want) -> bool
        ensures { result ≡ marked.such sought (map look_told self.now.looks.now) self.now.object.now want.now }
    {
        match sought {
            Sought::Unread => self.is_unread(want),
            Sought::Ended => self.has_ended(want),
            Sought::Absent => self.is_absent(want),
        }
    }

    // The first such pod, where so many from the first are known to be none; and how many are none.
    pub(crate) fn find(&self, sought: Sought, known: usize) -> Option<(usize, &'a Want)>
        ensures first { NoneAmong known (marked.such sought (map look_told self.now.looks.now) self.now.object.now)
            (pods_in (wants_of self.now.object.now))
            → option_map (λ f. f.1.now) result
            ≡ find (marked.such sought (map look_told self.now.looks.now) self.now.object.now)
            (pods_in (wants_of self.now.object.now)) }
        ensures known { NoneAmong known (marked.such sought (map look_told self.now.looks.now) self.now.object.now)
            (pods_in (wants_of self.now.object.now))
            → IfSome result (λ f.
            NoneAmong f.0 (marked.such sought (map look_told self.now.looks.now) self.now.object.now)
            (pods_in (wants_of self.now.object.now))) }
    {
        let test = Such {
            pods: *self,
            sought,
        };
        self.object.state().find_pod_behind(known, &test)
    }

    // How many pods from the first are no such pods, where so many are known to be none; and the first such pod.
    fn first(&self, sought: Sought, known: usize) -> (usize, Option<&'a Want>)
        requires { marked.IsKnown known (marked.such sought (map look_told self.now.looks.now) self.now.object.now)
            (pods_in (wants_of self.now.object.now)) }
        ensures known { marked.IsKnown result.0 (marked.such sought (map look_told self.now.looks.now) self.now.object.now)
            (pods_in (wants_of self.now.object.now)) }
        ensures found { option_copied result.1
            ≡ find (marked.such sought (map look_told self.now.looks.now) self.now.object.now)
            (pods_in (wants_of self.now.object.now)) }
    {
        match self.find(sought, known) {
            None => (ALL, None),
            Some((position, want)) => (position.min(ALL - 1), Some(want)),
        }
    }

    // The marks moved on, as far as the steps look that come next, and what the first of these finds.
    pub(crate) fn advanced(&self, marks: Marks) -> (Marks, Option<Found>)
        requires { marked.IsMarked (map look_told self.now.looks.now) self.now.object.now marks }
        ensures marked { marked.IsMarked (map look_told self.now.looks.now) self.now.object.now result.0 }
        ensures found { marked.FoundIs (map look_told self.now.looks.now) self.now.object.now result.1 }
    {
        let Marks {
            read,
            settled,
            created,
        } = marks;
        let Read::First(known) = read else {
            let marks = Marks {
                read,
                settled,
                created,
            };
            return (marks, None);
        };
        let (read, unread) = self.first(Sought::Unread, known);
        let read = Read::First(read);
        if let Some(want) = unread {
            let marks = Marks {
                read,
                settled,
                created,
            };
            return (marks, Found::kept(Sought::Unread, want));
        }
        let (settled, ended) = self.first(Sought::Ended, settled);
        if let Some(want) = ended {
            let marks = Marks {
                read,
                settled,
                created,
            };
            return (marks, Found::kept(Sought::Ended, want));
        }
        let (created, absent) = self.first(Sought::Absent, created);
        let marks = Marks {
            read,
            settled,
            created,
        };
        match absent {
            None => (marks, None),
            Some(want) => (marks, Found::kept(Sought::Absent, want)),
        }
    }
}

// Such a pod.
#[derive(Clone, Copy)]
struct Such<'a> {
    pods: Pods<'a>,
    sought: Sought,
}

impl WantTest for Such<'_> {
    ghost accepts = { λ test want.
        marked.such test.sought (map look_told test.pods.looks.now) test.pods.object.now want };

    fn accepts(&self, want: &Want) -> bool {
        self.pods.fits(self.sought, want)
    }
}
