//! The first want or node of the tree that gives something.

ghost use Rattle.std.specs.Prelude.{◌≡◌, Some, None, is_some, option_map, IfSome};
ghost use Rattle.std.specs.List.{find};
ghost use Rattle.tree_state.specs.declared.kinds.WantKind.TheVariants as kind;
ghost use Rattle.ahead.specs.Left.{AheadOf};
ghost use Rattle.tree_types.specs.declared.fact.Fact.TheVariants as fact;
ghost use Rattle.tree_types.specs.declared.entry.Key.TheVariants as of_key;
ghost use Rattle.tree_types.specs.declared.want.Want.{Want as Wanted};
ghost use Rattle.tree_types.specs.declared.node.Node.{Node as TreeNode};
ghost use Rattle.law.specs.Justified as justified;
ghost use Rattle.law.specs.Due.{record_fact, file, create, save, release};
ghost use Rattle.next_step.specs.Views.{first_given};
ghost use Rattle.next_step.specs.Next.{get};
ghost use Rattle.tree_state.specs.Finding.{pods_in};
ghost use Rattle.worker_job.specs.Inside.Marks.{FoundIs, such};
ghost use Rattle.worker_job.specs.Inside.Saving.{is_left};
ghost use Rattle.worker_job.specs.Readings as reads;

use crate::held::Held;
use crate::marks::{Read, Sought};
use crate::reading::Reading;
use base_types::{Shared, Text};
use memo_cache::Cache;
use tree_incr::{NodeTest, WantKind, WantTest};
use tree_types::{LockId, Node, Outcome, Outputs, Path, Want};

// A lock that the book shows as held.
#[derive(Clone, Copy)]
struct Holding<'a> {
    reading: Reading<'a>,
}

impl<'a> WantTest for Holding<'a> {
    ghost accepts = { λ test want. is_some (reads.granting test.reading want) };

    fn accepts(&self, want: &Want) -> bool {
        self.reading.holding(want).is_some()
    }
}

// A lock that the book does not know.
#[derive(Clone, Copy)]
struct Unknown<'a> {
    reading: Reading<'a>,
}

impl<'a> WantTest for Unknown<'a> {
    ghost accepts = { λ test want. is_some (reads.filing test.reading want) };

    fn accepts(&self, want: &Want) -> bool {
        self.reading.unknown(want).is_some()
    }
}

// A timer that the view's tick has reached.
#[derive(Clone, Copy)]
struct Reached<'a> {
    reading: Reading<'a>,
}

impl<'a> WantTest for Reached<'a> {
    ghost accepts = { λ test want. is_some (reads.timing test.reading want) };

    fn accepts(&self, want: &Want) -> bool {
        self.reading.reached(want).is_some()
    }
}

// What is not among the saves.
#[derive(Clone, Copy)]
struct Unsaved<'a> {
    reading: Reading<'a>,
    saves: &'a Cache,
}

impl<'a> WantTest for Unsaved<'a> {
    ghost accepts = { λ test want. is_some (reads.saving test.reading test.saves.now want) };

    fn accepts(&self, want: &Want) -> bool {
        self.reading.unsaved(self.saves, want).is_some()
    }
}

// A suspended node that is resumed.
#[derive(Clone, Copy)]
struct Resumed<'a> {
    reading: Reading<'a>,
}

impl<'a> NodeTest for Resumed<'a> {
    ghost accepts = { λ test node. is_some (reads.resuming test.reading node) };

    fn accepts(&self, node: &Node) -> bool {
        self.reading.resumed(node).is_some()
    }
}

// A node that is over and holds its lock.
#[derive(Clone, Copy)]
struct Kept<'a> {
    reading: Reading<'a>,
}

impl<'a> NodeTest for Kept<'a> {
    ghost accepts = { λ test node. is_some (reads.releasing test.reading node) };

    fn accepts(&self, node: &Node) -> bool {
        self.reading.kept(node).is_some()
    }
}

impl<'a> Reading<'a> {
    // The first such pod, where it was found when the marks moved on.
    fn found_pod(&self, sought: Sought) -> Option<&'a Want>
        requires { FoundIs self.now.job.now.views.pods self.now.object.now self.now.found.now }
        ensures { IfSome result (λ want.
            find (such sought self.now.job.now.views.pods self.now.object.now) (pods_in (justified.wants_of self.now.object.now))
            ≡ Some want.now) }
    {
        match self.found {
            None => None,
            Some(found) => found.such(sought),
        }
    }

    // The name of the first pod that was not looked at.
    pub(crate) fn first_unlooked(&self) -> Option<&Text>
        requires marked { reads.KnowsPods self.now }
        ensures { option_map (λ n. get (of_key.Pod (reads.workflow self.now) n.now)) result
            ≡ reads.asked self.now (reads.reading self.now) }
    {
        if let Some(want) = self.found_pod(Sought::Unread) {
            return self.unlooked(want);
        }
        match &self.marks.read {
            Read::First(known) => match self.pods().find(Sought::Unread, *known) {
                None => None,
                Some((_, want)) => self.unlooked(want),
            },
            Read::AllBut(name) => Some(name),
        }
    }

    // The first pod that finished, and its outcome.
    pub(crate) fn first_finished(&self) -> Option<(&Path, &Shared<Outcome>)>
        requires marked { reads.KnowsPods self.now }
        ensures { option_map (λ f. record_fact (fact.Settled f.0.now f.1.now)) result
            ≡ reads.asked self.now (reads.settling self.now) }
    {
        if let Some(want) = self.found_pod(Sought::Ended) {
            return self.finished(want);
        }
        match self.pods().find(Sought::Ended, self.marks.settled) {
            None => None,
            Some((_, want)) => self.finished(want),
        }
    }

    // The first lock that the book shows as held.
    pub(crate) fn first_holding(&self) -> Option<&Path>
        ensures { option_map (λ p. record_fact (fact.Granted p.now)) result
            ≡ reads.asked self.now (reads.granting self.now) }
    {
        match self.held_waiting() {
            Held::Nothing => return None,
            Held::One(path) => {
                if path.sels.len() > 1 {
                    return Some(path);
                }
            }
            Held::Unknown => {}
        }
        let test = Holding { reading: *self };
        match self.object.state().find_want(WantKind::Lock, &test) {
            None => None,
            Some(want) => self.holding(want),
        }
    }

    // The first lock that the book does not know.
    pub(crate) fn first_unknown(&self) -> Option<(&Path, &LockId, &Text)>
        requires to_file { reads.KnowsFiling self.now }
        ensures { option_map
            (λ u. file u.1.now (justified.key (reads.workflow self.now) u.0.now)
            (justified.rank self.now.object.now.manifest u.0.now.sels u.2.now)) result
            ≡ reads.asked self.now (reads.filing self.now) }
    {
        let test = Unknown { reading: *self };
        match self
            .to_file
            .first(WantKind::Lock, self.object.state(), &test)
        {
            None => None,
            Some(want) => self.unknown(want),
        }
    }

    // The first timer that the view's tick has reached.
    pub(crate) fn first_reached(&self) -> Option<&Path>
        ensures { option_map (λ p. record_fact (fact.Due p.now)) result
            ≡ reads.asked self.now (reads.timing self.now) }
    {
        let test = Reached { reading: *self };
        match self.object.state().find_want(WantKind::Timer, &test) {
            None => None,
            Some(want) => self.reached(want),
        }
    }

    // The first pod that was noted as absent.
    pub(crate) fn first_noted(&self) -> Option<(&Path, &Text)>
        requires marked { reads.KnowsPods self.now }
        ensures { option_map (λ n. create n.0.now n.1.now) result
            ≡ reads.asked self.now (reads.creating self.now) }
    {
        if let Some(want) = self.found_pod(Sought::Absent) {
            return self.noted(want);
        }
        match self.pods().find(Sought::Absent, self.marks.created) {
            None => None,
            Some((_, want)) => self.noted(want),
        }
    }

    // The first that is to be saved and is not among the saves.
    pub(crate) fn first_unsaved(&self, saves: &Cache) -> Option<(&Path, &Text, &Text, &Outputs)>
        requires to_save { AheadOf kind.Save (is_left (reads.workflow self.now) saves.now) self.now.to_save.now (justified.wants_of self.now.object.now) }
        ensures { option_map
            (λ u. save u.1.now u.2.now (justified.key (reads.workflow self.now) u.0.now) u.3.now) result
            ≡ reads.asked self.now (reads.saving self.now saves.now) }
    {
        let test = Unsaved {
            reading: *self,
            saves,
        };
        match self
            .to_save
            .first(WantKind::Save, self.object.state(), &test)
        {
            None => None,
            Some(want) => self.unsaved(saves, want),
        }
    }

    // The first suspended node that is resumed.
    pub(crate) fn first_resumed(&self) -> Option<&Path>
        ensures { option_map (λ p. record_fact (fact.Resumed p.now)) result
            ≡ reads.first_node self.now (reads.resuming self.now) }
    {
        if !self.may_resume() {
            return None;
        }
        let test = Resumed { reading: *self };
        match self.object.state().find_node(&test) {
            None => None,
            Some(node) => self.resumed(node),
        }
    }

    // The first node that is over and holds its lock.
    pub(crate) fn first_kept(&self) -> Option<(&LockId, &Path)>
        ensures { option_map (λ k. release k.0.now (justified.key (reads.workflow self.now) k.1.now)) result
            ≡ reads.first_node self.now (reads.releasing self.now) }
    {
        match self.held_over() {
            Held::Nothing => return None,
            Held::One(path) => {
                if !path.sels.is_empty() {
                    return match self.held(path) {
                        None => None,
                        Some(lock) => Some((lock, path)),
                    };
                }
            }
            Held::Unknown => {}
        }
        let test = Kept { reading: *self };
        match self.object.state().find_node(&test) {
            None => None,
            Some(node) => self.kept(node),
        }
    }
}
