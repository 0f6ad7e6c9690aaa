//! What stands in a workflow's tree, found without a list of it.

ghost use Rattle.std.specs.Prelude.{◌≡◌, ◌&&◌, ◌<◌, ◌^◌, IfOk, IfSome, bytes_eq, length, option_copied, option_map};
ghost use Rattle.std.specs.List.{find, filter};
ghost use Rattle.tree_types.specs.Places.{sels_eq};
ghost use Rattle.wf_manifest.specs.Valid.{Valid};
ghost use Rattle.meaning.specs.Trees as trees;
ghost use Rattle.tree_state.specs.Asking.{is_of};
ghost use Rattle.tree_eval.specs.Pods.{NoneAmong};
ghost use Rattle.tree_state.specs.Finding.{fits, pods_in, found_from, next_tick};

use crate::TreeState;
use base_types::{Memory, Text};
use growth::laws::{one_name, one_path, valid_are_apart};
use tree_eval::law::lines_are_meant;
use tree_eval::{Clue, NodeTest, WantKind, WantTest};
use tree_types::{Node, Sel, Want, Wants};

impl TreeState {
    /// The first want of a kind, in tree order, that passes a test. What asks for none of the kind is not walked over.
    pub fn find_want<T: WantTest>(&self, kind: WantKind, test: &T) -> Option<&Want>
        ensures { option_copied result ≡ find (λ a. is_of kind a && T.accepts test.now a)
            (trees.wants self.now.manifest self.now.facts) }
    {
        lines_are_meant();
        self.tree.find_want(kind, test)
    }

    /// All that is asked for of a kind, in tree order. What asks for none of the kind is not walked over.
    pub fn wants_of(&self, kind: WantKind) -> Result<Wants, Memory>
        ensures { IfOk result (λ all. all ≡ filter (is_of kind)
            (trees.wants self.now.manifest self.now.facts)) }
    {
        lines_are_meant();
        self.tree.wants_of(self.manifest().name.allocator(), kind)
    }

    /// The first pod that is asked for and passes a test, in tree order, where none of so many from the first does; and how many
    /// from the first are known not to: where it stands, if that can be counted.
    pub fn find_pod_behind<T: WantTest>(&self, known: usize, test: &T) -> Option<(usize, &Want)>
        ensures exact { length (pods_in (trees.wants self.now.manifest self.now.facts)) < 2 ^ 64
            → option_map (λ f. (f.0, f.1.now)) result
            ≡ found_from known (T.accepts test.now)
            (pods_in (trees.wants self.now.manifest self.now.facts)) }
        ensures first { NoneAmong known (T.accepts test.now)
            (pods_in (trees.wants self.now.manifest self.now.facts))
            → option_map (λ f. f.1.now) result
            ≡ find (T.accepts test.now) (pods_in (trees.wants self.now.manifest self.now.facts)) }
        ensures known { NoneAmong known (T.accepts test.now)
            (pods_in (trees.wants self.now.manifest self.now.facts))
            → IfSome result (λ f. NoneAmong f.0 (T.accepts test.now)
            (pods_in (trees.wants self.now.manifest self.now.facts))) }
    {
        lines_are_meant();
        self.tree.find_pod_behind(known, test)
    }

    /// The first node, in tree order, that passes a test.
    pub fn find_node<T: NodeTest>(&self, test: &T) -> Option<&Node>
        ensures { option_copied result
            ≡ find (T.accepts test.now) (trees.tree self.now.manifest self.now.facts) }
    {
        lines_are_meant();
        self.tree.find_node(test)
    }

    /// The node of a path. It costs the depth of the path; where no node has it, a walk over the tree.
    pub fn node(&self, path: &[Sel]) -> Option<&Node>
        ensures { option_copied result ≡ find (λ n. sels_eq n.path.sels path.now)
            (trees.tree self.now.manifest self.now.facts) }
    {
        self.found(&Clue::Path(path))
    }

    /// The node of a name. It costs what stands on the way to it; where no node has the name, a walk over the tree.
    pub fn at(&self, name: &Text) -> Option<&Node>
        ensures { option_copied result ≡ find (λ n. bytes_eq n.name name.now)
            (trees.tree self.now.manifest self.now.facts) }
    {
        self.found(&Clue::Name(name))
    }

    // The node that a clue fits: no two nodes have one path or name, so it is the one that stands on the way, if there is one.
    fn found(&self, clue: &Clue<'_>) -> Option<&Node>
        ensures { option_copied result
            ≡ find (fits clue.now) (trees.tree self.now.manifest self.now.facts) }
    {
        one_path();
        one_name();
        valid_are_apart();
        lines_are_meant();
        match self.tree.on_way(clue) {
            Some(node) => Some(node),
            None => self.find_node(clue),
        }
    }

    /// The least tick above a clock at which a timer is due that is asked for.
    pub fn next_timer(&self, clock: u64) -> Option<u64>
        ensures { result ≡ next_tick clock (trees.wants self.now.manifest self.now.facts) }
    {
        lines_are_meant();
        self.tree.next_timer(clock)
    }
}
