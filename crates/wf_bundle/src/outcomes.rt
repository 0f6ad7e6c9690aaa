//! What is planned, found by the name of a pod's node without a walk.

ghost use Rattle.std.specs.Prelude.{◌≡◌, ◌&&◌, ◌++◌, ◌∷◌, [], not, bytes_eq, option_map, if◌then◌else◌, IfOk, IsTrue};
ghost use Rattle.std.proofs.Common.{rules};
ghost use Rattle.std.specs.Hash as fed;
ghost use Rattle.std.specs.List.{list_any};
ghost use Rattle.std.specs.Cmp.Rules.{comparing, hashing};
ghost use Rattle.wf_bundle.specs.Outcomes.{planned_for, is_same_pod, pods_differ};
ghost use Rattle.wf_bundle.specs.Inside.Pods.{pods_of};

use base_types::{Memory, Text};
use indexmap::{Equivalent, IndexMap};
use item_reader::{Plan, PlannedOutcome, PlannedPod};
use std::alloc::Global;
use std::hash::{Hash, Hasher};
use std::marker::Model;

/// The names of a pod's workflow and node.
#[derive(Drop)]
pub struct PodName {
    workflow: Text,
    node: Text,
}

impl PartialEq for PodName {
    ghost eq = { λ a b. bytes_eq a.workflow b.workflow && bytes_eq a.node b.node };

    ghost laws = { Prim.search (comparing, rules) };

    fn eq(&self, other: &PodName) -> bool {
        self.workflow == other.workflow && self.node == other.node
    }
}

impl Eq for PodName {
    ghost laws = { Prim.search (comparing, rules) };
}

impl Hash for PodName {
    ghost hash_input = { λ name. fed.str name.workflow ++ fed.str name.node };

    ghost respects_eq = { Prim.search (hashing, rules) };

    fn hash<H: Hasher>(&self, state: &mut H) {
        self.workflow.hash(state);
        self.node.hash(state);
    }
}

/// The same names, borrowed.
#[derive(Clone, Copy)]
pub struct PodQuery<'a> {
    workflow: &'a Text,
    node: &'a Text,
}

impl PartialEq for PodQuery<'_> {
    ghost eq = { λ a b. bytes_eq a.workflow.now b.workflow.now && bytes_eq a.node.now b.node.now };

    ghost laws = { Prim.search (comparing, rules) };

    fn eq(&self, other: &PodQuery<'_>) -> bool {
        *self.workflow == *other.workflow && *self.node == *other.node
    }
}

impl Eq for PodQuery<'_> {
    ghost laws = { Prim.search (comparing, rules) };
}

impl Hash for PodQuery<'_> {
    ghost hash_input = { λ query. fed.str query.workflow.now ++ fed.str query.node.now };

    ghost respects_eq = { Prim.search (hashing, rules) };

    fn hash<H: Hasher>(&self, state: &mut H) {
        self.workflow.hash(state);
        self.node.hash(state);
    }
}

impl Equivalent<PodName> for PodQuery<'_> {
    ghost use Rattle.wf_bundle.specs.Inside.Pods.{is_pod_named};
    ghost use Rattle.wf_bundle.specs.Inside.Same.{fed_alike, same_tests};

    ghost equivalent = { λ query name. is_pod_named query.workflow.now query.node.now name };

    ghost respects_hash = { λ query name. fed_alike query.workflow.now query.node.now name.workflow name.node };

    ghost respects_eq = { λ query a b. same_tests query.workflow.now query.node.now a.workflow a.node b.workflow b.node };

    fn equivalent(&self, name: &PodName) -> bool {
        *self.workflow == name.workflow && *self.node == name.node
    }
}

/// Planned outcomes. Contracts see them as the plan that they were made from.
#[derive(Drop)]
pub struct Outcomes {
    default: Option<PlannedOutcome>,
    pods: IndexMap<PodName, PlannedOutcome>,
}

impl Model for Outcomes {
    ghost use Rattle.item_reader.specs.declared.outcomes.Plan.{Plan};

    ghost Value = { Plan };

    ghost use Rattle.wf_bundle.specs.Inside.Pods.{pods_of};

    ghost view = { λ outcomes. record { default = outcomes.default; pods = pods_of outcomes.pods.entries } };
}

impl Outcomes {
    /// A plan's outcomes, and None where two of its pods are one.
    pub fn of_plan(alloc: Global, plan: Plan) -> Result<Option<Outcomes>, Memory>
        ensures { IfOk result (λ made. made ≡ (if pods_differ plan.pods then Some plan else None)) }
    {
        let mut pods = IndexMap::new(alloc);
        for pod in plan.pods.into_vec() {
            if !add(&mut pods, pod)? {
                return Ok(None);
            }
        }
        Ok(Some(Outcomes {
            default: plan.default,
            pods,
        }))
    }

    /// What is planned for the pod of a workflow's node: by name, else the default.
    pub fn outcome(&self, workflow: &Text, node: &Text) -> Option<&PlannedOutcome>
        ensures { option_map (λ outcome. outcome.now) result
            ≡ planned_for self.entry.now workflow.now node.now }
    {
        match self.pods.get(PodQuery { workflow, node }) {
            Some(outcome) => Some(outcome),
            None => self.default.as_ref(),
        }
    }
}

// Adds a pod, unless it is there.
fn add(pods: &mut IndexMap<PodName, PlannedOutcome>, pod: PlannedPod) -> Result<bool, Memory>
    ensures told { IfOk result (λ added. added ≡ not (list_any (is_same_pod pod) (pods_of pods.old.entries))) }
    ensures kept { IfOk result (λ added. IsTrue added
        → pods_of pods.new.entries ≡ pods_of pods.old.entries ++ pod ∷ []) }
{
    let name = PodName {
        workflow: pod.workflow,
        node: pod.node,
    };
    if pods.contains_key(&name) {
        return Ok(false);
    }
    pods.insert(name, pod.outcome)?;
    Ok(true)
}
