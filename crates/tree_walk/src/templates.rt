//! The templates of a manifest, found by their names, and the plans of those that are DAGs.

ghost use Rattle.std.specs.Prelude.{◌≡◌, IfOk, IfSome, option_copied, option_map};
ghost use Rattle.wf_manifest.specs.Valid.{Valid};
ghost use Rattle.meaning.specs.Calls.{template_named};
ghost use Rattle.tree_walk.specs.Walkable.{IsWalkable};
ghost use Rattle.tree_walk.specs.Planned.{IsPlanned, ArePlanned, MayWalk, plan_at};
ghost use Rattle.tree_walk.specs.Index.{IsIndex, IsReady};

use base_types::{List, Memory, Text, TryCopy};
use dag_plan::DagPlan;
use std::alloc::Global;
use std::collections::HashMap;
use wf_manifest::{Body, Manifest, Template};

/// Where each template of a manifest stands by its name, and how the tasks of each that is a DAG are gone through.
#[derive(Debug, Drop)]
pub struct Positions {
    pub(crate) by_name: HashMap<Text, usize>,
    pub(crate) plans: List<Option<DagPlan>>,
}

/// A template, and the plan of its tasks if it is a DAG.
#[derive(Clone, Copy)]
pub struct Named<'a> {
    pub template: &'a Template,
    pub plan: Option<&'a DagPlan>,
}

/// The position of each template that is found by its name, of two of one name the first, and the plan of each DAG: no walk
/// over the manifest makes one again.
pub fn positions_of(manifest: &Manifest) -> Result<Positions, Memory>
    requires { Valid manifest.now }
    ensures { IfOk result (λ positions. IsReady manifest.now positions) }
{
    Ok(Positions {
        by_name: index_of(manifest)?,
        plans: plans_of(manifest)?,
    })
}

fn index_of(manifest: &Manifest) -> Result<HashMap<Text, usize>, Memory>
    ensures { IfOk result (λ index. IsIndex index manifest.now.templates 0) }
{
    let mut index = HashMap::new(manifest.name.allocator());
    let mut i = manifest.templates.len();
    while i > 0 {
        i -= 1;
        let name = manifest.templates.get(i).name.copy()?;
        index.insert(name, i)?;
    }
    Ok(index)
}

fn plans_of(manifest: &Manifest) -> Result<List<Option<DagPlan>>, Memory>
    requires { Valid manifest.now }
    ensures { IfOk result (λ plans. ArePlanned manifest.now.templates plans) }
{
    let alloc = manifest.name.allocator();
    let mut plans = List::new(alloc);
    for i in 0..manifest.templates.len() {
        let plan = plan_of(alloc, manifest.templates.get(i))?;
        plans.push(plan)?;
    }
    Ok(plans)
}

fn plan_of(alloc: Global, template: &Template) -> Result<Option<DagPlan>, Memory>
    requires { IsWalkable template.now }
    ensures { IfOk result (λ plan. IsPlanned template.now plan) }
{
    match &template.body {
        Body::Dag(dag) => Ok(Some(DagPlan::new(alloc, dag)?)),
        _ => Ok(None),
    }
}

fn plan_at(plans: &List<Option<DagPlan>>, position: usize) -> Option<&DagPlan>
    ensures { option_copied result ≡ plan_at plans.now position }
{
    match plans.as_slice().get(position) {
        None => None,
        Some(plan) => plan.as_ref(),
    }
}

/// The template of this name, which may be walked over, with its plan.
pub fn find_template<'a>(
    manifest: &'a Manifest,
    positions: &'a Positions,
    name: &Text,
) -> Option<Named<'a>>
    requires { IsReady manifest.now positions.now }
    ensures found { option_map (λ n. n.template.now) result ≡ template_named manifest.now name.now }
    ensures walkable { IfSome result (λ n. MayWalk n) }
{
    let i = *positions.by_name.get(name)?;
    let template = manifest.templates.as_slice().get(i)?;
    let plan = plan_at(&positions.plans, i);
    Some(Named { template, plan })
}
