//! The workflows and pods of a store.

ghost use Rattle.std.specs.Prelude.{◌≡◌, IfOk, option_copied};
ghost use Rattle.law.specs.Contents.{flow_of, pod_of};

use crate::{PodObject, WfContent, WfObject};
use base_types::{Memory, Text, TryCopy};
use io_edge::Outage;
use object_store::Store;
use tree_types::Key;

/// The workflow of a name, where it stands.
pub fn workflow_at<'a, O: Outage>(
    store: &'a Store<WfContent, O>,
    name: &Text,
) -> Result<Option<&'a WfObject>, Memory>
    ensures { IfOk result (λ found. option_copied found ≡ flow_of store.now.history name.now) }
{
    let key = Key::Workflow(name.copy()?);
    match store.look(&key) {
        None => Ok(None),
        Some(content) => Ok(content.workflow()),
    }
}

/// The pod of a workflow's node, where it stands.
pub fn pod_at<'a, O: Outage>(
    store: &'a Store<WfContent, O>,
    workflow: &Text,
    node: &Text,
) -> Result<Option<&'a PodObject>, Memory>
    ensures { IfOk result
        (λ found. option_copied found ≡ pod_of store.now.history workflow.now node.now) }
{
    let key = Key::Pod(workflow.copy()?, node.copy()?);
    match store.look(&key) {
        None => Ok(None),
        Some(content) => Ok(content.pod()),
    }
}
