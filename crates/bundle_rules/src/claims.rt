//! What may stand once in a document.

ghost use Rattle.std.specs.Prelude.{◌≡◌, ◌++◌, ◌∷◌, [], not, IfOk, OnOk, IsTrue};
ghost use Rattle.std.specs.List.{list_any};
ghost use Rattle.bundle_rules.specs.Claims.{same_claim};

use base_types::{Memory, Text};
use indexmap::IndexSet;
use json_fields::FieldPath;

/// What may stand once in a document.
#[derive(Debug, PartialEq, Eq, Hash, Drop)]
pub enum Claim {
    Outcomes,
    Commands,
    Schedule,
    /// A workflow of this name, from a resource or from a resubmission.
    Workflow(Text),
    /// A ConfigMap of this name.
    Config(Text),
    /// The outcome for the pod of a workflow's node.
    Pod(Text, Text),
}

/// A place within an item, and what it claims.
#[derive(Debug, Drop)]
pub struct Spot {
    pub item: u32,
    pub path: FieldPath,
    pub claim: Claim,
}

// Whether the claim is new. A new one stands behind the others then.
pub(crate) fn add(claims: &mut IndexSet<Claim>, claim: Claim) -> Result<bool, Memory>
    ensures told { IfOk result (λ added. added ≡ not (list_any (same_claim claim) claims.old.keys)) }
    ensures kept { IfOk result (λ added. IsTrue added → claims.new.keys ≡ claims.old.keys ++ claim ∷ []) }
{
    if claims.contains(&claim) {
        return Ok(false);
    }
    claims.insert(claim)?;
    Ok(true)
}
