//! Documents as a whole.

ghost use Rattle.std.specs.Prelude.{◌≡◌, ◌≤◌, Some, IfOk};
ghost use Rattle.base_types.specs.Limits.{most_size};
ghost use Rattle.serde_json.specs.Read.{read};
ghost use Rattle.serde_json.specs.View.{view};
ghost use Rattle.generator.specs.Bundles as bundles;

use crate::draws::{Drawn, draw};
use crate::outcomes::outcomes;
use crate::workflows::workflows;
use base_types::{Bytes, Memory};
use serde_json::{Value, json};
use std::alloc::Global;

fn bundle_of(alloc: Global, drawn: &[Drawn]) -> Result<Value, Memory>
    ensures { IfOk result (λ value. view value ≡ bundles.bundle_of drawn.now) }
{
    let mut items = workflows(alloc, drawn)?;
    items.push(outcomes(alloc, drawn)?)?;
    Ok(json!(in alloc; {"apiVersion": "v1", "kind": "List", "items": items})?)
}

/// The document of so many workflows, by a seed.
pub fn make_bundle(alloc: Global, seed: u64, size: u32) -> Result<Value, Memory>
    requires { size ≤ most_size }
    ensures { IfOk result (λ value. view value ≡ bundles.bundle seed size) }
{
    let drawn = draw(alloc, seed, size)?;
    bundle_of(alloc, drawn.as_slice())
}

/// The text of that document, without spaces.
pub fn print_bundle(alloc: Global, seed: u64, size: u32) -> Result<Bytes, Memory>
    requires { size ≤ most_size }
    ensures text { IfOk result (λ text. text ≡ bundles.bundle_text seed size) }
    ensures reads_back { IfOk result (λ text. read text ≡ Some (bundles.bundle seed size)) }
{
    let bundle = make_bundle(alloc, seed, size)?;
    Ok(Bytes::from_vec(bundle.to_vec(alloc)?))
}
