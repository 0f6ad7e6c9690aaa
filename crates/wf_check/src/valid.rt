//! Manifests in which no rule finds anything.

ghost use Rattle.std.specs.Prelude.{◌≡◌, IfOk};
ghost use Rattle.field_kinds.specs.Refusing.{Reads};
ghost use Rattle.wf_check.specs.Verdicts.{verdict, Checks, IsChecked, renamed};

use crate::asking::checked;
use base_types::{Memory, Text, TryCopy};
use field_kinds::KindRefused;
use std::alloc::Global;
use std::marker::Model;
use wf_manifest::Manifest;
use wf_places::{LockLimits, places_of};

/// A manifest in which no rule finds anything. Contracts see it as the manifest.
pub struct Valid {
    manifest: Manifest,
}

// Written out, so that proofs about code that drops a manifest see one call.
impl Drop for Valid {
    fn drop(self) {
        let Valid { manifest: _ } = self;
    }
}

impl Model for Valid {
    ghost use Rattle.wf_manifest.specs.declared.manifest.Manifest.{Manifest as OneManifest};
    ghost use Rattle.std.specs.Coded.{codes};
    ghost use Rattle.depends_expr.specs.Expression.{expression_code};
    ghost use Rattle.wf_manifest.specs.JsonCode.{json_code};
    ghost use Rattle.wf_check.specs.Verdicts.{IsChecked};

    ghost Value = { OneManifest };

    ghost coded = { Prim.hlevel (codes, expression_code, json_code) };

    ghost view = { λ valid. valid.manifest };

    ghost invariant = { λ valid. IsChecked valid.manifest };
}

fn find(alloc: Global, limits: &LockLimits<'_>, manifest: &Manifest) -> Result<(), KindRefused>
    ensures { Reads result (verdict limits.now manifest.now) }
{
    let places = places_of(alloc, limits, manifest)?;
    checked(places.as_slice())
}

/// The manifest, where no rule finds anything in it, else the first refusal: by the first of the rules in their order
/// that finds something, the first place in reading order. The semaphores of `limits` have limits.
pub fn check(
    alloc: Global,
    limits: &LockLimits<'_>,
    manifest: Manifest,
) -> Result<Valid, KindRefused>
    ensures { Checks (λ valid. valid) result manifest (verdict limits.now manifest) }
{
    find(alloc, limits, &manifest)?;
    Ok(Valid { manifest })
}

impl Valid {
    /// The manifest, which some limits let pass.
    pub fn manifest(&self) -> &Manifest
        ensures same { result.now ≡ self.now }
        ensures checked { IsChecked result.now }
    {
        &self.manifest
    }

    /// The manifest under another name and creation time, of which no rule asks.
    pub fn renamed(&self, name: Text, created: i64) -> Result<Valid, Memory>
        ensures { IfOk result (λ valid. valid ≡ renamed name created self.now) }
    {
        let copy = self.manifest.copy()?;
        Ok(Valid {
            manifest: Manifest {
                name,
                created,
                ..copy
            },
        })
    }
}

impl TryCopy for Valid {
    fn copy(&self) -> Result<Valid, Memory> {
        Ok(Valid {
            manifest: self.manifest.copy()?,
        })
    }
}
