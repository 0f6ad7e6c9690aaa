//! Why a document is refused.

ghost use Rattle.std.specs.Prelude.{◌≡◌, IfOk};
ghost use Rattle.field_kinds.specs.declared.refused.KindRefused.{KindRefused as Refused};
ghost use Rattle.bundle_rules.specs.Findings.{refused_in};
ghost use Rattle.bundle_rules.specs.declared.refused.BundleRefused.TheVariants as variant;

use base_types::Memory;
use field_kinds::KindRefused;
use json_fields::FieldPath;
use thiserror::Error;

/// Why a document is refused.
#[derive(Debug, Drop, Error)]
pub enum BundleRefused {
    #[error("out of memory")]
    Memory,
    /// An item breaks a rule, and this is the path of what breaks it.
    #[error("item {item}, rule {rule}, {field}")]
    Rule {
        item: u32,
        rule: u32,
        field: FieldPath,
    },
}

impl From<Memory> for BundleRefused {
    ghost from_gives = { λ _ refused. refused ≡ variant.Memory };

    fn from(_: Memory) -> Self {
        BundleRefused::Memory
    }
}

/// What a refusal of an item says of the document.
pub fn of_item(item: u32, refused: KindRefused) -> BundleRefused
    ensures { result ≡ refused_in item refused }
{
    match refused {
        KindRefused::Memory => BundleRefused::Memory,
        KindRefused::Rule { rule, field } => BundleRefused::Rule { item, rule, field },
    }
}
