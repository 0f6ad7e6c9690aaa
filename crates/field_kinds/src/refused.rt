//! The first refusal of a document.

ghost use Rattle.std.specs.Prelude.{◌≡◌, IfOk};
ghost use Rattle.json_fields.specs.Paths.{field_of};

use crate::rules::{UNSUPPORTED, WRONG_KIND};
use base_types::{Memory, TryCopy};
use json_fields::{FieldPath, FieldRefused};
use std::alloc::AllocError;
use thiserror::Error;

/// Why a value was not read.
#[derive(Debug, Drop, Error)]
pub enum KindRefused {
    #[error("out of memory")]
    Memory,
    /// `field` is the path of what breaks the rule.
    #[error("rule {rule}, {field}")]
    Rule { rule: u32, field: FieldPath },
}

impl From<Memory> for KindRefused {
    ghost use Rattle.field_kinds.specs.declared.refused.KindRefused.TheVariants as refusal;

    ghost from_gives = { λ _ refused. refused ≡ refusal.Memory };

    fn from(_: Memory) -> Self {
        KindRefused::Memory
    }
}

impl From<AllocError> for KindRefused {
    ghost use Rattle.field_kinds.specs.declared.refused.KindRefused.TheVariants as refusal;

    ghost from_gives = { λ _ refused. refused ≡ refusal.Memory };

    fn from(_: AllocError) -> Self {
        KindRefused::Memory
    }
}

impl From<FieldRefused> for KindRefused {
    ghost use Rattle.field_kinds.specs.Refusing.{refused_as};

    ghost from_gives = { λ field refused. refused ≡ refused_as field };

    fn from(field: FieldRefused) -> Self {
        match field {
            FieldRefused::Memory => KindRefused::Memory,
            FieldRefused::WrongKind { path } => KindRefused::Rule {
                rule: WRONG_KIND,
                field: path,
            },
            FieldRefused::Unsupported { path } => KindRefused::Rule {
                rule: UNSUPPORTED,
                field: path,
            },
        }
    }
}

/// The refusal by a rule of the value at a path.
pub fn refused_at(rule: u32, at: &FieldPath) -> Result<KindRefused, Memory>
    ensures { IfOk result (λ refusal. refusal ≡ KindRefused.Rule rule at.now) }
{
    Ok(KindRefused::Rule {
        rule,
        field: at.copy()?,
    })
}

/// The refusal by a rule of a field of the object at a path.
pub fn refused_field(rule: u32, name: &str, at: &FieldPath) -> Result<KindRefused, Memory>
    ensures { IfOk result (λ refusal. refusal ≡ KindRefused.Rule rule (field_of at.now name.now)) }
{
    Ok(KindRefused::Rule {
        rule,
        field: at.field(name)?,
    })
}
