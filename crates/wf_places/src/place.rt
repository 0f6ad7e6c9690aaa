//! A place at which a rule is broken.

use field_kinds::FieldPath;

/// A rule, by its number, and the path at which it is broken.
#[derive(Drop)]
pub struct Place {
    pub rule: u32,
    pub field: FieldPath,
}
