//! Where a field stands in a document.

ghost use Rattle.std.specs.Prelude.{◌≡◌, ℕ, List, [], Some, IfOk, string_bytes};
ghost use Rattle.json_fields.specs.Paths.{field_of, member_of, printed};

use base_types::{Memory, TryCopy};
use std::alloc::Global;
use std::fmt;
use std::marker::Model;

/// The place of a field, as in `spec.templates[0].name`. Contracts see it as these bytes. The path of the whole
/// document is empty, and is printed as `.`. Keys of maps stand in it as they are.
#[derive(Drop)]
pub struct FieldPath {
    text: String,
}

impl Model for FieldPath {
    ghost Value = { List ℕ };

    ghost view = { λ path. string_bytes path.text };
}

impl FieldPath {
    /// The path of the whole document, which takes no memory.
    pub fn root(alloc: Global) -> Self
        ensures { result ≡ [] }
    {
        FieldPath {
            text: String::new(alloc),
        }
    }

    /// The path of a field of the object at this path.
    pub fn field(&self, name: &str) -> Result<FieldPath, Memory>
        ensures { IfOk result (λ path. path ≡ field_of self.now name.now) }
    {
        let mut text = self.text.clone()?;
        if !self.text.is_empty() {
            text.push_str(".")?;
        }
        text.push_str(name)?;
        Ok(FieldPath { text })
    }

    /// The path of a member of the list at this path, by its position from 0.
    pub fn member(&self, i: usize) -> Result<FieldPath, Memory>
        ensures { IfOk result (λ path. path ≡ member_of self.now i) }
    {
        let alloc = *self.text.allocator();
        let at = self.text.as_str();
        let text = format!(in alloc; "{at}[{i}]")?;
        Ok(FieldPath { text })
    }

    /// The path as it is printed, but for that of the whole document, which is empty here.
    pub fn as_str(&self) -> &str
        ensures { result.now ≡ self.now }
    {
        self.text.as_str()
    }
}

impl TryCopy for FieldPath {
    fn copy(&self) -> Result<FieldPath, Memory> {
        Ok(FieldPath {
            text: self.text.clone()?,
        })
    }
}

impl fmt::Display for FieldPath {
    ghost output = { λ path. Some (printed path) };

    fn fmt<W: fmt::Write>(&self, f: &mut fmt::Formatter<W>) -> fmt::Result {
        if self.text.is_empty() {
            f.write_str(".")
        } else {
            f.write_str(self.text.as_str())
        }
    }
}

impl fmt::Debug for FieldPath {
    fn fmt<W: fmt::Write>(&self, f: &mut fmt::Formatter<W>) -> fmt::Result {
        fmt::Display::fmt(self, f)
    }
}
