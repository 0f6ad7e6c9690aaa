//! How a run ended.

ghost use Rattle.std.specs.Prelude.{◌≡◌, ◌↔◌, IsTrue};

use base_types::Bytes;

/// The status that was answered, and the bytes that were written.
#[derive(Drop)]
pub(crate) struct Outcome {
    pub(crate) status: u64,
    pub(crate) output: Bytes,
}

impl Outcome {
    /// Whether two outcomes have one status and the same bytes.
    pub(crate) fn is(&self, other: &Self) -> bool
        ensures { IsTrue result
            ↔ (self.now.status ≡ other.now.status) × (self.now.output ≡ other.now.output) }
    {
        self.status == other.status && self.output.as_slice() == other.output.as_slice()
    }

    /// The bytes as a text, for a reader.
    pub(crate) fn text(&self) -> &str {
        match str::from_utf8(self.output.as_slice()) {
            Ok(text) => text,
            Err(_) => "bytes that are no text",
        }
    }
}
