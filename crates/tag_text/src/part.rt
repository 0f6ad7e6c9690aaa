//! The parts of a text with tags.

use base_types::{Memory, Text, TryCopy};

/// A stored part of a text.
#[derive(Debug, Drop)]
pub enum Part {
    /// Text as it stands, which is never empty.
    Plain(Text),
    /// A tag, by its name.
    Tag(Text),
}

/// A part of a text, lent by the text that keeps it.
#[derive(Clone, Copy, Debug)]
pub enum Piece<'a> {
    /// Text as it stands, which is never empty.
    Plain(&'a str),
    /// A tag, by its name.
    Tag(&'a str),
}

impl TryCopy for Part {
    fn copy(&self) -> Result<Part, Memory> {
        match self {
            Part::Plain(text) => Ok(Part::Plain(text.copy()?)),
            Part::Tag(name) => Ok(Part::Tag(name.copy()?)),
        }
    }
}
