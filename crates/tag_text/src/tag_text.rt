//! A text as its parts.

ghost use Rattle.std.specs.Prelude.{◌≡◌, ◌<◌, length, slice_get, Some};
ghost use Rattle.tag_text.specs.Pieces.{part_of};

use crate::{Part, Piece};
use base_types::{List, Memory, TryCopy};
use std::marker::Model;

/// A text with tags, which contracts see as the list of its parts.
#[derive(Debug, Drop)]
pub struct TagText {
    parts: List<Part>,
}

impl Model for TagText {
    ghost use Rattle.std.specs.Prelude.{List};
    ghost use Rattle.tag_text.specs.declared.part.Part.{Part};

    ghost Value = { List Part };

    ghost view = { λ text. text.parts };
}

impl TagText {
    // The text of these parts.
    pub(crate) fn from_parts(parts: List<Part>) -> Self
        ensures { result ≡ parts }
    {
        TagText { parts }
    }

    /// The number of its parts.
    pub fn len(&self) -> usize
        ensures { result ≡ length self.now }
    {
        self.parts.len()
    }

    /// The part at a place, counted from 0.
    pub fn piece(&self, i: usize) -> Piece<'_>
        requires { i < length self.now }
        ensures { slice_get self.now i ≡ Some (part_of result) }
    {
        match self.parts.get(i) {
            Part::Plain(text) => Piece::Plain(text.as_str()),
            Part::Tag(name) => Piece::Tag(name.as_str()),
        }
    }
}

impl TryCopy for TagText {
    fn copy(&self) -> Result<TagText, Memory> {
        Ok(TagText {
            parts: self.parts.copy()?,
        })
    }
}
