//! Texts with tags, as a grammar.

ghost use Rattle.std.specs.Prelude.{◌≡◌};
ghost use Rattle.call_reader.specs.Tags.{tags};

use base_types::Memory;
use field_kinds::Grammar;
use std::alloc::Global;
use tag_text::{TagRefused, TagText, parse_tags};

/// The grammar of texts with tags.
#[derive(Drop)]
pub struct Tagged;

impl Grammar for Tagged {
    type Meaning = TagText;

    ghost meaning = { tags };

    fn read(alloc: Global, text: &str) -> Result<Option<TagText>, Memory> {
        match parse_tags(alloc, text) {
            Ok(parts) => Ok(Some(parts)),
            Err(TagRefused::Memory) => Err(Memory),
            Err(TagRefused::Unclosed | TagRefused::EmptyTag | TagRefused::Expression) => Ok(None),
        }
    }
}
