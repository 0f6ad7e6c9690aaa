//! Why a text is no text with tags.

ghost use Rattle.std.specs.Prelude.{◌≡◌};
ghost use Rattle.tag_text.specs.declared.refused.TagRefused.TheVariants as refused;

use base_types::Memory;
use thiserror::Error;

/// What is wrong with a text's leftmost faulty tag.
#[derive(Clone, Copy, Debug, PartialEq, Eq, Error)]
pub enum TagRefused {
    #[error("a tag is not closed")]
    Unclosed,
    #[error("a tag is empty")]
    EmptyTag,
    /// Expression tags, `{{=..}}`, are none of the supported ones.
    #[error("a tag is an expression")]
    Expression,
    #[error("out of memory")]
    Memory,
}

impl From<Memory> for TagRefused {
    ghost from_gives = { λ _ e. e ≡ refused.Memory };

    fn from(_: Memory) -> Self {
        TagRefused::Memory
    }
}
