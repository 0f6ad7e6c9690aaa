//! Texts that ask for a tag.

ghost use Rattle.std.specs.Prelude.{◌≡◌};
ghost use Rattle.tag_text.specs.Pieces.{part_of};
ghost use Rattle.mentions.specs.Mentions as meant;

use tag_text::{Piece, TagText};
use wf_manifest::Arguments;

// Whether a text has a tag that begins with the prefix.
pub(crate) fn text_asks(prefix: &str, text: &TagText) -> bool
    ensures { result ≡ meant.text_asks prefix.now text.now }
{
    for i in 0..text.len() {
        if piece_asks(prefix, text.piece(i)) {
            return true;
        }
    }
    false
}

fn piece_asks(prefix: &str, piece: Piece<'_>) -> bool
    ensures { result ≡ meant.part_asks prefix.now (part_of piece.entry) }
{
    match piece {
        Piece::Plain(_) => false,
        Piece::Tag(name) => name.starts_with(prefix),
    }
}

// The same of a text that may be absent.
pub(crate) fn option_asks(prefix: &str, text: &Option<TagText>) -> bool
    ensures { result ≡ meant.option_asks prefix.now text.now }
{
    match text {
        None => false,
        Some(text) => text_asks(prefix, text),
    }
}

// Whether the value of an argument asks for it.
pub(crate) fn arguments_ask(prefix: &str, arguments: &Arguments) -> bool
    ensures { result ≡ meant.arguments_ask prefix.now arguments.now }
{
    for i in 0..arguments.len() {
        if text_asks(prefix, &arguments.get(i).value) {
            return true;
        }
    }
    false
}
