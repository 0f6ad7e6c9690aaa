//! The names that several grammars of texts have in common.

ghost use Rattle.std.specs.Prelude.{◌≡◌};
ghost use Rattle.std.specs.List.{list_all};
ghost use Rattle.base_types.specs.Bytes as bytes;

use crate::limits::LONGEST_NAME;

/// Whether a byte may stand in a name: an ASCII letter or digit, `-` or `_`.
pub fn is_name_byte(byte: u8) -> bool
    ensures { result ≡ bytes.is_name_byte byte }
{
    byte.is_ascii_alphanumeric() || byte == b'-' || byte == b'_'
}

fn has_name_bytes(text: &str) -> bool
    ensures { result ≡ list_all bytes.is_name_byte text.now }
{
    text.as_bytes().iter().all(|byte| is_name_byte(*byte))
}

/// Whether a text is a name: 1 to 128 letters, digits, `-` and `_`.
pub fn is_name(text: &str) -> bool
    ensures { result ≡ bytes.is_name text.now }
{
    has_name_bytes(text) && !text.is_empty() && text.len() <= LONGEST_NAME
}
