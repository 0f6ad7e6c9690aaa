//! Bytes that are printed as they stand, and those that are not.

ghost use Rattle.std.specs.Prelude.{◌≡◌, ◌+◌, ◌++◌, ◌<◌, ◌*◌, replicate, OnOk};
ghost use Rattle.tree_types.specs.Texts.{escape as escape_of, byte_text, escaped, hex_digit, is_escaped};

use base_types::{Bytes, Memory};

// Adds a text of which control bytes, byte 127 and the backslash are written as `\x` and two lower-case hexadecimal
// digits.
pub(crate) fn push_escaped(line: &mut Bytes, text: &str) -> Result<(), Memory>
    ensures { OnOk result (line.new ≡ line.old ++ escaped text.now) }
{
    let bytes = text.as_bytes();
    for byte in bytes {
        push_byte(line, *byte)?;
    }
    Ok(())
}

fn push_byte(line: &mut Bytes, byte: u8) -> Result<(), Memory>
    ensures { OnOk result (line.new ≡ line.old ++ byte_text byte) }
{
    if is_escaped(byte) {
        line.extend(&escape_of(byte))
    } else {
        line.push(byte)
    }
}

fn is_escaped(byte: u8) -> bool
    ensures { result ≡ is_escaped byte }
{
    byte < 32 || byte == 127 || byte == b'\\'
}

fn escape_of(byte: u8) -> [u8; 4]
    ensures { result ≡ escape_of byte }
{
    [b'\\', b'x', hex_digit(byte / 16), hex_digit(byte % 16)]
}

fn hex_digit(digit: u8) -> u8
    requires { digit < 16 }
    ensures { result ≡ hex_digit digit }
{
    if digit < 10 {
        b'0' + digit
    } else {
        b'a' + (digit - 10)
    }
}
