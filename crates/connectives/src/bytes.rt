//! What a byte is to the connectives.

ghost use Rattle.std.specs.Prelude.{◌≡◌};
ghost use Rattle.connectives.specs.Reading.{kind};

use crate::state::Kind;

pub(crate) fn kind_at(byte: u8) -> Kind
    ensures { result ≡ kind byte }
{
    match byte {
        b' ' | b'\t' => Kind::Blank,
        b'!' => Kind::Bang,
        b'(' => Kind::Opening,
        b')' => Kind::Closing,
        b'&' => Kind::Ampersand,
        b'|' => Kind::Bar,
        _ => Kind::Other,
    }
}
