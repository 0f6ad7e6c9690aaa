//! Instants as seconds since the Unix epoch.

ghost use Rattle.std.specs.Prelude.{◌≡◌};
ghost use Rattle.time_text.specs.Instants.{created_of};

use jiff::Timestamp;
use thiserror::Error;

/// Why a text is no instant.
#[derive(Clone, Copy, Debug, PartialEq, Eq, Error)]
pub enum TimeRefused {
    #[error("not an instant")]
    Bad,
}

/// The Unix second in which an instant lies, as `creationTimestamp` gives it: rounded down, before 1970 too.
pub fn read_created(text: &str) -> Result<i64, TimeRefused>
    ensures { result ≡ created_of text.now }
{
    let Ok(instant) = text.parse::<Timestamp>() else {
        return Err(TimeRefused::Bad);
    };
    Ok(instant.to_plain().floor_second())
}
