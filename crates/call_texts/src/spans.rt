//! Spans of time that texts say.

ghost use Rattle.meaning.specs.Suspends as meant;
ghost use Rattle.time_text.specs.Durations.{duration_of};
ghost use Rattle.call_texts.specs.Told.{Says};

use crate::{Halt, said};
use scopes::Scope;
use tag_text::TagText;
use time_text::read_duration;
use tree_types::Note;

/// The seconds of a suspended node's `duration`, where it has one.
pub fn seconds_of(scope: &Scope, duration: &Option<TagText>) -> Result<Option<u64>, Halt>
    ensures { Says result (meant.seconds_of scope.now duration.now) }
{
    let Some(duration) = duration else {
        return Ok(None);
    };
    let text = said(duration, scope)?;
    seconds_read(text.as_str())
}

fn seconds_read(text: &str) -> Result<Option<u64>, Halt>
    ensures { Says result (meant.seconds_read (duration_of text.now)) }
{
    match read_duration(text) {
        Ok(seconds) => Ok(Some(seconds)),
        Err(_) => Err(Halt::Fault(Note::BadDuration)),
    }
}
