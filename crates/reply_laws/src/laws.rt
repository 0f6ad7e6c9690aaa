//! The laws, each the contract of a function that does nothing.

ghost use Rattle.reply_laws.specs.Laws.{GetsAreAnswered, CreatesAreDone, WritesAreDone};

/// A get is answered as of a history that goes on from what was seen, perhaps with an older version.
pub fn gets_are_answered()
    ensures { GetsAreAnswered }
{}

/// A create is answered at such a history.
pub fn creates_are_done()
    ensures { CreatesAreDone }
{}

/// And so is a write.
pub fn writes_are_done()
    ensures { WritesAreDone }
{}
