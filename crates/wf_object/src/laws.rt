//! The laws of contents, each the contract of a function that does nothing.

ghost use Rattle.wf_object.specs.Kept.{KindsTell, BooksFollow, SavesFollow};

/// What the law reads of the lock book and of the saves is what they keep.
pub fn kinds_tell()
    ensures { KindsTell }
{}

/// What a filing or a release makes of a lock book is what the law says.
pub fn books_follow()
    ensures { BooksFollow }
{}

/// What a save makes of the caches is what the law says.
pub fn saves_follow()
    ensures { SavesFollow }
{}
