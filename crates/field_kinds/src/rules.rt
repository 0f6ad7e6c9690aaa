//! The numbers of the rules by which a document is refused, as they are printed (`specs/Rules.antt`).

/// The kind of an item is none that is known, or its `apiVersion` is another.
pub const UNKNOWN_KIND: u32 = 1;

/// A required field is not there.
pub const MISSING: u32 = 2;

/// A value has another kind, or a number is out of its range.
pub const WRONG_KIND: u32 = 3;

/// A field may not say anything, or not beside another.
pub const UNSUPPORTED: u32 = 4;

/// A text is not of its grammar.
pub const BAD_TEXT: u32 = 5;

/// A list, or the document, is too long.
pub const TOO_MANY: u32 = 6;

/// What is named is not there: a template, a task in `depends`, `dependencies` or `target`, or a step or task in a tag.
pub const UNKNOWN_NAME: u32 = 11;

/// Two of one list have one name.
pub const DOUBLE_NAME: u32 = 12;

/// A name of a step, task or parameter is not of its grammar.
pub const BAD_NAME: u32 = 13;

/// A tag names a parameter that is not declared, or a call gives an input no value.
pub const UNKNOWN_PARAMETER: u32 = 14;

/// A tag names a step of no earlier group, or a task that is no ancestor.
pub const NOT_ANCESTOR: u32 = 15;

/// Tasks depend on each other in a circle.
pub const CYCLE: u32 = 16;

/// A DAG says in two ways what its tasks wait for.
pub const DEPENDS_MIX: u32 = 17;

/// A semaphore has no limit.
pub const UNKNOWN_LOCK: u32 = 18;

/// A tag is none that is known, or stands where it may not.
pub const MISPLACED_TAG: u32 = 19;

/// A second one for the same thing, as two outcomes for one pod.
pub const SECOND: u32 = 21;

/// A command or a step of the schedule names a workflow that is not there.
pub const NO_WORKFLOW: u32 = 22;

/// A step of the schedule is of none of its forms, or of no hand.
pub const BAD_SCHEDULE: u32 = 23;
