//! What stands behind a node's name.

ghost use Rattle.std.specs.Prelude.{◌≡◌, ◌++◌, codes, OnOk};
ghost use Rattle.tree_types.specs.Texts.{escaped, note_end};

use crate::escape::push_escaped;
use base_types::{Bytes, Memory, Text};
use tree_types::Note;

// Adds a separator and the note's text; nothing where there is no note.
pub(crate) fn push_note(line: &mut Bytes, note: &Note) -> Result<(), Memory>
    ensures { OnOk result (line.new ≡ line.old ++ note_end note.now) }
{
    match note {
        Note::None => Ok(()),
        Note::WhenFalse => push_said(line, "when is false"),
        Note::DependsFalse => push_said(line, "depends is false"),
        Note::NoItems => push_said(line, "Skipped, empty params"),
        Note::Waiting(lock) => push_named(line, "waiting for ", &lock.text),
        Note::Looking(cache) => push_named(line, "looking in ", cache),
        Note::Hit(cache, key) => push_hit(line, cache, key),
        Note::Carried => push_said(line, "carried"),
        Note::TooDeep => push_said(line, "nested too deep"),
        Note::Unresolved(tag) => push_named(line, "unresolved ", tag),
        Note::BadWhen => push_said(line, "bad when"),
        Note::NotNumbers => push_said(line, "not numbers"),
        Note::NotList => push_said(line, "withParam is not a list"),
        Note::BadItem => push_said(line, "bad item"),
        Note::BadNumber => push_said(line, "bad number"),
        Note::BadFormat => push_said(line, "bad format"),
        Note::TooManyItems => push_said(line, "too many items"),
        Note::BadDuration => push_said(line, "bad duration"),
        Note::NoOutput(name) => push_named(line, "missing output ", name),
    }
}

fn push_said(line: &mut Bytes, words: &str) -> Result<(), Memory>
    ensures { OnOk result (line.new ≡ line.old ++ (codes " -- " ++ escaped words.now)) }
{
    line.extend(b" -- ")?;
    push_escaped(line, words)
}

fn push_named(line: &mut Bytes, words: &str, name: &Text) -> Result<(), Memory>
    ensures { OnOk result
        (line.new ≡ line.old ++ (codes " -- " ++ escaped (words.now ++ name.now))) }
{
    push_said(line, words)?;
    push_escaped(line, name.as_str())
}

fn push_hit(line: &mut Bytes, cache: &Text, key: &Text) -> Result<(), Memory>
    ensures { OnOk result (line.new ≡ line.old
        ++ (codes " -- " ++ escaped (codes "hit " ++ cache.now ++ codes " " ++ key.now))) }
{
    push_named(line, "hit ", cache)?;
    push_escaped(line, " ")?;
    push_escaped(line, key.as_str())
}
