//! A history, printed.

ghost use Rattle.std.specs.Prelude.{◌≡◌, ◌++◌, IfOk, OnOk};
ghost use Rattle.std.specs.List.{AllByRecursion};
ghost use Rattle.history_text.specs.Histories.{IsTextOf};
ghost use Rattle.history_text.specs.Lines.{entry_line, entry_text, history_text};
ghost use Rattle.history_text.specs.Readable.{RanksByKey};

use crate::entries::entry_value;
use crate::fits::entries_fit;
use base_types::{Bytes, Memory};
use std::alloc::Global;
use tree_types::{Entries, Entry};

/// The text of an entry, without its line feed.
pub(crate) fn print_entry(alloc: Global, entry: &Entry) -> Result<Vec<u8>, Memory>
    ensures { IfOk result (λ text. text.items ≡ entry_text entry.now) }
{
    Ok(entry_value(alloc, entry)?.to_vec(alloc)?)
}

fn push_entry(text: &mut Bytes, entry: &Entry) -> Result<(), Memory>
    ensures { OnOk result (text.new ≡ text.old ++ entry_line entry.now) }
{
    let line = print_entry(text.allocator(), entry)?;
    text.extend(line.as_slice())?;
    text.push(b'\n')
}

fn print_lines(alloc: Global, entries: &Entries) -> Result<Bytes, Memory>
    ensures { IfOk result (λ text. text ≡ history_text entries.now) }
{
    let mut text = Bytes::new(alloc);
    let entries = entries.as_slice();
    for entry in entries {
        push_entry(&mut text, entry)?;
    }
    Ok(text)
}

/// A line for each entry, a list of JSON without spaces. Each line ends with a line feed.
pub fn print_history(alloc: Global, entries: &Entries) -> Result<Bytes, Memory>
    ensures text { IfOk result (λ text. text ≡ history_text entries.now) }

    // Of a rank the text has only what its key does not say.
    ensures reads_back { IfOk result
        (λ text. AllByRecursion RanksByKey entries.now → IsTextOf entries.now text) }
{
    entries_fit(entries);
    print_lines(alloc, entries)
}
