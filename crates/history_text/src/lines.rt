//! The lines of a history's text, read.

ghost use Rattle.std.specs.Prelude.{◌≡◌, ◌↔◌, IsTrue};
ghost use Rattle.history_text.specs.Inside.Bytes.{EndsAt, IsFirst, IsJson, IsLine};

use crate::fault::Fault;
use crate::fits::entry_fits;
use crate::history::print_entry;
use crate::read_entries::entry_of;
use serde_json::Value;
use std::alloc::Global;
use tree_types::Entry;

// How many bytes stand before the first line feed.
fn line_len(bytes: &[u8]) -> Option<usize>
    ensures { EndsAt bytes.now result }
{
    for (i, byte) in bytes.iter().enumerate() {
        if *byte == b'\n' {
            return Some(i);
        }
    }
    None
}

fn are_same(bytes: &[u8], others: &[u8]) -> bool
    ensures { IsTrue result ↔ (bytes.now ≡ others.now) }
{
    bytes == others
}

fn read_json(alloc: Global, line: &[u8]) -> Result<Value, Fault>
    ensures { IsJson line.now result }
{
    match Value::from_slice(alloc, line) {
        Ok(value) => Ok(value),
        Err(error) if error.is_memory() => Err(Fault::Memory),
        Err(_) => Err(Fault::Other),
    }
}

// The entry that is written as this line, and no other way.
fn read_line(alloc: Global, line: &[u8]) -> Result<Entry, Fault>
    ensures { IsLine line.now result }
{
    let value = match read_json(alloc, line) {
        Ok(value) => value,
        Err(fault) => return Err(fault),
    };
    let entry = match entry_of(alloc, &value) {
        Ok(entry) => entry,
        Err(fault) => return Err(fault),
    };
    entry_fits(&entry);
    let text = print_entry(alloc, &entry)?;
    if are_same(text.as_slice(), line) {
        Ok(entry)
    } else {
        Err(Fault::Other)
    }
}

/// The entry of the first line, and the bytes behind that line.
pub(crate) fn first_line(alloc: Global, bytes: &[u8]) -> Result<(Entry, &[u8]), Fault>
    ensures { IsFirst bytes.now result }
{
    let Some(len) = line_len(bytes) else {
        return Err(Fault::Other);
    };
    match read_line(alloc, &bytes[..len]) {
        Ok(entry) => Ok((entry, &bytes[len + 1..])),
        Err(fault) => Err(fault),
    }
}
