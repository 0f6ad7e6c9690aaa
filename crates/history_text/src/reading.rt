//! A history, read from its text.

ghost use Rattle.std.specs.Prelude.{◌≡◌, List as Seq, IfOk, IfErr};
ghost use Rattle.tree_types.specs.declared.entry.Entry.{Entry as AnEntry};
ghost use Rattle.history_text.specs.Histories.{GivesEntries, IsRefusal, IsTextOf};

use crate::HistoryRefused;
use crate::fault::Fault;
use crate::lines::first_line;
use std::alloc::Global;
use tree_types::Entries;

/// The entries of which these bytes are the text. Two histories have different texts.
pub fn read_history(alloc: Global, bytes: &[u8]) -> Result<Entries, HistoryRefused>
    ensures ok { IfOk result (λ entries. IsTextOf entries bytes.now) }
    ensures refused { IfErr result (λ refused. IsRefusal bytes.now refused) }

    // A printed history reads back.
    ensures reads_back { (entries : Seq AnEntry) → IsTextOf entries bytes.now → GivesEntries entries result }
{
    let mut entries = Entries::new(alloc);
    let mut rest = bytes;
    while !rest.is_empty() {
        match first_line(alloc, rest) {
            Ok((entry, after)) => {
                entries.push(entry)?;
                rest = after;
            }
            Err(Fault::Other) => {
                let line = entries.len() as u64 + 1;
                return Err(HistoryRefused::Bad { line });
            }
            Err(Fault::Memory) => return Err(HistoryRefused::Memory),
        }
    }
    Ok(entries)
}
