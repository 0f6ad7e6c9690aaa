//! The top call.

ghost use Rattle.std.specs.Prelude.{◌≡◌, Some, None};
ghost use Rattle.wf_program.specs.Runs.{edge, run_of, Ends, Did, NoTransferFailed, NamesNoFailedTransfer};
ghost use Rattle.wf_program.specs.Inside.Ends.{Wrote, kept_in, status_in, text_in};

use crate::asked::{Asked, what_is_asked};
use crate::ended::Ended;
use crate::run::run;
use crate::status::Status;
use crate::texts::Made;
use base_types::Text;
use io_edge::{Outage, Sink, Source, write_all};
use std::alloc::Global;

// The end of a run, before its text is written.
fn end_of<S: Source, O: Outage>(
    alloc: Global,
    words: &[Text],
    source: &mut S,
    outage: O,
    ended: &mut Ended<O>,
) -> Result<Made, Status>
    ensures ends { Ends words.now (edge (S.left source.old) (S.left source.new) (S.faults source.old) (S.faults source.new)) (O.faults outage) (kept_in O.faults ended.new.store) (status_in result) (text_in result) }
    ensures outage { ended.new.store ≡ None → ended.new.outage ≡ Some outage }
{
    *ended = Ended::new();
    match what_is_asked(alloc, words, source) {
        Ok(Asked::Run(mode, document, shown)) => run(alloc, mode, &document, shown, outage, ended),
        Ok(Asked::Told(made)) => {
            ended.outage = Some(outage);
            Ok(made)
        }
        Err(status) => {
            ended.outage = Some(outage);
            Err(status)
        }
    }
}

// Writes the text of an end.
fn write_end<K: Sink>(sink: &mut K, text: &[u8], status: Status) -> Status
    ensures { Wrote (edge (K.holds sink.old) (K.holds sink.new) (K.faults sink.old) (K.faults sink.new)) status text.now result }
{
    match write_all(sink, text) {
        Ok(()) => status,
        Err(_) => Status::WriteFault,
    }
}

// Does what the words ask for, and writes its text.
fn run_words<S: Source, K: Sink, O: Outage>(
    alloc: Global,
    words: &[Text],
    source: &mut S,
    sink: &mut K,
    outage: O,
    ended: &mut Ended<O>,
) -> Status
    ensures did { Did (run_of words.now
        (edge (S.left source.old) (S.left source.new) (S.faults source.old) (S.faults source.new))
        (edge (K.holds sink.old) (K.holds sink.new) (K.faults sink.old) (K.faults sink.new))
        (O.faults outage) (kept_in O.faults ended.new.store)) result }
    ensures outage { ended.new.store ≡ None → ended.new.outage ≡ Some outage }
{
    match end_of(alloc, words, source, outage, ended) {
        Ok(made) => write_end(sink, made.text.as_slice(), made.status),
        Err(status) => write_end(sink, status.fixed_text(), status),
    }
}

/// Does what the words ask for (those behind the program's name): `check` reads a document from the source and writes how
/// many workflows it has, or its first refusal; `run` runs its workflows over a new store until nothing is due and writes
/// their trees, or a summary, and the history where it is asked for; `simulate` does so too, but follows the schedule of the
/// document first; `generate` writes the document of a number, or the summary of its run.
///
/// The status says how the run ended; the text of each status but WriteFault is in the sink, and the store of a run is left
/// in `ended`, or the outage where no store was made. Where no read and no write failed, the status is neither ReadFault nor
/// WriteFault. Over standard input and output, which tell no bytes, the clause speaks
/// of words, faults and the store alone.
pub fn argo<S: Source, K: Sink, O: Outage>(
    alloc: Global,
    words: &[Text],
    source: &mut S,
    sink: &mut K,
    outage: O,
    ended: &mut Ended<O>,
) -> Status
    ensures did { Did (run_of words.now
        (edge (S.left source.old) (S.left source.new) (S.faults source.old) (S.faults source.new))
        (edge (K.holds sink.old) (K.holds sink.new) (K.faults sink.old) (K.faults sink.new))
        (O.faults outage) (kept_in O.faults ended.new.store)) result }
    ensures outage { ended.new.store ≡ None → ended.new.outage ≡ Some outage }
    ensures complete { NoTransferFailed (run_of words.now
        (edge (S.left source.old) (S.left source.new) (S.faults source.old) (S.faults source.new))
        (edge (K.holds sink.old) (K.holds sink.new) (K.faults sink.old) (K.faults sink.new))
        (O.faults outage) (kept_in O.faults ended.new.store)) → NamesNoFailedTransfer result }
{
    run_words(alloc, words, source, sink, outage, ended)
}
