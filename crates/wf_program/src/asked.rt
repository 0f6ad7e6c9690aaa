//! What words and input ask for.

ghost use Rattle.std.specs.Prelude.{◌≡◌, ℕ, List, true, Some};
ghost use Rattle.command_words.specs.Orders.{order_of};
ghost use Rattle.wf_program.specs.Runs.{reads_input};
ghost use Rattle.wf_program.specs.Inside.Ends.{Asks};

use crate::documents::{of_input, of_number};
use crate::status::Status;
use crate::texts::Made;
use base_types::Text;
use base_types::limits::LONGEST_INPUT;
use command_words::{Mode, Order, WordsRefused, read_words};
use io_edge::{ReadRefused, Source, read_all};
use run_texts::Shown;
use std::alloc::Global;
use wf_bundle::Document;

/// What is left to do.
#[derive(Drop)]
pub(crate) enum Asked {
    /// To write this text.
    Told(Made),
    /// To run this document in this mode, and show so much of the run.
    Run(Mode, Document, Shown),
}

// What an order asks for of a source.
fn of_source<S: Source>(alloc: Global, order: Order, source: &mut S) -> Result<Asked, Status>
    requires { reads_input order.mode ≡ true }
    ensures { (words : List (List ℕ)) → order_of words ≡ Some order → Asks words (record {
      bytes_before = S.left source.old;
      bytes_after = S.left source.new;
      faults_before = S.faults source.old;
      faults_after = S.faults source.new;
    }) result }
{
    match read_all(alloc, source, LONGEST_INPUT) {
        Ok(input) => of_input(alloc, order, input.as_slice()),
        Err(ReadRefused::Failed) => Err(Status::ReadFault),
        Err(ReadRefused::TooLong) => Err(Status::TooLong),
        Err(ReadRefused::Memory) => Err(Status::Memory),
    }
}

/// What words ask for of a source. Where nothing is left to do but to write a text that takes no memory it is the status.
pub(crate) fn what_is_asked<S: Source>(
    alloc: Global,
    words: &[Text],
    source: &mut S,
) -> Result<Asked, Status>
    ensures { Asks words.now (record {
      bytes_before = S.left source.old;
      bytes_after = S.left source.new;
      faults_before = S.faults source.old;
      faults_after = S.faults source.new;
    }) result }
{
    let order = match read_words(alloc, words) {
        Ok(order) => order,
        Err(WordsRefused::Usage) => return Err(Status::Usage),
        Err(WordsRefused::Memory) => return Err(Status::Memory),
    };
    match order.mode {
        Mode::Generate => of_number(alloc, order),
        Mode::Run | Mode::Simulate | Mode::Check => of_source(alloc, order, source),
    }
}
