//! The text of the counts of a run.

ghost use Rattle.std.specs.Prelude.{◌≡◌, ◌++◌, IfOk, OnOk};
ghost use Rattle.tree_print.specs.Summary.{count_line, summary_text};
ghost use Rattle.tree_types.specs.Phases.{phase_text};

use crate::Counts;
use base_types::{Bytes, Memory};
use std::alloc::Global;
use tree_types::Phase;

// Adds a word, its number and a line feed.
fn push_count(text: &mut Bytes, word: &str, count: u64) -> Result<(), Memory>
    ensures { OnOk result (text.new ≡ text.old ++ count_line word.now count) }
{
    let line = format!(in text.allocator(); "{word} {count}\n")?;
    text.extend(line.as_bytes())
}

fn push_phase(text: &mut Bytes, phase: Phase, count: u64) -> Result<(), Memory>
    ensures { OnOk result (text.new ≡ text.old ++ count_line (phase_text phase) count) }
{
    push_count(text, phase.word(), count)
}

/// The workflows, the workflows by phase, the stored nodes and the pods, each in a line that ends with a line feed.
pub fn print_summary(alloc: Global, counts: &Counts) -> Result<Bytes, Memory>
    ensures { IfOk result (λ text. text ≡ summary_text counts.now) }
{
    let mut text = Bytes::new(alloc);
    push_count(&mut text, "workflows", counts.workflows)?;
    push_phase(&mut text, Phase::Pending, counts.pending)?;
    push_phase(&mut text, Phase::Running, counts.running)?;
    push_phase(&mut text, Phase::Succeeded, counts.succeeded)?;
    push_phase(&mut text, Phase::Failed, counts.failed)?;
    push_phase(&mut text, Phase::Error, counts.error)?;
    push_count(&mut text, "nodes", counts.nodes)?;
    push_count(&mut text, "pods", counts.pods)?;
    Ok(text)
}
