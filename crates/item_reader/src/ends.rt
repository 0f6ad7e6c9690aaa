//! The ends of a pod, by their words.

ghost use Rattle.std.specs.Prelude.{◌≡◌, IsTrue};
ghost use Rattle.tree_types.specs.Phases.{is_end};
ghost use Rattle.item_reader.specs.PodOutcomes.{pod_end, phase_of};

use base_types::Memory;
use field_kinds::Grammar;
use std::alloc::Global;
use tree_types::Phase;

/// How a pod can end.
#[derive(Clone, Copy, PartialEq, Eq)]
pub enum PodEnd {
    Succeeded,
    Failed,
    Error,
}

impl PodEnd {
    pub(crate) fn phase(self) -> Phase
        ensures value { result ≡ phase_of self }
        ensures ended { IsTrue (is_end result) }
    {
        match self {
            PodEnd::Succeeded => Phase::Succeeded,
            PodEnd::Failed => Phase::Failed,
            PodEnd::Error => Phase::Error,
        }
    }
}

// The words of the ends.
#[derive(Drop)]
pub(crate) struct EndWord;

impl Grammar for EndWord {
    type Meaning = PodEnd;

    ghost meaning = { pod_end };

    fn read(_alloc: Global, text: &str) -> Result<Option<PodEnd>, Memory> {
        Ok(end_of(text))
    }
}

fn end_of(text: &str) -> Option<PodEnd>
    ensures { result ≡ pod_end text.now }
{
    if text == "Succeeded" {
        Some(PodEnd::Succeeded)
    } else if text == "Failed" {
        Some(PodEnd::Failed)
    } else if text == "Error" {
        Some(PodEnd::Error)
    } else {
        None
    }
}
