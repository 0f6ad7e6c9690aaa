//! The order of texts (`base_types`), and of phases (`tree_types`).

use base_types::{Memory, Text};
use std::alloc::Global;
use tree_types::{Phase, fulfilled, worst};

fn is_below(alloc: Global, low: &str, high: &str) -> Result<bool, Memory> {
    let low = Text::from_text(alloc, low)?;
    let high = Text::from_text(alloc, high)?;
    Ok(low < high)
}

/// Texts are ordered by their bytes.
#[test]
fn orders_texts(rt: HostRuntime) {
    for (low, high) in [
        ("", "a"),
        ("a-1", "a."),
        ("Z", "a"),
        ("a", "aa"),
        ("z", "é"),
    ] {
        assert!(rt;
            is_below(rt.alloc(), low, high) == Ok(true),
            "{low} and {high}"
        );
        assert!(rt;
            is_below(rt.alloc(), high, low) == Ok(false),
            "{high} and {low}"
        );
    }
}

#[test]
fn tells_the_worst_phase(rt: HostRuntime) {
    for (phase, is_over) in [
        (Phase::Pending, false),
        (Phase::Running, false),
        (Phase::Succeeded, true),
        (Phase::Skipped, true),
        (Phase::Failed, true),
        (Phase::Error, true),
        (Phase::Omitted, true),
    ] {
        assert!(rt; fulfilled(phase) == is_over);
    }
    for (a, b, worse) in [
        (Phase::Succeeded, Phase::Succeeded, Phase::Succeeded),
        (Phase::Skipped, Phase::Omitted, Phase::Succeeded),
        (Phase::Pending, Phase::Running, Phase::Succeeded),
        (Phase::Failed, Phase::Succeeded, Phase::Failed),
        (Phase::Skipped, Phase::Failed, Phase::Failed),
        (Phase::Failed, Phase::Error, Phase::Error),
        (Phase::Error, Phase::Omitted, Phase::Error),
    ] {
        assert!(rt; worst(a, b) == worse);
    }
}
