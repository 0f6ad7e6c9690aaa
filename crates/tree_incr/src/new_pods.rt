//! How many pods a workflow asks for that it did not ask for before, told by counts.

ghost use Rattle.tree_incr.specs.NewPods.{FitsCounts};

/// What is known of the pods that a workflow asks for since its last fact.
#[derive(Clone, Copy, Debug, PartialEq, Eq)]
pub enum NewPods {
    /// It asks for none that it did not ask for before.
    None,
    /// It asks for one at the most that it did not ask for before.
    OneAtMost,
    /// Nothing is known.
    Unknown,
}

/// What the counts tell: how many pods a fact answers, how many were asked for before it, and how many are asked for now.
/// What is not answered is asked for on, so that there are new ones only where there are more than are left.
pub(crate) fn by_counts(answered: usize, before: usize, now: usize) -> NewPods
    ensures { FitsCounts answered before now result }
{
    let Some(all) = now.checked_add(answered) else {
        return NewPods::Unknown;
    };
    match all.saturating_sub(before) {
        0 => NewPods::None,
        1 => NewPods::OneAtMost,
        _ => NewPods::Unknown,
    }
}
