//! Whether a workflow asks for a lock that it did not ask for before, told by counts.

ghost use Rattle.std.specs.Prelude.{◌≤◌, ◌+◌, ◌↔◌, IsTrue};

/// Whether no more locks are asked for now than are left of those before. What is not answered is asked for on, so that these
/// are the same then.
pub(crate) fn none_by_counts(answered: usize, before: usize, now: usize) -> bool
    ensures { IsTrue result ↔ (answered + now ≤ before) }
{
    match now.checked_add(answered) {
        None => false,
        Some(all) => all <= before,
    }
}
