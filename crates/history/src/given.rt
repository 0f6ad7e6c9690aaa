//! What the laws of histories speak of, whatever it is. A caller names its own, or passes `Brand` and picks it at the call.

ghost use Rattle.history.specs.History.{History, Event};

use std::marker::Brand;

/// A property of histories, for each of some values.
pub trait Property<C> {
    /// The values.
    ghost About: { Type 0 };

    /// The history has it, for this value.
    ghost holds: { About → History C → Type 0 };
}

/// A rule for entries, for each of some laws.
pub trait Rule<C> {
    /// The laws.
    ghost Law: { Type 0 };

    /// By this law the entry is justified by the history before it.
    ghost justified: { Law → History C → Event C → Type 0 };
}

impl<C> Property<C> for Brand {
    ghost About = { Unit };

    ghost holds = { λ a h. Unit };
}

impl<C> Rule<C> for Brand {
    ghost Law = { Unit };

    ghost justified = { λ law h e. Unit };
}
