//! What a text says, while it is read.

ghost use Rattle.std.specs.Prelude.{◌≡◌, IfOk};
ghost use Rattle.connectives.specs.Grammar.{Joins};

use base_types::Memory;

/// What a text says, while it is read.
pub trait Draft: Drop {
    ghost joins: { Joins Self };

    fn negated(self) -> Result<Self, Memory>
        ensures { IfOk result (λ draft. draft ≡ joins.negated self) };

    fn all_of(self, right: Self) -> Result<Self, Memory>
        ensures { IfOk result (λ draft. draft ≡ joins.all_of self right) };

    fn any_of(self, right: Self) -> Result<Self, Memory>
        ensures { IfOk result (λ draft. draft ≡ joins.any_of self right) };
}
