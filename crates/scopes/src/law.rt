//! The law of scopes.

ghost use Rattle.std.specs.Prelude.{◌≡◌, List};
ghost use Rattle.tag_text.specs.declared.part.Part.{Part};
ghost use Rattle.scopes.specs.Substitution.{Scope, said};
ghost use Rattle.scopes.specs.Values.{HasValuesOf};

/// In scopes that give each tag one value a text says the same.
pub fn same_values()
    ensures { (scope other : Scope) (text : List Part) → HasValuesOf scope other →
        said scope text ≡ said other text }
{}
