//! The law that ties the meaning of a `depends` to its grammar.

ghost use Rattle.depends_expr.specs.Meaning.{DependsSays};

/// What reading finds in a text is the expression that the grammar says, and no other.
pub fn depends_says()
    ensures { DependsSays }
{}
