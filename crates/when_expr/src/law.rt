//! The law that ties the meaning of a `when` to its grammar.

ghost use Rattle.when_expr.specs.Meaning.{WhenSays};

/// What reading finds in a text is the condition that the grammar says, and no other.
pub fn when_says()
    ensures { WhenSays }
{}
