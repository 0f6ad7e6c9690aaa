//! The law of the parts.

ghost use Rattle.std.specs.Prelude.{◌≡◌, ◌↔◌, List, ℕ, Ok};
ghost use Rattle.tag_text.specs.declared.part.Part.{Part};
ghost use Rattle.tag_text.specs.Parts.{parsed};
ghost use Rattle.tag_text.specs.Spelling.{Spells};

/// What is parsed is spelled so, and what is spelled so is parsed.
pub fn spelling()
    ensures { (text : List ℕ) (parts : List Part) → (parsed text ≡ Ok parts) ↔ Spells text parts }
{}
