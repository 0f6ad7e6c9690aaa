//! The results that bytes spell, or begin to.

ghost use Rattle.std.specs.Prelude.{◌≡◌, option_map, map};
ghost use Rattle.std.specs.List.{list_any};
ghost use Rattle.depends_expr.specs.Grammar.{spelling};
ghost use Rattle.depends_expr.specs.Inside.Postfix.{word_of};
ghost use Rattle.depends_expr.specs.Inside.Operands.{spelled, words, behind, is_found, begins_word};

use crate::steps::{OUTCOMES, Outcome};

// The result that the bytes spell.
pub(crate) fn outcome_of(part: &[u8]) -> Option<Outcome>
    ensures { option_map word_of result ≡ spelled part.now words }
{
    outcome_among(&OUTCOMES, part)
}

fn outcome_among(outcomes: &[Outcome], part: &[u8]) -> Option<Outcome>
    ensures { option_map word_of result ≡ spelled part.now (map word_of outcomes.now) }
{
    for outcome in outcomes {
        if outcome.text() == part {
            return Some(*outcome);
        }
    }
    None
}

// Whether some result's text begins so.
pub(crate) fn begins_outcome(part: &[u8]) -> bool
    ensures { result ≡ begins_word part.now }
{
    begins_among(&OUTCOMES, part)
}

fn begins_among(outcomes: &[Outcome], part: &[u8]) -> bool
    ensures { result ≡ list_any (λ w. is_found (behind part.now (spelling w))) (map word_of outcomes.now) }
{
    for outcome in outcomes {
        if begins(outcome.text(), part) {
            return true;
        }
    }
    false
}

// Whether a text begins with this part.
fn begins(text: &[u8], part: &[u8]) -> bool
    ensures { result ≡ is_found (behind part.now text.now) }
{
    if part.len() > text.len() {
        return false;
    }
    for (i, byte) in part.iter().enumerate() {
        if *byte != text[i] {
            return false;
        }
    }
    true
}
