//! The rules in their order.

ghost use Rattle.std.specs.Prelude.{◌≡◌};
ghost use Rattle.field_kinds.specs.Refusing.{Reads};
ghost use Rattle.wf_check.specs.Verdicts as verdicts;

use base_types::TryCopy;
use field_kinds::KindRefused;
use field_kinds::rules::{
    BAD_NAME, CYCLE, DEPENDS_MIX, DOUBLE_NAME, MISPLACED_TAG, NOT_ANCESTOR, UNKNOWN_LOCK,
    UNKNOWN_NAME, UNKNOWN_PARAMETER,
};
use wf_places::Place;

// The first place at which the rule is broken is refused.
fn asked(rule: u32, places: &[Place]) -> Result<(), KindRefused>
    ensures { Reads result (verdicts.asked rule places.now) }
{
    for i in 0..places.len() {
        let place = &places[i];
        if place.rule == rule {
            return Err(KindRefused::Rule {
                rule,
                field: place.field.copy()?,
            });
        }
    }
    Ok(())
}

// Asks the rules, each of all places.
#[tactic(auto, unfolding(crate::specs::Verdicts::checked))]
pub(crate) fn checked(places: &[Place]) -> Result<(), KindRefused>
    ensures { Reads result (verdicts.checked places.now) }
{
    asked(DOUBLE_NAME, places)?;
    asked(BAD_NAME, places)?;
    asked(UNKNOWN_NAME, places)?;
    asked(DEPENDS_MIX, places)?;
    asked(CYCLE, places)?;
    asked(UNKNOWN_LOCK, places)?;
    asked(MISPLACED_TAG, places)?;
    asked(UNKNOWN_PARAMETER, places)?;
    asked(NOT_ANCESTOR, places)
}
